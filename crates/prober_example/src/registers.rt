//! The identity registers of a board, and drivers that read them.
ghost use Rattle.std.specs.Prelude.{◌<◌, length};
ghost use Rattle.bus_manager.specs.Prober.{IsLawfulReport};
ghost use Rattle.bus_manager.specs.Seen.{sees};
ghost use Rattle.bus_manager.specs.TableProber.{ShowsTable};

use bstr::ByteSlice;
use bus_core::Report;
use bus_manager::{Prober, Seen, TableProber};
use bus_plan::{Device, Fields, Plan, lines_of};

/// What a device's driver read: nothing where the device is deferred, or doesn't answer.
#[derive(Clone, Copy, Debug)]
pub struct Found {
    pub device: Device,
    pub identity: Option<u8>,
}

/// The registers, as a file of lines `PATH NUMBER` has them.
#[derive(Clone, Copy)]
pub struct Registers<'a> {
    text: &'a [u8],
}

impl<'a> Registers<'a> {
    pub fn of(text: &'a [u8]) -> Registers<'a> {
        Registers { text }
    }

    /// What the device at a path answers, if it does. It takes no memory, as no probe may.
    fn identity(&self, path: &[u8]) -> Option<u8> {
        for line in lines_of(self.text) {
            let mut fields = Fields::of(line);
            if fields.next() == Some(path) {
                return number(fields.next()?);
            }
        }
        None
    }
}

fn number(word: &[u8]) -> Option<u8> {
    word.to_str().ok()?.parse::<u8>().ok()
}

impl Prober for Registers<'_> {
    type Note = Found;

    // A note says which device was probed, and that its report is what the plan says by the devices that were bound then.
    ghost attests = { λ prober plan device seen report found. ShowsTable plan device seen report found.device };

    /// A driver reads its device once its suppliers are there. Else the device is deferred, and its register isn't read.
    fn probe(&self, plan: &Plan, device: Device, seen: &Seen) -> (Report, Found) {
        let (report, device) = TableProber.probe(plan, device, seen);
        let identity = match report {
            Report::Settled => self.identity(plan.path(device).as_bytes()),
            Report::Missing(_) => None,
        };
        (report, Found { device, identity })
    }
}
