//! Why devices wait, until Linux's timeout ends and behind it, as text.

use crate::causes::add_causes;
use crate::chain_text::{add_chain, add_path, add_waits};
use crate::end::end_of;
use crate::late::{Boot, LinkedBoard, until_text};
use crate::link_reasons::LateLinks;
use crate::rules::Timeout;
use crate::waits::{Waits, device_at, no_device};
use bus_picture::why::{Chain, chain_from, waiting_chains};
use bus_plan::{Device, Plan};
use dtman_engine::Fault;
use std::alloc::{AllocError, Global};
use std::thread::Threads;

// Whether two chains are of the same device.
fn are_of_one(chain: &Chain, other: &Chain) -> bool {
    match (chain.devices.first(), other.devices.first()) {
        (Some(device), Some(other)) => device.index() == other.index(),
        _ => false,
    }
}

// The chain of a device, where the plan has it.
fn chain_in(
    alloc: Global,
    plan: &Plan,
    bound: &[bool],
    device: Device,
) -> Result<Option<Chain>, AllocError> {
    if device.index() >= plan.len() {
        return Ok(None);
    }
    let chain = chain_from(alloc, plan, bound, device)?;
    Ok(Some(chain))
}

impl Boot<'_, '_> {
    // The line of a device that waits until the timeout ends.
    fn add_until(
        &self,
        alloc: Global,
        text: &mut Vec<u8>,
        chain: &Chain,
    ) -> Result<(), AllocError> {
        add_waits(
            alloc,
            text,
            self.board.linked.plan(),
            self.board.linked,
            self.board.built_in,
            chain,
        )?;
        text.extend_from_slice(self.until)?;
        if let Some(device) = chain.devices.first().copied() {
            text.extend_from_slice(b"; ")?;
            self.add_turn(text, device)?;
        }
        text.push(b'\n')?;
        Ok(())
    }

    // The line of a device as it is in the end.
    fn add_lasting(
        &self,
        alloc: Global,
        text: &mut Vec<u8>,
        chain: &Chain,
    ) -> Result<(), AllocError> {
        let linked = self.board.linked;
        let reasons = LateLinks { linked };
        add_chain(alloc, text, self.last, &reasons, self.board.built_in, chain)
    }

    // The lines of chains, of which these last: in the same order.
    fn add_all(
        &self,
        alloc: Global,
        text: &mut Vec<u8>,
        chains: &[Chain],
        lasting: &[Chain],
    ) -> Result<(), AllocError> {
        let mut next = 0usize;
        for chain in chains {
            match lasting.get(next) {
                Some(last) if are_of_one(chain, last) => {
                    next = next.wrapping_add(1);
                    self.add_lasting(alloc, text, last)?;
                }
                _ => self.add_until(alloc, text, chain)?,
            }
        }
        Ok(())
    }

    // Each device that waits when the timeout ends.
    fn all(&self, alloc: Global) -> Result<Waits, AllocError> {
        let chains = waiting_chains(alloc, self.board.linked.plan(), self.before)?;
        let lasting = waiting_chains(alloc, self.last, self.behind)?;
        let mut text = Vec::new(alloc);
        let (plan, built_in) = (self.board.linked.plan(), self.board.built_in);
        add_causes(alloc, &mut text, plan, built_in, chains.as_slice())?;
        self.add_all(alloc, &mut text, chains.as_slice(), lasting.as_slice())?;
        self.add_lost(alloc, &mut text, b": ", None)?;
        let any = !lasting.is_empty();
        Ok(Waits { text, any })
    }

    // The line of one device.
    fn add_one(&self, alloc: Global, text: &mut Vec<u8>, device: Device) -> Result<(), AllocError> {
        if self.board.linked.is_absent(device) {
            add_path(text, self.board.linked.plan(), device)?;
            return text.extend_from_slice(b": Linux makes no device of it\n");
        }
        if self.is_released(device) {
            return match chain_in(alloc, self.board.linked.plan(), self.before, device)? {
                Some(chain) => self.add_until(alloc, text, &chain),
                None => Ok(()),
            };
        }
        match chain_in(alloc, self.last, self.behind, device)? {
            Some(chain) => self.add_lasting(alloc, text, &chain),
            None => Ok(()),
        }
    }

    fn one(&self, alloc: Global, device: Device) -> Result<Waits, AllocError> {
        let mut text = Vec::new(alloc);
        self.add_one(alloc, &mut text, device)?;
        self.add_lost(alloc, &mut text, b": ", Some(device))?;
        let any = !self.is_bound(device);
        Ok(Waits { text, any })
    }

    // Of the device at a path, or else of all.
    fn waits(&self, alloc: Global, path: Option<&[u8]>) -> Result<Waits, Fault> {
        let Some(path) = path else {
            return self.all(alloc).map_err(|_| Fault::no_memory());
        };
        match device_at(self.board.linked.plan(), path) {
            Some(device) => self.one(alloc, device).map_err(|_| Fault::no_memory()),
            None => Err(no_device()),
        }
    }
}

fn late_why<R: Threads + Sync>(
    rt: &R,
    alloc: Global,
    board: &LinkedBoard<'_, '_>,
    before: &[bool],
    seconds: u32,
    path: Option<&[u8]>,
) -> Result<Waits, Fault> {
    let until = until_text(alloc, seconds)?;
    let last = board.linked.late();
    match end_of(rt, alloc, last) {
        Ok(behind) => {
            let boot = Boot {
                board,
                before,
                last,
                behind: behind.as_slice(),
                until: until.as_slice(),
            };
            boot.waits(alloc, path)
        }
        Err(fault) => Err(fault),
    }
}

fn why_by<R: Threads + Sync>(
    rt: &R,
    alloc: Global,
    board: &LinkedBoard<'_, '_>,
    bound: &[bool],
    path: Option<&[u8]>,
) -> Result<Waits, Fault> {
    let seconds = match board.timeout {
        Timeout::Seconds(seconds) => seconds,
        Timeout::Never => {
            let boot = Boot {
                board,
                before: bound,
                last: board.linked.plan(),
                behind: bound,
                until: b"",
            };
            return boot.waits(alloc, path);
        }
    };
    late_why(rt, alloc, board, bound, seconds, path)
}

/// Why the device at a path isn't bound in the end, or, where none is named, why each device that waits when the timeout ends does. One
/// waits among them where it isn't bound behind the timeout either.
pub(crate) fn boot_why<R: Threads + Sync>(
    rt: &R,
    alloc: Global,
    board: &LinkedBoard<'_, '_>,
    path: Option<&[u8]>,
) -> Result<Waits, Fault> {
    match end_of(rt, alloc, board.linked.plan()) {
        Ok(bound) => why_by(rt, alloc, board, bound.as_slice(), path),
        Err(fault) => Err(fault),
    }
}
