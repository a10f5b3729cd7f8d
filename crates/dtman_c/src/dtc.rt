//! Sources in dtc's language.
ghost use Rattle.std.specs.Prelude.{◌≡◌, IfErr, IfOk};
ghost use Rattle.dtman_engine.specs.Fault.{fault_value, no_memory};
ghost use Rattle.dtman_c.specs.Crossing.{IsGiven, OrNoMemory};
ghost use Rattle.dtman_c.specs.Dtc.{AreFiles, IsDtcAnswer, options_of, shown};

use crate::answer::{Answer, give};
use crate::seed::hasher_of;
use dt_text::lexeme::Binary;
use dtman_engine::{DtcOptions, Fault, compile_dtc};
use std::alloc::Global;

/// The file that an `/incbin/` of a source names.
#[repr(C)]
#[derive(Clone, Copy)]
pub struct IncludedFile<'a> {
    /// Where the word `/incbin/` begins in the source, in bytes.
    pub at: u32,
    pub bytes: &'a [u8],
}

/// How a source in dtc's language is compiled.
#[repr(C)]
#[derive(Clone, Copy)]
pub struct DtcChoice {
    pub symbols: bool,
    /// Whether the system boots on the processor that stands here, or on the source's own.
    pub names_processor: bool,
    pub boot_processor: u32,
}

// A copy of each file, as the engine owns them.
fn copied(alloc: Global, files: &[IncludedFile<'_>]) -> Result<Vec<Binary>, Fault>
    ensures ok { IfOk result (λ binaries. AreFiles files.now binaries.items) }
    ensures err { IfErr result (λ fault. fault_value fault ≡ no_memory) }
{
    let mut binaries = Vec::with_capacity(alloc, files.len())?;
    for file in files {
        let bytes = Vec::from_slice(alloc, file.bytes)?;
        let binary = Binary { at: file.at, bytes };
        binaries.push(binary).map_err(|_| Fault::no_memory())?;
    }
    Ok(binaries)
}

fn options_of(choice: &DtcChoice) -> DtcOptions
    ensures { result ≡ options_of choice.now }
{
    DtcOptions {
        symbols: choice.symbols,
        boot_processor: if choice.names_processor {
            Some(choice.boot_processor)
        } else {
            None
        },
    }
}

fn compiled(
    alloc: Global,
    source: &[u8],
    files: &[IncludedFile<'_>],
    choice: &DtcChoice,
    seed: u64,
) -> Result<Vec<u8>, Fault>
    ensures { OrNoMemory (IsDtcAnswer (options_of choice.now) source.now files.now) (shown result) }
{
    let hasher = hasher_of(seed)?;
    let binaries = copied(alloc, files)?;
    match compile_dtc(alloc, hasher, source, binaries, options_of(choice)) {
        Ok(compiled) => Ok(compiled.blob),
        Err(fault) => Err(fault),
    }
}

/// The blob of a source in dtc's language, with the files that its `/incbin/` name, in the order of the text.
#[unsafe(no_mangle)]
pub extern "C" fn dtman_compile_dtc(
    alloc: Global,
    source: &[u8],
    files: &[IncludedFile<'_>],
    choice: &DtcChoice,
    seed: u64,
    out: &mut [u8],
) -> Answer
    ensures { IsGiven (OrNoMemory (IsDtcAnswer (options_of choice.now) source.now files.now)) out.old out.new result }
{
    give(compiled(alloc, source, files, choice, seed), out)
}
