//! Tables of entries.
ghost use Rattle.std.specs.Prelude.{◌≡◌, ◌&&◌, IfOk};
ghost use Rattle.bus_kernel.specs.Image.Width.{bytes_of};
ghost use Rattle.bus_kernel.specs.Tables.Entry.{is_empty_entry};
ghost use Rattle.bus_kernel.specs.Private.Search.{Runs};
ghost use Rattle.bus_kernel.specs.Private.Views.{texts};
ghost use Rattle.bus_kernel.specs.Tables.Tables.{entry_size, is_told, is_telling};

use crate::image::Width;
use crate::slices::behind;
use crate::tables::entry::{entry_string, is_empty_entry};
use std::alloc::{AllocError, Global};

/// A table: the strings by which a driver matches devices.
#[derive(Drop)]
pub struct Table<'a> {
    /// In order, lent from the image, at least one.
    pub compatibles: Vec<&'a [u8]>,
}

// Entries that follow one another, and what stands behind them.
#[derive(Drop)]
pub(crate) struct Run<'a> {
    pub(crate) strings: Vec<&'a [u8]>,
    pub(crate) behind: &'a [u8],
}

/// The bytes of an entry: its strings and a pointer.
pub(crate) fn entry_size(width: Width) -> usize
    ensures { result ≡ entry_size (bytes_of width) }
{
    192 + width.bytes()
}

// The entries that follow one another from the front on.
pub(crate) fn run_of<'a>(
    alloc: Global,
    width: Width,
    bytes: &'a [u8],
) -> Result<Run<'a>, AllocError>
    ensures { IfOk result (λ run. Runs (entry_size (bytes_of width)) bytes.now (texts run.strings.items) run.behind.now) }
{
    let size = entry_size(width);
    let mut strings = Vec::new(alloc);
    let mut rest = bytes;
    while let Some(string) = entry_string(rest) {
        strings.push(string)?;
        rest = behind(rest, size);
    }
    Ok(Run {
        strings,
        behind: rest,
    })
}

fn is_told(string: &[u8]) -> bool
    ensures { result ≡ is_told string.now }
{
    string.iter().any(|byte| *byte == b',' || *byte == b'-')
}

fn is_telling(strings: &[&[u8]]) -> bool
    ensures { result ≡ is_telling (texts strings.now) }
{
    strings.iter().any(|string| is_told(*string))
}

impl Run<'_> {
    /// Whether it is a table.
    pub(crate) fn is_table(&self) -> bool
        ensures { result ≡ (is_empty_entry self.now.behind.now && is_telling (texts self.now.strings.items)) }
    {
        is_empty_entry(self.behind) && is_telling(self.strings.as_slice())
    }
}
