//! The header and the reserved memory, which stand before the structure block.
ghost use Rattle.std.specs.Prelude.{◌≡◌, ◌+◌, ◌≤◌, ◌++◌, OnOk};
ghost use Rattle.dt_blob.specs.Blob.{limit, header, reservations};
ghost use Rattle.dt_blob.specs.Format.{header_size};

use crate::bytes::{put_double_word, put_word};
use std::alloc::{AllocError, Global};

/// The header's size in bytes.
pub(crate) const HEADER_SIZE: usize = 40;

/// The word that begins a blob.
pub(crate) const MAGIC: u32 = 0xd00d_feed;

/// The version of the format.
pub(crate) const VERSION: u32 = 17;

const LAST_COMPATIBLE_VERSION: u32 = 16;

/// The sizes of the blocks behind the header.
#[derive(Clone, Copy)]
pub(crate) struct Sizes {
    pub(crate) reserved: u32,
    pub(crate) structure: u32,
    pub(crate) strings: u32,
}

pub(crate) fn put_header(out: &mut Vec<u8>, boot_cpu: u32, sizes: Sizes) -> Result<(), AllocError>
    requires { header_size + sizes.reserved + sizes.structure + sizes.strings ≤ limit }
    ensures { OnOk result (out.new.items ≡ out.old.items ++ header boot_cpu sizes.reserved sizes.structure sizes.strings) }
{
    let structure_at = HEADER_SIZE as u32 + sizes.reserved;
    let strings_at = structure_at + sizes.structure;
    put_word(out, MAGIC)?;
    put_word(out, strings_at + sizes.strings)?;
    put_word(out, structure_at)?;
    put_word(out, strings_at)?;
    put_word(out, HEADER_SIZE as u32)?;
    put_word(out, VERSION)?;
    put_word(out, LAST_COMPATIBLE_VERSION)?;
    put_word(out, boot_cpu)?;
    put_word(out, sizes.strings)?;
    put_word(out, sizes.structure)
}

pub(crate) fn put_reservations(out: &mut Vec<u8>, reserves: &[(u64, u64)]) -> Result<(), AllocError>
    ensures { OnOk result (out.new.items ≡ out.old.items ++ reservations reserves.now) }
{
    for reserve in reserves {
        put_double_word(out, reserve.0)?;
        put_double_word(out, reserve.1)?;
    }
    put_double_word(out, 0)?;
    put_double_word(out, 0)
}
