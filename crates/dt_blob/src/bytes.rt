//! Numbers and padding behind bytes.
ghost use Rattle.std.specs.Prelude.{◌≡◌, ◌++◌, ◌-◌, ◌%◌, ◌≤◌, length, OnOk, OnErr};
ghost use Rattle.dt_blob.specs.BigEndian.{word, double_word};
ghost use Rattle.dt_blob.specs.Blob.{limit, padding};
ghost use Rattle.dt_blob.specs.Strings.{ended};

use byteorder::{BigEndian, ByteOrder};
use std::alloc::AllocError;

#[tactic(auto, unfolding(crate::specs::BigEndian::word))]
pub(crate) fn put_word(out: &mut Vec<u8>, number: u32) -> Result<(), AllocError>
    ensures { OnOk result (out.new.items ≡ out.old.items ++ word number) }
{
    let mut bytes = [0; 4];
    BigEndian::write_u32(&mut bytes, number);
    out.extend_from_slice(&bytes)
}

#[tactic(auto, unfolding(crate::specs::BigEndian::double_word))]
pub(crate) fn put_double_word(out: &mut Vec<u8>, number: u64) -> Result<(), AllocError>
    ensures { OnOk result (out.new.items ≡ out.old.items ++ double_word number) }
{
    let mut bytes = [0; 8];
    BigEndian::write_u64(&mut bytes, number);
    out.extend_from_slice(&bytes)
}

/// Bytes and a zero byte.
pub(crate) fn put_ended(out: &mut Vec<u8>, text: &[u8]) -> Result<(), AllocError>
    requires { length text.now ≤ limit }
    ensures ok { OnOk result (out.new.items ≡ out.old.items ++ ended text.now) }
    ensures err { OnErr result (out.new.items ≡ out.old.items) }
{
    out.reserve(text.len() + 1)?;
    out.extend_from_slice(text)?;
    out.push_reserved(0);
    Ok(())
}

/// How many zero bytes lead from a length to a multiple of 4.
pub(crate) fn padding_len(len: usize) -> usize
    ensures { result ≡ (4 - len % 4) % 4 }
{
    (4 - len % 4) % 4
}

/// Zero bytes behind what is `len` bytes long.
pub(crate) fn put_padding(out: &mut Vec<u8>, len: usize) -> Result<(), AllocError>
    ensures { OnOk result (out.new.items ≡ out.old.items ++ padding len) }
{
    out.extend_from_slice(&[0, 0, 0][..padding_len(len)])
}
