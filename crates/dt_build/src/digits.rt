//! Numbers in decimal digits.
ghost use Rattle.std.specs.Prelude.{◌≡◌, ◌≤◌, ◌++◌, OnOk, drop, length};
ghost use Rattle.dt_source.specs.TreeMeaning.Names.{decimal};

use std::alloc::AllocError;

/// So many digits has the greatest number.
pub(crate) const MAX_DIGITS: usize = 20;

/// Puts the digits of a number at the end of the room for them, and gives the place of the first.
pub(crate) fn put_digits(room: &mut [u8], number: usize) -> usize
    requires { length room.old ≡ 20 }
    ensures within { result ≤ 20 }
    ensures long { length room.new ≡ 20 }
    ensures digits { drop result room.new ≡ decimal number }
{
    let mut at = MAX_DIGITS;
    let mut rest = number;
    while at > 0 {
        at -= 1;
        room[at] = b'0' + (rest % 10) as u8;
        rest /= 10;
        if rest == 0 {
            return at;
        }
    }
    at
}

/// How many digits a number has.
pub(crate) fn digits_size(number: usize) -> usize
    ensures size { result ≡ length (decimal number) }
    ensures few { result ≤ 20 }
{
    let mut room = [0; MAX_DIGITS];
    MAX_DIGITS - put_digits(&mut room, number)
}

/// Puts the digits of a number behind a text.
pub(crate) fn append_digits(text: &mut Vec<u8>, number: usize) -> Result<(), AllocError>
    ensures { OnOk result (text.new.items ≡ text.old.items ++ decimal number) }
{
    let mut room = [0; MAX_DIGITS];
    let first = put_digits(&mut room, number);
    text.extend_from_slice(&room[first..])?;
    Ok(())
}
