//! Addresses and sizes as words of a line.
ghost use Rattle.std.specs.Prelude.{◌≡◌, ◌++◌, ◌<◌, OnOk};
ghost use Rattle.dt_questions.specs.Numbers.{address_text, hex_digit, hex_digits, size_text, span_text, unit_text};

use crate::words::add_decimal;
use std::alloc::{AllocError, Global};

fn hex_digit(number: u8) -> u8
    requires { number < 16 }
    ensures { result ≡ hex_digit number }
{
    if number < 10 {
        48 + number
    } else {
        87 + number
    }
}

// Adds so many digits to the base of 16.
fn add_hex(text: &mut Vec<u8>, count: usize, number: u128) -> Result<(), AllocError>
    ensures { OnOk result (text.new.items ≡ text.old.items ++ hex_digits count number) }
{
    if count == 0 {
        return Ok(());
    }
    add_hex(text, count - 1, number / 16)?;
    text.push(hex_digit((number % 16) as u8))?;
    Ok(())
}

fn add_address(text: &mut Vec<u8>, number: u128) -> Result<(), AllocError>
    ensures { OnOk result (text.new.items ≡ text.old.items ++ address_text number) }
{
    if number < 4_294_967_296 {
        return add_hex(text, 8, number);
    }
    add_hex(text, 16, number)
}

// Adds a number and a letter.
fn add_unit(alloc: Global, text: &mut Vec<u8>, number: u64, unit: &[u8]) -> Result<(), AllocError>
    ensures { OnOk result (text.new.items ≡ text.old.items ++ unit_text number unit.now) }
{
    add_decimal(alloc, text, number)?;
    text.extend_from_slice(unit)
}

fn add_size(alloc: Global, text: &mut Vec<u8>, number: u64) -> Result<(), AllocError>
    ensures { OnOk result (text.new.items ≡ text.old.items ++ size_text number) }
{
    if number % 1_073_741_824 == 0 {
        return add_unit(alloc, text, number / 1_073_741_824, b"G");
    }
    if number % 1_048_576 == 0 {
        return add_unit(alloc, text, number / 1_048_576, b"M");
    }
    if number % 1024 == 0 {
        return add_unit(alloc, text, number / 1024, b"K");
    }
    add_decimal(alloc, text, number)
}

/// Adds the first address and the last of `size` bytes from `start` on, and their size.
pub fn add_span(alloc: Global, text: &mut Vec<u8>, start: u64, size: u64) -> Result<(), AllocError>
    ensures { OnOk result (text.new.items ≡ text.old.items ++ span_text start size) }
{
    add_address(text, start as u128)?;
    text.push(b'-')?;
    add_address(text, (start as u128 + size as u128).saturating_sub(1))?;
    text.push(b' ')?;
    add_size(alloc, text, size)?;
    Ok(())
}
