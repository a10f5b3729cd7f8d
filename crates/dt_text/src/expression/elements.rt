//! Elements of cells, by their width.
ghost use Rattle.std.specs.Prelude.{◌≡◌, ◌*◌, ◌++◌, is_ok, if◌then◌else◌};
ghost use Rattle.dt_text.specs.Expression.Element.{bytes_in, width_of, fits_bits, low_bytes, element};

use crate::lexeme::{Fault, FaultKind};
use std::alloc::AllocError;

/// How wide an element of cells is.
#[derive(Clone, Copy, Debug, PartialEq, Eq)]
pub enum Width {
    Eight,
    Sixteen,
    ThirtyTwo,
    SixtyFour,
}

/// The width in bits that `/bits/` names, where there is one.
pub fn width_of(bits: u64) -> Option<Width>
    ensures { result ≡ width_of bits }
{
    match bits {
        8 => Some(Width::Eight),
        16 => Some(Width::Sixteen),
        32 => Some(Width::ThirtyTwo),
        64 => Some(Width::SixtyFour),
        _ => None,
    }
}

fn bytes_in(width: Width) -> u8
    ensures { result ≡ bytes_in width }
{
    match width {
        Width::Eight => 1,
        Width::Sixteen => 2,
        Width::ThirtyTwo => 4,
        Width::SixtyFour => 8,
    }
}

fn fits(width: Width, number: u64) -> bool
    ensures { result ≡ fits_bits (8 * bytes_in width) number }
{
    match width {
        Width::Eight => number <= 0xff || number >= 0xffff_ffff_ffff_ff00,
        Width::Sixteen => number <= 0xffff || number >= 0xffff_ffff_ffff_0000,
        Width::ThirtyTwo => number <= 0xffff_ffff || number >= 0xffff_ffff_0000_0000,
        Width::SixtyFour => true,
    }
}

/// The number of an element whose first byte has this place, or its fault.
pub fn element(width: Width, place: u32, value: Result<u64, Fault>) -> Result<u64, Fault>
    ensures { result ≡ element width place value }
{
    match value {
        Err(fault) => Err(fault),
        Ok(number) => {
            if fits(width, number) {
                Ok(number)
            } else {
                Err(Fault {
                    kind: FaultKind::ElementRange,
                    place,
                })
            }
        }
    }
}

/// Puts the low bytes of a number behind those that are there, the highest first.
pub fn push_low_bytes(bytes: &mut Vec<u8>, width: Width, number: u64) -> Result<(), AllocError>
    ensures { bytes.new.items ≡ (if is_ok result
        then bytes.old.items ++ low_bytes (bytes_in width) number else bytes.old.items) }
{
    match width {
        Width::Eight => bytes.extend_from_slice(&((number % 0x100) as u8).to_be_bytes()),
        Width::Sixteen => bytes.extend_from_slice(&((number % 0x1_0000) as u16).to_be_bytes()),
        Width::ThirtyTwo => bytes.extend_from_slice(
            &((number % 0x1_0000_0000) as u32).to_be_bytes(),
        ),
        Width::SixtyFour => bytes.extend_from_slice(&number.to_be_bytes()),
    }
}
