//! What a line marker says.
ghost use Rattle.std.specs.Prelude.{◌≡◌, option_map};
ghost use Rattle.dt_text.specs.Include.Private.Places.{told_of};
ghost use Rattle.dt_text.specs.Include.UserLines.{line_number, name_of, told};

use crate::include::bytes::{Class, begins, behind, digit_value, front, run_len};
use crate::lexeme::fronts::quoted_len;
use crate::lexeme::gaps::behind_word;

/// The longest path of a file that a line marker names, with its quotes: no system opens a longer one.
const MAX_PATH: usize = 4096;

/// A line marker: what it says of the next line.
#[derive(Clone, Copy)]
pub(crate) struct Marker<'t> {
    pub line: usize,
    pub file: Option<&'t [u8]>,
}

/// What a line that is a marker says behind `#`: `[line] NUMBER ["FILE" ..]`.
pub(crate) fn read_marker<'t>(line: &'t [u8]) -> Marker<'t>
    ensures { told_of result ≡ told line.now }
{
    let rest = behind_word(line);
    let number = behind(rest, run_len(Class::Blank, rest));
    let digits = run_len(Class::Digit, number);
    let name = behind(number, digits);
    let name = behind(name, run_len(Class::Blank, name));
    Marker {
        line: decimal(front(number, digits)),
        file: quoted(name),
    }
}

/// What stands between the quotes, unless no path is so long.
fn quoted<'t>(s: &'t [u8]) -> Option<&'t [u8]>
    ensures { option_map (λ name. name.now) result ≡ name_of s.now }
{
    if !begins(s, b'"') {
        return None;
    }
    let len = quoted_len(b'"', true, s)?;
    if len > MAX_PATH {
        return None;
    }
    Some(behind(front(s, len.saturating_sub(1)), 1))
}

/// A number of a line. One that no file has stands for itself as far as it goes.
fn decimal(digits: &[u8]) -> usize
    ensures { result ≡ line_number digits.now }
{
    let mut number: usize = 0;
    for c in digits {
        number = number
            .saturating_mul(10)
            .saturating_add(digit_value(*c) as usize);
    }
    number
}
