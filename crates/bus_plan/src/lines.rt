ghost use Rattle.std.specs.Prelude.{◌≡◌, ◌≤◌, length};
ghost use Rattle.bus_plan.specs.Lines.{lines, is_line_byte, is_line};

use bstr::{ByteSlice, Lines};

/// The lines of a text file of the bus. Each ends with a line feed, and one carriage return before it is dropped; the
/// last may lack its line feed.
pub fn lines_of<'a>(text: &'a [u8]) -> Lines<'a>
    ensures value { result ≡ lines text.now }
    ensures len { length result ≤ length text.now }
{
    text.lines()
}

/// Whether a byte may stand in a line: a tab, or 0x20 to 0x7e.
pub fn is_line_byte(byte: u8) -> bool
    ensures { result ≡ is_line_byte byte }
{
    byte == b'\t' || (b' ' <= byte && byte <= b'~')
}

/// Whether every byte of a line may stand in it.
pub fn is_line(line: &[u8]) -> bool
    ensures { result ≡ is_line line.now }
{
    // All bytes are tested, with no way out before the end, so that many are tested at once.
    let mut is_line = true;
    for byte in line {
        is_line = is_line_byte(*byte) && is_line;
    }
    is_line
}
