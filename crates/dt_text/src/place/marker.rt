//! Line markers, which the C preprocessor leaves: `# 12 "board.dtsi" 1`.
ghost use Rattle.std.specs.Prelude.{◌≡◌, ◌⊎◌, ◌+◌, ◌-◌, ◌^◌, ◌≤◌, ◌<◌, ◌==◌, ◌&&◌, nat_lt, take, option_map, true, length, IfSome};
ghost use Rattle.dt_text.specs.Lexeme.Bytes.{is_digit};
ghost use Rattle.dt_text.specs.Place.Positions.{before, quote_in, counted, is_marker, line_after, line_of, quoted};

/// A file, none where no marker named one, and a line of it.
#[derive(Clone, Copy)]
pub struct Origin<'a> {
    pub file: Option<&'a [u8]>,
    pub line: usize,
}

// The first bytes, or all where there are fewer.
pub(crate) fn front(s: &[u8], n: usize) -> &[u8]
    ensures { result.now ≡ take n s.now }
{
    if n < s.len() { &s[..n] } else { s }
}

fn counts(number: usize, c: u8) -> bool
    ensures { result ≡ (is_digit c && nat_lt number 100000000) }
{
    c >= b'0' && c <= b'9' && number < 100_000_000
}

// The number that digits at the front are.
fn counted(s: &[u8]) -> usize
    ensures value { result ≡ counted 0 s.now }
    ensures small { result < 1000000000 }
{
    let mut number: usize = 0;
    for (i, c) in s.iter().enumerate() {
        if !counts(number, *c) {
            return number;
        }
        number = number * 10 + (*c - b'0') as usize;
    }
    number
}

fn quote_in(s: &[u8]) -> Option<usize>
    ensures value { result ≡ quote_in s.now }
    ensures within { IfSome result (λ i. i < length s.now) }
{
    s.iter().position(|c| *c == b'"')
}

fn before_quote(s: &[u8]) -> &[u8]
    ensures { result.now ≡ before (quote_in s.now) s.now }
{
    match quote_in(s) {
        Some(i) => &s[..i],
        None => s,
    }
}

// What stands behind the first quote, up to the next.
fn quoted<'a>(s: &'a [u8]) -> Option<&'a [u8]>
    ensures { option_map (λ f. f.now) result ≡ quoted s.now }
{
    match quote_in(s) {
        Some(i) => Some(before_quote(&s[i + 1..])),
        None => None,
    }
}

fn is_marker(s: &[u8]) -> bool
    ensures { result ≡ is_marker s.now }
{
    match s {
        [b'#', b' ', c, ..] => *c >= b'0' && *c <= b'9',
        _ => false,
    }
}

// What a marker tells of the line behind it.
fn told<'a>(text: &'a [u8], before: Origin<'a>) -> Origin<'a>
    requires { is_marker text.now ≡ true }
    ensures line { line_of result ≡ line_after text.now (line_of before.entry) }
    ensures small { result.line < 1000000000 }
{
    let file = match quoted(text) {
        Some(file) => Some(file),
        None => before.file,
    };
    Origin {
        file,
        line: counted(&text[2..]),
    }
}

impl<'a> Origin<'a> {
    /// The line behind this one.
    pub(crate) fn after(self, text: &'a [u8]) -> Origin<'a>
        requires { self.line < 2 ^ 64 - 1 }
        ensures line { line_of result ≡ line_after text.now (line_of self.entry) }
        ensures near { (result.line ≤ self.entry.line + 1) ⊎ (result.line < 1000000000) }
    {
        if is_marker(text) {
            told(text, self)
        } else {
            Origin {
                file: self.file,
                line: self.line + 1,
            }
        }
    }
}
