//! The words that name a file, as they stand in a text: `/include/ "FILE"`, `/incbin/("FILE"`.
ghost use Rattle.std.specs.Prelude.{◌≡◌, ◌≢◌, ◌-◌, [], false, length, true};
ghost use Rattle.dt_text.specs.Lexeme.Bytes.{begins};
ghost use Rattle.dt_text.specs.Include.Words.{begins_include, begins_incbin, begins_line_comment, begins_remark};
ghost use Rattle.dt_text.specs.Include.Private.Included.{BinaryAt, IsNext, IsOpenEnd, IsPiece, IsStringLen, IsTold, IsWordLen, QuotedAt, SignAt, SkipsTo};

use crate::include::bytes::{Class, begins, behind, front, run_len};
use crate::include::place::Span;
use crate::lexeme::Language;
use crate::lexeme::families::solidus;
use crate::lexeme::fronts::{character_len, quoted_len};
use crate::lexeme::gaps::{begins_comment, skip_gap};

/// The name of a file that words name.
#[derive(Clone, Copy)]
pub(crate) enum Inclusion<'t> {
    /// A text that is taken in for them.
    Source(&'t [u8]),
    /// A file of which a value has a part.
    Binary(&'t [u8]),
}

const INCLUDE: &[u8] = b"/include/";

const INCBIN: &[u8] = b"/incbin/";

/// Where words stand in a text.
#[derive(Clone, Copy)]
pub(crate) struct Stand<'t> {
    /// The text from them on.
    pub from: &'t [u8],
    /// What stands behind them.
    pub rest: &'t [u8],
}

/// The bytes of a text that words are, which stand in it.
pub(crate) fn span_of(text: &[u8], stand: Stand<'_>) -> Span
    ensures start { result.start ≡ length text.now - length stand.entry.from.now }
    ensures end { result.end ≡ length text.now - length stand.entry.rest.now }
{
    Span {
        start: text.len().saturating_sub(stand.from.len()),
        end: text.len().saturating_sub(stand.rest.len()),
    }
}

/// What is next in a text.
#[derive(Clone, Copy)]
pub(crate) enum Next<'t> {
    /// Words, and where they stand.
    Words(Inclusion<'t>, Stand<'t>),
    /// `/include/` without a name: what stands where that should, or the keyword at the text's end. Or what a nested file leaves open.
    Broken(Stand<'t>),
    Nothing,
}

/// The next words that name a file. In strings and comments there are none; where a file is nested in another, none is open at its end.
pub(crate) fn next_inclusion<'t>(s: &'t [u8], nested: bool) -> Next<'t>
    ensures { IsNext nested s.now result }
{
    let mut left = s;
    'pieces: loop {
        if left.is_empty() {
            return Next::Nothing;
        }
        match piece_at(left) {
            Piece::Words(inclusion, stand) => return Next::Words(inclusion, stand),
            Piece::Broken(stand) => return Next::Broken(stand),
            Piece::Passed(rest) => left = rest,
            Piece::Open(stand) => return open_end(nested, stand),
        }
    }
}

/// What is next where a string or a comment is open to the end of the text.
fn open_end<'t>(nested: bool, stand: Stand<'t>) -> Next<'t>
    ensures { IsOpenEnd nested result }
{
    if nested {
        Next::Broken(stand)
    } else {
        Next::Nothing
    }
}

/// What a text begins with.
#[derive(Clone, Copy)]
enum Piece<'t> {
    Words(Inclusion<'t>, Stand<'t>),
    Broken(Stand<'t>),
    /// Bytes that name no file, and what stands behind them.
    Passed(&'t [u8]),
    /// A string or a comment that doesn't end, and where it begins.
    Open(Stand<'t>),
}

fn piece_at<'t>(s: &'t [u8]) -> Piece<'t>
    requires { s.now ≢ [] }
    ensures { IsPiece s.now result }
{
    if begins(s, b'"') {
        return string_at(s);
    }
    if begins(s, b'\'') {
        return character_at(s);
    }
    if begins(s, b'/') {
        return slash_at(s);
    }
    Piece::Passed(behind(s, run_len(Class::Plain, s)))
}

fn string_at<'t>(s: &'t [u8]) -> Piece<'t>
    requires { begins 34 s.now ≡ true }
    ensures { IsPiece s.now result }
{
    match quoted_len(b'"', true, s) {
        Some(len) => Piece::Passed(behind(s, len)),
        None => Piece::Open(opening(s, 1)),
    }
}

/// The bytes that open what a text begins with.
fn opening<'t>(s: &'t [u8], len: usize) -> Stand<'t> {
    Stand {
        from: s,
        rest: behind(s, len),
    }
}

/// A character literal.
fn character_at<'t>(s: &'t [u8]) -> Piece<'t>
    requires { begins 39 s.now ≡ true }
    ensures { IsPiece s.now result }
{
    match character_len(behind(s, 1)) {
        Some(len) => Piece::Passed(behind(s, len + 1)),
        None => Piece::Open(opening(s, 1)),
    }
}

/// What begins with a slash.
fn slash_at<'t>(s: &'t [u8]) -> Piece<'t>
    requires { begins 47 s.now ≡ true }
    ensures { IsPiece s.now result }
{
    if !begins_remark(s) {
        return words_at(s);
    }
    match skip_gap(Language::Dtc, s) {
        Ok(rest) => Piece::Passed(rest),
        Err(comment) => Piece::Open(opening(comment, 2)),
    }
}

/// Whether a comment begins here.
fn begins_remark(s: &[u8]) -> bool
    ensures { result ≡ begins_remark s.now }
{
    begins_comment(s) || begins_line_comment(s)
}

fn begins_line_comment(s: &[u8]) -> bool
    ensures { result ≡ begins_line_comment s.now }
{
    match s {
        [c, d, ..] => *c == b'/' && *d == b'/',
        _ => false,
    }
}

/// Words that name a file, where their keyword stands; another keyword is passed whole, as a comment may stand right behind it.
fn words_at<'t>(s: &'t [u8]) -> Piece<'t>
    requires slash { begins 47 s.now ≡ true }
    requires remark { begins_remark s.now ≡ false }
    ensures { IsPiece s.now result }
{
    if begins_include(s) {
        return include_at(s);
    }
    if begins_incbin(s) {
        return incbin_at(s);
    }
    let (_, len) = solidus(Language::Dtc, behind(s, 1));
    Piece::Passed(behind(s, len + 1))
}

fn begins_include(s: &[u8]) -> bool
    ensures { result ≡ begins_include s.now }
{
    front(s, INCLUDE.len()) == INCLUDE
}

fn begins_incbin(s: &[u8]) -> bool
    ensures { result ≡ begins_incbin s.now }
{
    front(s, INCBIN.len()) == INCBIN
}

/// `/include/ "FILE"`
fn include_at<'t>(s: &'t [u8]) -> Piece<'t>
    requires { begins_include s.now ≡ true }
    ensures { IsPiece s.now result }
{
    let mut words = Words {
        left: behind(s, INCLUDE.len()),
    };
    let Some(name) = words.quoted() else {
        return Piece::Broken(broken(s, INCLUDE, words.left));
    };
    let rest = words.left;
    Piece::Words(Inclusion::Source(name), Stand { from: s, rest })
}

/// `/incbin/("FILE"`. Where no name stands it is left to those who read the value.
fn incbin_at<'t>(s: &'t [u8]) -> Piece<'t>
    requires { begins_incbin s.now ≡ true }
    ensures { IsPiece s.now result }
{
    let mut words = Words {
        left: behind(s, INCBIN.len()),
    };
    let Some(name) = bracketed(&mut words) else {
        return Piece::Passed(behind(s, INCBIN.len()));
    };
    let rest = words.left;
    Piece::Words(Inclusion::Binary(name), Stand { from: s, rest })
}

/// What `/include/` breaks off at: what is left behind the keyword, or else the keyword.
fn broken<'t>(s: &'t [u8], keyword: &[u8], left: &'t [u8]) -> Stand<'t>
    ensures { IsTold s.now keyword.now left.now result }
{
    if left.is_empty() {
        return Stand {
            from: s,
            rest: behind(s, keyword.len()),
        };
    }
    Stand {
        from: left,
        rest: behind(left, word_len(left)),
    }
}

/// How long the word is that begins a text: a whole string, a run of letters and digits, or one sign.
fn word_len(s: &[u8]) -> usize
    ensures { IsWordLen s.now result }
{
    match string_len(s) {
        Some(len) => len,
        None => run_len(Class::Word, s).max(1),
    }
}

/// How long the string is that begins a text.
fn string_len(s: &[u8]) -> Option<usize>
    ensures { IsStringLen s.now result }
{
    if !begins(s, b'"') {
        return None;
    }
    quoted_len(b'"', true, s)
}

/// `("FILE"`
fn bracketed<'t>(words: &mut Words<'t>) -> Option<&'t [u8]>
    ensures { BinaryAt words.old.left.now result words.new.left.now }
{
    words.sign(b'(')?;
    words.quoted()
}

/// What is left behind a keyword. Where a word is missing, what stands in its place stays.
#[derive(Drop)]
struct Words<'t> {
    left: &'t [u8],
}

impl<'t> Words<'t> {
    /// Skips the gap, and tells whether it ends.
    fn skip_gap(&mut self) -> bool
        ensures { SkipsTo self.old.left.now result self.new.left.now }
    {
        match skip_gap(Language::Dtc, self.left) {
            Ok(rest) => {
                self.left = rest;
                true
            }
            Err(rest) => {
                self.left = rest;
                false
            }
        }
    }

    fn sign(&mut self, c: u8) -> Option<()>
        ensures { SignAt c self.old.left.now result self.new.left.now }
    {
        if !self.skip_gap() {
            return None;
        }
        if !begins(self.left, c) {
            return None;
        }
        self.left = behind(self.left, 1);
        Some(())
    }

    /// What stands between quotes.
    fn quoted(&mut self) -> Option<&'t [u8]>
        ensures { QuotedAt self.old.left.now result self.new.left.now }
    {
        if !self.skip_gap() {
            return None;
        }
        if !begins(self.left, b'"') {
            return None;
        }
        match quoted_len(b'"', true, self.left) {
            None => None,
            Some(len) => {
                let name = behind(front(self.left, len.saturating_sub(1)), 1);
                self.left = behind(self.left, len);
                Some(name)
            }
        }
    }
}
