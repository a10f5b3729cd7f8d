//! What a source takes in from other files, by `/include/ "FILE"`, and the files that its `/incbin/`s name.
ghost use Rattle.std.specs.Prelude.{◌≡◌, ◌+◌, ◌≤◌, ◌↔◌, ◌++◌, ℕ, List, IfErr, IfOk, [], ◌∷◌, OnOk, length, vec_len};
ghost use Rattle.dt_text.specs.Lexeme.Limits.{text_limit};
ghost use Rattle.dt_text.specs.Include.Inclusion.{IsIncluded, MayNest};
ghost use Rattle.dt_text.specs.Include.Private.Included.{Adds, Exceeds, Goes, IsKept, IsMissing, IsPassed, IsStuck, IsTaken, IsTurned, Moves, Nests, StopsIn, first_put, stay};
ghost use Rattle.dt_text.specs.Include.Shortfall.{IsTooLong, Stops};
ghost use Rattle.dt_text.specs.Include.Words.{name_of};

use crate::expression::unescaped;
use crate::include::bytes::{behind, front};
use crate::include::place::Span;
use crate::include::places::Line;
use crate::include::site::{Shortfall, Site};
use crate::include::words::{Inclusion, Next, next_inclusion, span_of};
use crate::lexeme::{Binary, Language};
use std::alloc::{AllocError, AllocFailed, Global};

/// How deep files may take in files.
pub const MAX_INCLUDES: usize = 200;

/// The most bytes that a text may come to. The files that it names are no part of it.
const MAX_TEXT: usize = 1 << 24;

/// A file that was found, and where.
#[derive(Drop)]
pub struct Found {
    pub path: Vec<u8>,
    pub bytes: Vec<u8>,
}

/// Files by the names that sources give them.
pub trait Files {
    ghost use Rattle.dt_text.specs.declared.include.inclusion.Found.{Found};
    ghost use Rattle.dt_text.specs.Include.Searching.{IsSought};

    // that a file has a name beside a path, and that none has; each kind of files says what that means
    ghost finds: { List ℕ → List ℕ → Found → Type 0 };

    ghost lacks: { List ℕ → List ℕ → Type 0 };

    /// The file of a name, beside the file that names it or on the search path; none where there is none.
    fn find(
        &mut self,
        alloc: Global,
        beside: &[u8],
        name: &[u8],
    ) -> Result<Option<Found>, AllocError>
        ensures { IfOk result (IsSought finds lacks beside.now name.now) };
}

/// Why a text isn't whole.
#[derive(Drop)]
pub enum Incomplete {
    NoMemory,
    /// No file of this name.
    NoFile(Vec<u8>),
    /// Files within files, deeper than 200.
    TooDeep,
    /// More than 16,777,216 bytes.
    TooLong,
    /// No file's name stands behind `/include/`, or a file that is taken in leaves a string, a character literal or a comment open.
    Syntax,
}

impl From<AllocError> for Incomplete {
    ghost use Rattle.std.specs.Prelude.{◌≡◌};
    ghost use Rattle.dt_text.specs.declared.include.inclusion.Incomplete.TheVariants.{NoMemory};

    ghost from_gives = { λ _ e. e ≡ NoMemory };

    fn from(_error: AllocError) -> Self {
        Incomplete::NoMemory
    }
}

impl<T: Drop> From<AllocFailed<T>> for Incomplete {
    ghost use Rattle.std.specs.Prelude.{◌≡◌};
    ghost use Rattle.dt_text.specs.declared.include.inclusion.Incomplete.TheVariants.{NoMemory};

    ghost from_gives = { λ _ e. e ≡ NoMemory };

    fn from(_error: AllocFailed<T>) -> Self {
        Incomplete::NoMemory
    }
}

/// A text with all that it takes in, with line markers where files change, and the files of its `/incbin/`s, in their order.
#[derive(Drop)]
pub struct Whole {
    pub text: Vec<u8>,
    pub binaries: Vec<Binary>,
}

/// A file that is open: whether another took it in, its bytes, those of the last words of it that were read, whether these stay in
/// the text, and the line of the user's file in which they begin.
#[derive(Drop)]
struct Frame {
    path: Vec<u8>,
    nested: bool,
    bytes: Vec<u8>,
    words: Span,
    stays: bool,
    line: Line,
}

/// Before the first words.
const NO_WORDS: Span = Span { start: 0, end: 0 };

/// The text of a file of this path with all that it takes in, and the files that its `/incbin/`s name.
///
/// Files are found beside the one that names them, as `files` has them; 200 may nest, and the text may come to 16,777,216 bytes
/// (dtc's manual, section 4.1). A file that an `/incbin/` names is no part of the text. An `/incbin/` without a name is left to those
/// who read the value.
pub fn included<F: Files>(
    alloc: Global,
    files: &mut F,
    path: &[u8],
    text: &[u8],
) -> Result<Whole, Shortfall>
    ensures whole { IfOk result (IsIncluded F.finds path.now text.now) }
    ensures short { IfOk result (λ whole. length whole.text.items ≤ text_limit) }
    ensures stops { IfErr result (λ shortfall. Stops F.finds F.lacks path.now text.now shortfall.reason) }
{
    let mut whole = Whole {
        text: Vec::new(alloc),
        binaries: Vec::new(alloc),
    };
    let mut frames = Vec::new(alloc);
    frames.push(Frame {
        path: Vec::from_slice(alloc, path)?,
        nested: false,
        bytes: Vec::from_slice(alloc, text)?,
        words: NO_WORDS,
        stays: false,
        line: Line::first(alloc, path)?,
    })?;
    // Each turn but a file's first puts words or a line marker: behind so many turns the text is too long.
    'turns: for _ in 0..=MAX_TEXT {
        let Some(mut frame) = frames.pop() else {
            return Ok(whole);
        };
        let turn = match take_turn(alloc, files, &mut frame, &mut whole) {
            Ok(turn) => turn,
            Err(reason) => return Err(stopped(alloc, frame, reason)),
        };
        if whole.text.len() > MAX_TEXT {
            return Err(too_long(alloc, frame, frames));
        }
        if let Err(reason) = go_on(alloc, &mut frames, frame, turn, &mut whole) {
            return Err(stopped_within(alloc, frames, reason));
        }
    }
    Err(stopped_within(alloc, frames, Incomplete::TooLong))
}

/// Goes on behind a turn: within the file, or in the one that is taken in.
fn go_on(
    alloc: Global,
    frames: &mut Vec<Frame>,
    frame: Frame,
    turn: Turn,
    whole: &mut Whole,
) -> Result<(), Incomplete>
    ensures goes { OnOk result (Goes frames.old.items frame turn frames.new.items) }
    ensures adds { OnOk result (Adds whole.old whole.new (first_put turn)) }
    ensures nests { OnOk result (Nests (length frames.old.items + 1) turn) }
    ensures stuck { IfErr result (λ reason. IsStuck (length frames.old.items + 1) turn reason) }
{
    match turn {
        Turn::End => Ok(()),
        Turn::Again => Ok(frames.push(frame)?),
        Turn::Into(found) => {
            frames.push(frame)?;
            let line = Line::first(alloc, found.path.as_slice())?;
            line.mark(alloc, &mut whole.text)?;
            let Found { path, bytes } = found;
            enter(
                frames,
                Frame {
                    path,
                    nested: true,
                    bytes,
                    words: NO_WORDS,
                    stays: false,
                    line,
                },
            )
        }
    }
}

/// A text stops short at the last words of a file.
fn stopped(alloc: Global, frame: Frame, reason: Incomplete) -> Shortfall
    ensures { IsKept reason result.reason }
{
    match Site::new(alloc, &frame.line, frame.bytes.as_slice(), frame.words) {
        Ok(site) => Shortfall {
            reason,
            site: Some(site),
        },
        Err(_) => Shortfall {
            reason: Incomplete::NoMemory,
            site: None,
        },
    }
}

/// A text stops short at the last words of the innermost file that is open.
fn stopped_within(alloc: Global, frames: Vec<Frame>, reason: Incomplete) -> Shortfall
    ensures { IsKept reason result.reason }
{
    let mut frames = frames;
    match frames.pop() {
        Some(frame) => stopped(alloc, frame, reason),
        None => Shortfall { reason, site: None },
    }
}

/// A text gets too long in a file: at its last words, or else at those that took it in.
fn too_long(alloc: Global, frame: Frame, outer: Vec<Frame>) -> Shortfall
    ensures { IsKept Incomplete.TooLong result.reason }
{
    if frame.words.end > 0 {
        return stopped(alloc, frame, Incomplete::TooLong);
    }
    stopped_within(alloc, outer, Incomplete::TooLong)
}

/// Opens a file within those that are open.
fn enter(frames: &mut Vec<Frame>, frame: Frame) -> Result<(), Incomplete>
    ensures ok { OnOk result (frames.new.items ≡ frames.old.items ++ frame ∷ []) }
    ensures nested { OnOk result (MayNest (vec_len frames.old)) }
    ensures deep { (result ≡ Err Incomplete.TooDeep) ↔ ¬ MayNest (vec_len frames.old) }
    ensures exceeds { IfErr result (λ reason. Exceeds (vec_len frames.old) reason) }
{
    if frames.len() > MAX_INCLUDES {
        return Err(Incomplete::TooDeep);
    }
    match frames.push(frame) {
        Ok(()) => Ok(()),
        Err(_) => Err(Incomplete::NoMemory),
    }
}

/// What one turn comes to.
#[derive(Drop)]
enum Turn {
    /// The file is at its end.
    End,
    Again,
    Into(Found),
}

/// Puts the text up to the next words, and finds the file that they name.
fn take_turn<F: Files>(
    alloc: Global,
    files: &mut F,
    frame: &mut Frame,
    whole: &mut Whole,
) -> Result<Turn, Incomplete>
    ensures turned { IfOk result (λ turn. IsTurned F.finds frame.old whole.old frame.new whole.new turn) }
    ensures moves { IfOk result (λ turn. Moves F.finds frame.old frame.new turn) }
    ensures stops { IfErr result (λ reason. StopsIn F.finds F.lacks frame.old whole.old.text.items reason) }
{
    pass_words(alloc, frame, whole)?;
    let left = behind(frame.bytes.as_slice(), frame.words.end);
    match next_inclusion(left, frame.nested) {
        Next::Words(inclusion, stand) => {
            let before = front(left, left.len().saturating_sub(stand.from.len()));
            whole.text.extend_from_slice(before)?;
            let words = span_of(frame.bytes.as_slice(), stand);
            frame.line.advance(before)?;
            frame.words = words;
            frame.stays = stay(inclusion);
            if whole.text.len() > MAX_TEXT {
                return Err(Incomplete::TooLong);
            }
            take_in(alloc, files, frame.path.as_slice(), inclusion, whole)
        }
        Next::Broken(stand) => {
            let before = front(left, left.len().saturating_sub(stand.from.len()));
            let words = span_of(frame.bytes.as_slice(), stand);
            frame.line.advance(before)?;
            frame.words = words;
            Err(Incomplete::Syntax)
        }
        Next::Nothing => {
            whole.text.extend_from_slice(left)?;
            Ok(Turn::End)
        }
    }
}

/// Passes the words that were read last: they stay, or a line marker of the place behind them stands for them.
fn pass_words(alloc: Global, frame: &mut Frame, whole: &mut Whole) -> Result<(), AllocError>
    ensures { OnOk result (IsPassed frame.old frame.new whole.old whole.new) }
{
    if frame.words.end == 0 {
        return Ok(());
    }
    let words = behind(
        front(frame.bytes.as_slice(), frame.words.end),
        frame.words.start,
    );
    frame.line.advance(words)?;
    if frame.stays {
        return whole.text.extend_from_slice(words);
    }
    frame.line.mark(alloc, &mut whole.text)
}

/// Whether words stay in the text.
fn stay(inclusion: Inclusion<'_>) -> bool
    ensures { result ≡ stay inclusion.entry }
{
    match inclusion {
        Inclusion::Source(_) => false,
        Inclusion::Binary(_) => true,
    }
}

/// Finds the file that words name, and keeps it where it is binary.
fn take_in<F: Files>(
    alloc: Global,
    files: &mut F,
    beside: &[u8],
    inclusion: Inclusion<'_>,
    whole: &mut Whole,
) -> Result<Turn, Incomplete>
    requires { length whole.old.text.items ≤ text_limit }
    ensures taken { IfOk result (λ turn. IsTaken F.finds beside.now inclusion.entry whole.old whole.new turn) }
    ensures missing { IfErr result (λ reason. IsMissing F.lacks beside.now (name_of inclusion.entry) reason) }
{
    match inclusion {
        Inclusion::Source(name) => Ok(Turn::Into(find(alloc, files, beside, name)?)),
        Inclusion::Binary(name) => {
            let name = unescaped(alloc, Language::Dtc, name)?;
            let Found { path: _, bytes } = find(alloc, files, beside, name.as_slice())?;
            let at = whole.text.len() as u32;
            whole.binaries.push(Binary { at, bytes })?;
            Ok(Turn::Again)
        }
    }
}

/// The file that words name.
fn find<F: Files>(
    alloc: Global,
    files: &mut F,
    beside: &[u8],
    name: &[u8],
) -> Result<Found, Incomplete>
    ensures found { IfOk result (λ found. F.finds beside.now name.now found) }
    ensures missing { IfErr result (λ reason. IsMissing F.lacks beside.now name.now reason) }
{
    match files.find(alloc, beside, name)? {
        Some(found) => Ok(found),
        None => Err(Incomplete::NoFile(Vec::from_slice(alloc, name)?)),
    }
}
