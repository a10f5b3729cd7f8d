//! What else is refused of a text that was refused: it is compiled again with something harmless in the place of what is refused.
ghost use Rattle.std.specs.Prelude.{◌≤◌, IfOk, vec_len};
ghost use Rattle.dtman_diagnosis.specs.Ascent.{Ascend};

use crate::mending::{Left, mend};
use crate::refused::Refused;
use crate::sites::{Scanned, scan_source};
use crate::sources::refused_span;
use dt_text::include::Span;
use dt_text::lexeme::{Binary, Kind, Language};
use std::alloc::{AllocError, Global};

/// How many faults of a text are told behind the first.
pub const MAX_FURTHER: usize = 19;

/// The longest text of which more than the first fault is told, in bytes.
const MAX_LEN: usize = 1 << 20;

/// What is refused of a text, and its bytes.
#[derive(Clone, Copy, Debug)]
pub struct Found {
    pub refused: Refused,
    pub span: Span,
}

/// A text that is compiled again and again.
#[derive(Clone, Copy)]
pub struct SourceText<'t> {
    pub language: Language,
    pub text: &'t [u8],
}

/// What compiles texts, and is told of their faults.
pub trait Recompiler {
    /// By what a text is refused with these files, if it is.
    fn refusal(&mut self, alloc: Global, text: &[u8], binaries: Vec<Binary>) -> Option<Refused>;

    /// Takes a further fault, with the text in which it is the first.
    fn take(&mut self, _alloc: Global, _draft: &[u8], _found: Found) -> Result<(), AllocError> {
        Ok(())
    }
}

/// What is refused of a text behind its first fault, in the order of the text, as far as reading can go on: no fault that stands before
/// one that is told, and none of what is meant once labels went with a fault. The files of `/incbin/` count as empty.
pub fn further_faults<C: Recompiler>(
    alloc: Global,
    source: SourceText<'_>,
    first: Found,
    compiler: &mut C,
) -> Result<Vec<Found>, AllocError>
    ensures ascend { IfOk result (λ found. Ascend first.span.start found.items) }
    ensures most { IfOk result (λ found. vec_len found ≤ MAX_FURTHER) }
{
    let mut found = Vec::new(alloc);
    if source.text.len() > MAX_LEN {
        return Ok(found);
    }
    let mut draft = Draft {
        source,
        text: Vec::from_slice(alloc, source.text)?,
        is_whole: true,
    };
    let mut last = first;
    for before in 0..MAX_FURTHER {
        let Some(next) = draft.next(alloc, compiler, last, before)? else {
            return Ok(found);
        };
        if next.span.start <= last.span.start {
            return Ok(found);
        }
        compiler.take(alloc, draft.text.as_slice(), next)?;
        found.push(next)?;
        last = next;
    }
    Ok(found)
}

/// The text without the faults that were found.
#[derive(Drop)]
struct Draft<'t> {
    source: SourceText<'t>,
    text: Vec<u8>,
    /// Whether no label went with a fault.
    is_whole: bool,
}

impl Draft<'_> {
    // Mends the last fault, and answers what is refused then.
    fn next<C: Recompiler>(
        &mut self,
        alloc: Global,
        compiler: &mut C,
        last: Found,
        before: usize,
    ) -> Result<Option<Found>, AllocError> {
        let language = self.source.language;
        match mend(alloc, language, &mut self.text, last, before)? {
            Left::All => {}
            Left::Less => self.is_whole = false,
            Left::Nothing => return Ok(None),
        }
        let text = self.text.as_slice();
        let binaries = empty_files(alloc, language, text)?;
        let Some(refused) = compiler.refusal(alloc, text, binaries) else {
            return Ok(None);
        };
        if refused.number >= 20 && !self.is_whole {
            return Ok(None);
        }
        match refused_span(alloc, language, text, refused)? {
            Some(span) => Ok(Some(Found { refused, span })),
            None => Ok(None),
        }
    }
}

// A file without a byte for each `/incbin/`.
fn empty_files(alloc: Global, language: Language, text: &[u8]) -> Result<Vec<Binary>, AllocError> {
    let Scanned { lexemes, .. } = scan_source(alloc, language, text)?;
    let mut files = Vec::new(alloc);
    for lexeme in &lexemes {
        if lexeme.kind == Kind::IncludeBinary {
            files.push(Binary {
                at: lexeme.start,
                bytes: Vec::new(alloc),
            })?;
        }
    }
    Ok(files)
}
