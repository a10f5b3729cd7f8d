//! What else is refused of a source, behind its first fault.

use crate::detail::{Detail, told};
use crate::diagnosing::{Given, Inputs};
use crate::failure::Failure;
use crate::user_places::in_user_file;
use dt_source::place_at;
use dt_text::include::Binary;
use dt_text::lexeme::Language;
use dtman_diagnosis::{
    Diagnosis, Found, Recompiler, Refused, SourceText, diagnose_draft, diagnose_dtc,
    further_faults, refused_span, text_of,
};
use dtman_engine::{DtcOptions, Fault, Position, compile_bytes, compile_dtc, explain};
use std::alloc::{AllocError, Global};
use std::hash::RandomState;

/// Compiles texts again for their further faults.
#[derive(Clone, Copy)]
pub struct Again {
    pub hasher: RandomState,
    pub language: Language,
    /// Whether the paths of labelled nodes are added.
    pub symbols: bool,
}

fn refused_by(fault: &Fault) -> Refused {
    Refused {
        number: fault.number,
        offset: fault.offset(),
    }
}

impl Recompiler for Again {
    fn refusal(&mut self, alloc: Global, text: &[u8], binaries: Vec<Binary>) -> Option<Refused> {
        let symbols = self.symbols;
        let options = DtcOptions {
            symbols,
            boot_processor: None,
        };
        match self.language {
            Language::Profile => match compile_bytes(alloc, self.hasher, text, symbols) {
                Ok(_) => None,
                Err(fault) => Some(refused_by(&fault)),
            },
            Language::Dtc => match compile_dtc(alloc, self.hasher, text, binaries, options) {
                Ok(_) => None,
                Err(fault) => Some(refused_by(&fault)),
            },
        }
    }
}

/// What is refused of a source, and what is told of it.
#[derive(Drop)]
pub struct Explained {
    pub found: Found,
    pub diagnosis: Diagnosis,
}

/// The faults of a source so far.
#[derive(Drop)]
struct Gathering<'s> {
    again: Again,
    source: Given<'s>,
    faults: Vec<Explained>,
}

impl Recompiler for Gathering<'_> {
    fn refusal(&mut self, alloc: Global, text: &[u8], binaries: Vec<Binary>) -> Option<Refused> {
        self.again.refusal(alloc, text, binaries)
    }

    fn take(&mut self, alloc: Global, draft: &[u8], found: Found) -> Result<(), AllocError> {
        let Given { name, bytes } = self.source;
        let source = SourceText {
            language: self.again.language,
            text: bytes,
        };
        let diagnosis = diagnose_draft(alloc, name, source, draft, found.refused)?;
        self.faults.push(Explained { found, diagnosis })?;
        Ok(())
    }
}

/// All that is refused of a source of which this fault is the first, in the order of the text; nothing where the bytes of that one aren't known.
pub fn faults_of(
    alloc: Global,
    again: Again,
    source: Given<'_>,
    fault: &Fault,
) -> Result<Vec<Explained>, AllocError> {
    let mut gathering = Gathering {
        again,
        source,
        faults: Vec::new(alloc),
    };
    let text = SourceText {
        language: again.language,
        text: source.bytes,
    };
    let refused = refused_by(fault);
    if let Some(span) = refused_span(alloc, again.language, source.bytes, refused)? {
        let first = Found { refused, span };
        gathering.take(alloc, source.bytes, first)?;
        // Where there is no memory to find the others, the first stands alone.
        let _ = further_faults(alloc, text, first, &mut gathering);
    }
    let Gathering { faults, .. } = gathering;
    Ok(faults)
}

/// What is told of a source in dtc's language that is refused so.
pub fn source_diagnosed(
    alloc: Global,
    source: Given<'_>,
    fault: &Fault,
) -> Result<Diagnosis, AllocError> {
    diagnose_dtc(alloc, source.name, source.bytes, refused_by(fault))
}

/// The name of a refusal.
pub fn name_of(number: u8) -> &'static str {
    match explain(number) {
        Some(explanation) => explanation.name,
        None => "",
    }
}

/// The lines of the further faults of a source.
#[derive(Drop)]
struct Telling<'s> {
    again: Again,
    source: Given<'s>,
    lines: String,
}

impl Recompiler for Telling<'_> {
    fn refusal(&mut self, alloc: Global, text: &[u8], binaries: Vec<Binary>) -> Option<Refused> {
        self.again.refusal(alloc, text, binaries)
    }

    // Each has an empty line before its own.
    fn take(&mut self, alloc: Global, draft: &[u8], found: Found) -> Result<(), AllocError> {
        let Given { name, .. } = self.source;
        let diagnosis = diagnose_draft(alloc, name, self.text(), draft, found.refused)?;
        let fault = self.fault(found);
        let first = format!(in alloc; "\n{fault}")?;
        let lines = text_of(alloc, first.as_str(), &diagnosis)?;
        self.lines.push_str(lines.as_str())
    }
}

impl<'s> Telling<'s> {
    fn text(&self) -> SourceText<'s> {
        SourceText {
            language: self.again.language,
            text: self.source.bytes,
        }
    }

    fn fault(&self, found: Found) -> Fault {
        let Given { name, bytes } = self.source;
        let Refused { number, offset } = found.refused;
        let start = u32::try_from(found.span.start).unwrap_or(u32::MAX);
        let place = place_at(bytes, offset.unwrap_or(start));
        let fault = Fault {
            number,
            name: name_of(number),
            position: match number {
                20..=28 => Position::Within(place),
                _ => Position::At(place),
            },
            culprit: None,
        };
        match self.again.language {
            Language::Profile => fault,
            Language::Dtc => in_user_file(name, bytes, fault),
        }
    }
}

// The lines of what else is refused of a source, as far as there is memory for them.
fn lines_behind(alloc: Global, again: Again, source: Given<'_>, first: &Fault) -> String {
    let mut telling = Telling {
        again,
        source,
        lines: String::new(alloc),
    };
    let refused = refused_by(first);
    if let Ok(Some(span)) = refused_span(alloc, again.language, source.bytes, refused) {
        let text = telling.text();
        let _ = further_faults(alloc, text, Found { refused, span }, &mut telling);
    }
    let Telling { lines, .. } = telling;
    lines
}

/// A refusal of a source, as it is told: by its line, or in detail, then with what else is refused.
pub fn source_told<'a>(
    alloc: Global,
    detail: Detail,
    again: Again,
    fault: Fault,
    source: Given<'_>,
) -> Failure<'a> {
    let inputs = match again.language {
        Language::Profile => Inputs::Source(source),
        Language::Dtc => Inputs::Whole(source),
    };
    let failure = told(alloc, detail, fault, inputs);
    if detail != Detail::Verbose {
        return failure;
    }
    let further = lines_behind(alloc, again, source, &fault);
    with_lines(failure, further.as_str())
}

// A refusal with further lines behind its own.
fn with_lines<'a>(failure: Failure<'a>, further: &str) -> Failure<'a> {
    match failure {
        Failure::Told(lines) => Failure::Told(joined(lines, further)),
        failure => failure,
    }
}

// Where there is no memory for more, the first fault stands alone.
fn joined(lines: String, further: &str) -> String {
    let mut lines = lines;
    let _ = lines.push_str(further);
    lines
}
