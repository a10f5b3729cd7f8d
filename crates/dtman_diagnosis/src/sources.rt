//! Refusals of sources.

use crate::advice::{Halt, advised, begins_statement};
use crate::alike::{add_labels, nearest};
use crate::blobs::of_file_with;
use crate::bodies::fragment_names;
use crate::brackets::{innermost, misfit_in, unclosed};
use crate::diagnosis::{Diagnosis, Location, Note, Subject, copied};
use crate::further::SourceText;
use crate::hints::{hint, meant};
use crate::marks::{Mark, is_deleted, mark_met, mark_stopped, span_of};
use crate::meetings::{Meeting, Reading};
use crate::origins::Origin;
use crate::refused::{Refused, stop_at};
use dt_source::MAX_SOURCE_LEN;
use dt_text::include::Span;
use dt_text::lexeme::{Kind, Language, Lexeme, scan_front};
use dt_text::place::named;
use std::alloc::{AllocError, Global};

/// Where a lexeme stands: the path of the node, and the name of the property there, by its lexeme.
#[derive(Drop)]
struct Around {
    path: Vec<u8>,
    property: Option<usize>,
}

/// A text that was refused.
#[derive(Clone, Copy)]
struct Case<'a> {
    origin: Origin<'a>,
    number: u8,
    offset: Option<u32>,
}

/// What `compile` refuses of a source so, with its place by the line markers in it, else in the file of this name.
pub fn diagnose_source(
    alloc: Global,
    file: &[u8],
    text: &[u8],
    refused: Refused,
) -> Result<Diagnosis, AllocError> {
    let language = Language::Profile;
    let origin = Origin {
        language,
        file,
        text,
        shown: text,
    };
    case_of(origin, refused).diagnose(alloc)
}

/// The same of a source in dtc's language, with all that it takes in.
pub fn diagnose_dtc(
    alloc: Global,
    file: &[u8],
    text: &[u8],
    refused: Refused,
) -> Result<Diagnosis, AllocError> {
    let language = Language::Dtc;
    let origin = Origin {
        language,
        file,
        text,
        shown: text,
    };
    case_of(origin, refused).diagnose(alloc)
}

/// The same of a text in which something harmless stands in the place of other faults: the lines that are shown are the source's own.
pub fn diagnose_draft(
    alloc: Global,
    file: &[u8],
    source: SourceText<'_>,
    draft: &[u8],
    refused: Refused,
) -> Result<Diagnosis, AllocError> {
    let origin = Origin {
        language: source.language,
        file,
        text: draft,
        shown: source.text,
    };
    case_of(origin, refused).diagnose(alloc)
}

/// The bytes of a source in dtc's language, with all that it takes in, which are refused so; none where they aren't known.
pub fn dtc_span(alloc: Global, text: &[u8], refused: Refused) -> Result<Option<Span>, AllocError> {
    refused_span(alloc, Language::Dtc, text, refused)
}

/// The same of a source in either language.
pub fn refused_span(
    alloc: Global,
    language: Language,
    text: &[u8],
    refused: Refused,
) -> Result<Option<Span>, AllocError> {
    let origin = Origin {
        language,
        file: b"",
        text,
        shown: text,
    };
    match case_of(origin, refused).mark(alloc)? {
        Some(mark) => Ok(Some(mark.span)),
        None => Ok(None),
    }
}

fn case_of<'a>(origin: Origin<'a>, refused: Refused) -> Case<'a> {
    let Refused { number, offset } = refused;
    Case {
        origin,
        number,
        offset,
    }
}

impl<'a> Case<'a> {
    fn diagnose(&self, alloc: Global) -> Result<Diagnosis, AllocError> {
        let (text, language) = (self.origin.text, self.origin.language);
        if text.len() > MAX_SOURCE_LEN {
            return self.whole(alloc);
        }
        let (lexemes, broken) = scan_front(alloc, text, language)?;
        match self.number {
            10..=16 => self.spelling(alloc, lexemes.as_slice(), broken),
            20..=28 => self.meaning(alloc, lexemes.as_slice()),
            38 => of_file_with(alloc, self.origin.file, 38, "its blob would have more"),
            _ => self.whole(alloc),
        }
    }

    // The bytes that are refused.
    fn mark(&self, alloc: Global) -> Result<Option<Mark<'a>>, AllocError> {
        let (text, language) = (self.origin.text, self.origin.language);
        let Some(offset) = self.offset else {
            return Ok(None);
        };
        if text.len() > MAX_SOURCE_LEN {
            return Ok(None);
        }
        let (lexemes, broken) = scan_front(alloc, text, language)?;
        let lexemes = lexemes.as_slice();
        let stop = stop_at(lexemes, offset);
        match self.number {
            10..=16 => Ok(mark_stopped(self.origin, self.number, lexemes, broken, stop)),
            20..=28 => {
                let fragments = fragment_names(alloc, lexemes)?;
                let reading = self.reading(lexemes, fragments.as_slice());
                let meeting = reading.met(alloc, self.number, stop.index)?;
                Ok(mark_met(text, self.number, lexemes, meeting))
            }
            _ => Ok(None),
        }
    }

    // The file alone.
    fn whole(&self, alloc: Global) -> Result<Diagnosis, AllocError> {
        Ok(Diagnosis {
            number: self.number,
            location: self.origin.whole(alloc)?,
            kind: Subject::Nothing,
            subject: Vec::new(alloc),
            notes: Vec::new(alloc),
        })
    }

    // What is marked, or the file alone where nothing is.
    fn marked(&self, alloc: Global, mark: Option<Mark<'a>>) -> Result<Diagnosis, AllocError> {
        let Some(mark) = mark else {
            return self.whole(alloc);
        };
        Ok(Diagnosis {
            number: self.number,
            location: self.origin.location(alloc, mark.span)?,
            kind: mark.kind,
            subject: copied(alloc, mark.subject)?,
            notes: Vec::new(alloc),
        })
    }

    fn location_of(
        &self,
        alloc: Global,
        lexemes: &[Lexeme],
        index: usize,
    ) -> Result<Location, AllocError> {
        match lexemes.get(index) {
            Some(lexeme) => self.origin.location(alloc, span_of(*lexeme)),
            None => self.origin.whole(alloc),
        }
    }

    // ---- 10 to 16

    fn spelling(
        &self,
        alloc: Global,
        lexemes: &[Lexeme],
        broken: Option<u32>,
    ) -> Result<Diagnosis, AllocError> {
        let Some(offset) = self.offset else {
            return self.whole(alloc);
        };
        let stop = stop_at(lexemes, offset);
        let before = lexemes.get(..stop.index).unwrap_or(lexemes);
        let halt = Halt {
            origin: self.origin,
            lexemes,
            index: stop.index,
            start: start_of(self.origin.text, lexemes, broken, stop.index),
            bracket: kind_of(lexemes, innermost(alloc, before)?),
        };
        let refused = mark_stopped(self.origin, self.number, lexemes, broken, stop);
        let mut diagnosis = self.stopped(alloc, halt, refused)?;
        let around = self.around(alloc, lexemes, stop.index)?;
        self.add_around(alloc, &mut diagnosis, &around, lexemes)?;
        if broken.is_none() {
            self.add_unclosed(alloc, &mut diagnosis, halt)?;
        }
        if self.number == 10 {
            self.add_hints(alloc, &mut diagnosis, halt)?;
        }
        Ok(diagnosis)
    }

    // What is refused, or what is meant instead. A text without a lexeme ends.
    fn stopped(
        &self,
        alloc: Global,
        halt: Halt<'_>,
        refused: Option<Mark<'_>>,
    ) -> Result<Diagnosis, AllocError> {
        let Some(mark) = refused else {
            let mut diagnosis = self.whole(alloc)?;
            diagnosis.kind = Subject::End;
            return Ok(diagnosis);
        };
        if self.number == 10 {
            if let Some(advised) = advised(halt, mark.kind) {
                return self.marked(alloc, Some(advised));
            }
        }
        self.marked(alloc, Some(mark))
    }

    // The body or bracket that isn't closed: where the text ends, where brackets nest too deep, or where an item stands in a body.
    fn add_unclosed(
        &self,
        alloc: Global,
        diagnosis: &mut Diagnosis,
        halt: Halt<'_>,
    ) -> Result<(), AllocError> {
        let is_end = diagnosis.kind == Subject::End;
        if is_end || is_item(halt) {
            if let Some(misfit) = misfit_in(alloc, self.origin.text, halt.lexemes, halt.index)? {
                let opened = self.location_of(alloc, halt.lexemes, misfit.opened)?;
                let before = self.location_of(alloc, halt.lexemes, misfit.before)?;
                diagnosis.notes.push(Note::Indented { opened, before })?;
                return Ok(());
            }
        }
        if is_end || self.number == 16 {
            if let Some(index) = unclosed(alloc, halt.lexemes, halt.index)? {
                let location = self.location_of(alloc, halt.lexemes, index)?;
                diagnosis.notes.push(Note::Unclosed(location))?;
            }
        }
        Ok(())
    }

    // What there is to do.
    fn add_hints(
        &self,
        alloc: Global,
        diagnosis: &mut Diagnosis,
        halt: Halt<'_>,
    ) -> Result<(), AllocError> {
        if let Some(meant) = meant(alloc, halt, diagnosis.kind)? {
            diagnosis.notes.push(Note::Meant(meant))?;
            return Ok(());
        }
        if matches!(
            diagnosis.kind,
            Subject::Nothing | Subject::Punctuation | Subject::Name | Subject::Literal
        ) {
            if let Some(words) = hint(halt) {
                diagnosis.notes.push(Note::Words(words))?;
            }
        }
        Ok(())
    }

    fn around(
        &self,
        alloc: Global,
        lexemes: &[Lexeme],
        index: usize,
    ) -> Result<Around, AllocError> {
        let fragments = fragment_names(alloc, lexemes)?;
        let bodies = self
            .reading(lexemes, fragments.as_slice())
            .before(alloc, index)?;
        Ok(Around {
            path: bodies.path()?,
            property: bodies.property,
        })
    }

    fn add_around(
        &self,
        alloc: Global,
        diagnosis: &mut Diagnosis,
        around: &Around,
        lexemes: &[Lexeme],
    ) -> Result<(), AllocError> {
        let property = match around.property {
            Some(index) => match lexemes.get(index) {
                Some(lexeme) => Some(copied(alloc, named(self.origin.text, *lexeme))?),
                None => None,
            },
            None => None,
        };
        diagnosis.notes.push(Note::In {
            path: copied(alloc, around.path.as_slice())?,
            property,
        })?;
        Ok(())
    }

    // ---- 20 to 28

    fn meaning(&self, alloc: Global, lexemes: &[Lexeme]) -> Result<Diagnosis, AllocError> {
        let Some(index) = self.index_in(lexemes) else {
            return self.whole(alloc);
        };
        let fragments = fragment_names(alloc, lexemes)?;
        let reading = self.reading(lexemes, fragments.as_slice());
        let meeting = reading.met(alloc, self.number, index)?;
        let mark = mark_met(self.origin.text, self.number, lexemes, meeting);
        let mut diagnosis = self.marked(alloc, mark)?;
        let bodies = reading.before(alloc, meeting.lexeme)?;
        let around = Around {
            path: bodies.path()?,
            property: match self.number {
                23 | 24 | 28 if reading.is_property(index) => Some(index),
                _ => bodies.property,
            },
        };
        self.add_around(alloc, &mut diagnosis, &around, lexemes)?;
        self.add_other(alloc, &mut diagnosis, lexemes, meeting)?;
        match self.number {
            20 => self.add_alike(alloc, &mut diagnosis, reading, index)?,
            25 => self.add_dtc(alloc, &mut diagnosis, reading, index)?,
            27 => {
                let words = self.kept_or_barred(lexemes, index, &around);
                diagnosis.notes.push(Note::Words(words))?;
            }
            _ => {}
        }
        Ok(diagnosis)
    }

    // The lexeme in which the fault's byte is.
    fn index_in(&self, lexemes: &[Lexeme]) -> Option<usize> {
        let index = stop_at(lexemes, self.offset?).index;
        if index < lexemes.len() {
            Some(index)
        } else {
            None
        }
    }

    fn reading<'t>(&self, lexemes: &'t [Lexeme], fragments: &'t [Vec<u8>]) -> Reading<'t>
    where
        'a: 't,
    {
        Reading {
            language: self.origin.language,
            text: self.origin.text,
            lexemes,
            fragments,
        }
    }

    // What the fault meets.
    fn add_other(
        &self,
        alloc: Global,
        diagnosis: &mut Diagnosis,
        lexemes: &[Lexeme],
        meeting: Meeting,
    ) -> Result<(), AllocError> {
        if let Some(other) = meeting.other {
            let location = self.location_of(alloc, lexemes, other)?;
            let note = match diagnosis.kind {
                Subject::Deleted => Note::Deleted(location),
                _ => Note::Earlier(location),
            };
            diagnosis.notes.push(note)?;
        }
        Ok(())
    }

    // Labels that are spelled alike: of a reference in a value any, of an item's those before it.
    fn add_alike(
        &self,
        alloc: Global,
        diagnosis: &mut Diagnosis,
        reading: Reading<'_>,
        index: usize,
    ) -> Result<(), AllocError> {
        let before = reading.before(alloc, index)?;
        let bodies = match before.property {
            Some(_) => reading.whole(alloc)?,
            None => before,
        };
        let labels = bodies.standing_labels()?;
        let names = nearest(alloc, diagnosis.subject.as_slice(), labels.as_slice())?;
        add_labels(&mut diagnosis.notes, names)
    }

    fn add_dtc(
        &self,
        alloc: Global,
        diagnosis: &mut Diagnosis,
        reading: Reading<'_>,
        index: usize,
    ) -> Result<(), AllocError> {
        if self.origin.language == Language::Profile && reading.is_dtc(alloc, index)? {
            let words = "dtc's language takes that in a body that extends a node: `--dtc` reads it";
            diagnosis.notes.push(Note::Words(words))?;
        }
        Ok(())
    }

    // Why a name or a reference can't stand where it does.
    fn kept_or_barred(&self, lexemes: &[Lexeme], index: usize, around: &Around) -> &'static str {
        match lexemes.get(index) {
            Some(lexeme) if lexeme.kind == Kind::Name => kept_for(named(self.origin.text, *lexeme)),
            _ if around.property.is_some() => {
                "the compiler writes this node, so cells can't refer to it"
            }
            _ if is_deleted(lexemes, index) => "the root can't be deleted",
            _ => "a child of the root has the name of the fragment that this makes",
        }
    }
}

/// The first byte of the lexeme at which reading stops, or of what is none.
pub(crate) fn start_of(
    text: &[u8],
    lexemes: &[Lexeme],
    broken: Option<u32>,
    index: usize,
) -> usize {
    match (lexemes.get(index), broken) {
        (Some(lexeme), _) => lexeme.start as usize,
        (None, Some(broken)) => broken as usize,
        (None, None) => text.len(),
    }
}

/// The kind of the lexeme of this index.
pub(crate) fn kind_of(lexemes: &[Lexeme], index: Option<usize>) -> Option<Kind> {
    Some(lexemes.get(index?)?.kind)
}

/// Whether an item of the text stands where a statement of a body begins.
pub(crate) fn is_item(halt: Halt<'_>) -> bool {
    match halt.lexemes.get(halt.index) {
        Some(lexeme) => {
            begins_statement(halt)
                && matches!(
                    lexeme.kind,
                    Kind::Reference | Kind::PathReference | Kind::Slash
                )
        }
        None => false,
    }
}

// What a name is kept for that a source can't use.
fn kept_for(name: &[u8]) -> &'static str {
    if name == b"__symbols__".as_slice() {
        "`--symbols` writes the paths of labels there"
    } else if name == b"__fixups__".as_slice() {
        "the labels of a plugin that its base resolves are written there"
    } else if name == b"__local_fixups__".as_slice() {
        "the places of a plugin's own phandles are written there"
    } else {
        "the compiler names the fragments of a plugin so"
    }
}
