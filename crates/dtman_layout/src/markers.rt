//! What a source says of how the value of a property is written: the kinds of its parts, and labels, by their places in the bytes.
//!
//! The Devicetree Specification v0.4, section 6.4, says what a value is written as; which places dtc keeps was tried by hand.
ghost use Rattle.std.specs.Prelude.{◌<◌};

use dt_text::expression::escape;
use dt_text::lexeme::{Kind, Language, Lexeme};
use std::alloc::{AllocError, Global};

/// How the bytes that follow are written.
#[derive(Clone, Copy, Debug, PartialEq, Eq)]
pub(crate) enum Written {
    Text,
    Bytes,
    Halves,
    Cells,
    Doubles,
}

impl Written {
    /// The bytes of one element.
    pub(crate) fn width(self) -> usize
        ensures { 0 < result }
    {
        match self {
            Written::Text | Written::Bytes => 1,
            Written::Halves => 2,
            Written::Cells => 4,
            Written::Doubles => 8,
        }
    }
}

/// What stands at a place of a value.
#[derive(Clone, Copy, Debug, PartialEq, Eq)]
pub(crate) enum Mark<'t> {
    /// A part begins.
    Part(Written),
    Label(&'t [u8]),
    /// What a reference or a file gave.
    Given,
}

impl Mark<'_> {
    pub(crate) fn is_part(self) -> bool {
        matches!(self, Mark::Part(_))
    }
}

/// A mark with its place.
#[derive(Clone, Copy, Debug)]
pub(crate) struct Marker<'t> {
    pub(crate) at: usize,
    pub(crate) mark: Mark<'t>,
}

/// Between which brackets the words stand that are read.
#[derive(Clone, Copy, Debug, PartialEq, Eq)]
enum Inside {
    Nothing,
    /// Behind `/bits/`.
    Bits,
    /// Behind `/incbin/`.
    File,
    Cells,
    Bytes,
}

/// A value as far as it was read.
#[derive(Drop)]
struct Reading<'t, 'v> {
    text: &'t [u8],
    value: &'v [u8],
    markers: Vec<Marker<'t>>,
    at: usize,
    inside: Inside,
    cells: Written,
    parentheses: usize,
}

// The bytes of a text with its zero byte, of its lexeme.
fn text_length(lexeme: &[u8]) -> usize {
    let mut left = lexeme;
    let mut length: usize = 0;
    for _ in 0..lexeme.len() {
        let step = match left {
            [b'\\', escaped @ ..] => {
                let (_, bytes) = escape(Language::Dtc, escaped);
                bytes.saturating_add(1)
            }
            [_, ..] => 1,
            [] => return length.saturating_sub(1),
        };
        left = left.get(step..).unwrap_or(b"");
        length = length.saturating_add(1);
    }
    // without the two quotes, with the zero byte
    length.saturating_sub(1)
}

fn written_of(bits: &[u8]) -> Written {
    match bits {
        b"8" => Written::Bytes,
        b"16" => Written::Halves,
        b"64" => Written::Doubles,
        _ => Written::Cells,
    }
}

impl<'t> Reading<'t, '_> {
    fn put(&mut self, mark: Mark<'t>) -> Result<(), AllocError> {
        self.markers.push(Marker { at: self.at, mark })?;
        Ok(())
    }

    fn pass(&mut self, bytes: usize) {
        self.at = self.at.saturating_add(bytes);
    }

    fn words(&self, lexeme: Lexeme) -> &'t [u8] {
        let text = self.text;
        text.get(lexeme.start as usize..lexeme.end as usize)
            .unwrap_or(b"")
    }

    fn put_label(&mut self, lexeme: Lexeme) -> Result<(), AllocError> {
        let words = self.words(lexeme);
        self.put(Mark::Label(words.strip_suffix(b":").unwrap_or(words)))
    }

    // The path that a reference became, with its zero byte.
    fn put_path(&mut self) -> Result<(), AllocError> {
        self.put(Mark::Part(Written::Text))?;
        self.put(Mark::Given)?;
        let rest = self.value.get(self.at..).unwrap_or(b"");
        let length = rest.iter().position(|byte| *byte == 0);
        self.pass(length.unwrap_or(rest.len()).saturating_add(1));
        Ok(())
    }

    fn begin(&mut self, written: Written, inside: Inside) -> Result<(), AllocError> {
        self.inside = inside;
        self.put(Mark::Part(written))
    }

    // Outside of brackets.
    fn step_outside(&mut self, lexeme: Lexeme) -> Result<(), AllocError> {
        match lexeme.kind {
            Kind::Label => self.put_label(lexeme),
            Kind::Text => {
                self.put(Mark::Part(Written::Text))?;
                self.pass(text_length(self.words(lexeme)));
                Ok(())
            }
            Kind::Reference | Kind::PathReference => self.put_path(),
            Kind::Less => self.begin(self.cells, Inside::Cells),
            Kind::Square => self.begin(Written::Bytes, Inside::Bytes),
            Kind::Bits => {
                self.inside = Inside::Bits;
                Ok(())
            }
            Kind::IncludeBinary => {
                self.inside = Inside::File;
                self.put(Mark::Given)?;
                // how much of the file is taken its words alone don't say
                self.pass(self.value.len().saturating_sub(self.at));
                Ok(())
            }
            _ => Ok(()),
        }
    }

    // An expression in parentheses is one element.
    fn step_in_cells(&mut self, lexeme: Lexeme) -> Result<(), AllocError> {
        if self.parentheses > 0 {
            match lexeme.kind {
                Kind::Paren => self.parentheses = self.parentheses.saturating_add(1),
                Kind::EndParen => self.parentheses = self.parentheses.saturating_sub(1),
                _ => {}
            }
            return Ok(());
        }
        match lexeme.kind {
            Kind::Label => return self.put_label(lexeme),
            Kind::Reference | Kind::PathReference => self.put(Mark::Given)?,
            Kind::Paren => self.parentheses = 1,
            Kind::Greater => {
                self.inside = Inside::Nothing;
                self.cells = Written::Cells;
                return Ok(());
            }
            _ => {}
        }
        self.pass(self.cells.width());
        Ok(())
    }

    fn step_in_bytes(&mut self, lexeme: Lexeme) -> Result<(), AllocError> {
        match lexeme.kind {
            Kind::Label => return self.put_label(lexeme),
            Kind::Pair => self.pass(1),
            Kind::EndSquare => self.inside = Inside::Nothing,
            _ => {}
        }
        Ok(())
    }

    fn step(&mut self, lexeme: Lexeme) -> Result<(), AllocError> {
        match self.inside {
            Inside::Nothing => self.step_outside(lexeme),
            Inside::Cells => self.step_in_cells(lexeme),
            Inside::Bytes => self.step_in_bytes(lexeme),
            Inside::Bits => {
                self.cells = written_of(self.words(lexeme));
                self.inside = Inside::Nothing;
                Ok(())
            }
            Inside::File => {
                if lexeme.kind == Kind::EndParen {
                    self.inside = Inside::Nothing;
                }
                Ok(())
            }
        }
    }
}

/// The marks of a property's value, by the lexemes from its name on. None where they tell of another length.
pub(crate) fn markers_of<'t>(
    alloc: Global,
    text: &'t [u8],
    lexemes: &[Lexeme],
    value: &[u8],
) -> Result<Option<Vec<Marker<'t>>>, AllocError> {
    let mut reading = Reading {
        text,
        value,
        markers: Vec::new(alloc),
        at: 0,
        inside: Inside::Nothing,
        cells: Written::Cells,
        parentheses: 0,
    };
    for lexeme in lexemes {
        if lexeme.kind == Kind::Semicolon {
            break;
        }
        reading.step(*lexeme)?;
    }
    let Reading { markers, at, .. } = reading;
    if at == value.len() {
        return Ok(Some(markers));
    }
    Ok(None)
}
