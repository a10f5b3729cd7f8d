ghost use Rattle.std.specs.Prelude.{◌≡◌, ℕ, ◌<◌, ◌≤◌, Bool, not, length, slice_index};
ghost use Rattle.bus_plan.specs.Lines.{is_blank, fields, is_skipped, line_fields};

use crate::error::PlanError;
use crate::lines::is_line;
use std::marker::Model;

/// The fields of a line, which spaces and tabs separate: each is cut when it is asked for, and none takes memory.
#[derive(Drop)]
pub struct Fields<'a> {
    rest: &'a [u8],
}

impl<'a> Model for Fields<'a> {
    ghost use Rattle.std.specs.Prelude.{List, ℕ};
    ghost use Rattle.bus_plan.specs.Lines.{fields};
    ghost use Rattle.bus_plan.specs.Private.FieldsLeft.{BeginsFilled};

    ghost Value = { List (List ℕ) };

    ghost view = { λ left. fields left.rest.now };

    ghost invariant = { λ left. BeginsFilled left.rest.now };
}

fn is_blank(byte: u8) -> bool
    ensures { result ≡ is_blank byte }
{
    byte == b' ' || byte == b'\t'
}

// The place of the first byte that is blank, or that isn't; the length where there is none.
fn first_place(bytes: &[u8], blank: bool) -> usize
    ensures within { result ≤ length bytes.now }
    ensures before { (k : ℕ) → k < result → is_blank (slice_index bytes.now k) ≡ not blank }
    ensures found { result < length bytes.now → is_blank (slice_index bytes.now result) ≡ blank }
{
    for (place, byte) in bytes.iter().enumerate() {
        if is_blank(*byte) == blank {
            return place;
        }
    }
    bytes.len()
}

impl<'a> Fields<'a> {
    /// The fields of this line.
    pub fn of(line: &'a [u8]) -> Self
        ensures { result ≡ fields line.now }
    {
        Self {
            rest: &line[first_place(line, false)..],
        }
    }

    /// Whether a line that has these fields left is skipped: there is none, or the first begins with `#`.
    pub fn is_skipped(&self) -> bool
        ensures { result ≡ is_skipped self.now }
    {
        match self.rest.first() {
            None => true,
            Some(byte) => *byte == b'#',
        }
    }

    /// What there is to read in a line: its fields, or nothing where it is skipped.
    pub fn read(number: usize, line: &'a [u8]) -> Result<Option<Self>, PlanError>
        ensures { result ≡ line_fields number line.now }
    {
        if !is_line(line) {
            return Err(PlanError::BadLine(number));
        }
        let fields = Self::of(line);
        if fields.is_skipped() {
            return Ok(None);
        }
        Ok(Some(fields))
    }
}

impl<'a> Iterator for Fields<'a> {
    ghost use Rattle.std.specs.Iterator.{item_count};
    ghost use Rattle.bus_plan.specs.Lines.{TakesFirst};

    type Item = &'a [u8];

    ghost next_gives = { TakesFirst };

    ghost remaining = { item_count (λ left. left) };

    fn next(&mut self) -> Option<&'a [u8]> {
        if self.rest.is_empty() {
            return None;
        }
        let (field, behind) = self.rest.split_at(first_place(self.rest, true));
        self.rest = &behind[first_place(behind, false)..];
        Some(field)
    }
}
