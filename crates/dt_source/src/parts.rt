//! The parts of a value while it is read.
ghost use Rattle.std.specs.Prelude.{◌≡◌, [], map, IfOk, OnOk};
ghost use Rattle.dt_source.specs.TreeMeaning.Syntax.{Plain};
ghost use Rattle.dt_source.specs.Tree.{part_view};
ghost use Rattle.dt_text.specs.Expression.Element.{bytes_in, low_bytes};
ghost use Rattle.dt_source.specs.Reading.Values.{built, flushed, closed_by, put};

use crate::room::push_sparingly;
use crate::tree::Part;
use dt_text::expression::{Width, push_low_bytes};
use std::alloc::{AllocError, Global};
use std::mem;

/// The parts that are closed, and the bytes behind them, which neighbouring bytes join.
#[derive(Drop)]
pub struct Parts<'a> {
    closed: Vec<Part<'a>>,
    bytes: Vec<u8>,
}

impl<'a> Parts<'a> {
    pub(crate) fn new(alloc: Global) -> Parts<'a>
        ensures { built result ≡ record { closed = []; bytes = [] } }
    {
        Parts {
            closed: Vec::new(alloc),
            bytes: Vec::new(alloc),
        }
    }

    pub(crate) fn push_bytes(&mut self, bytes: &[u8]) -> Result<(), AllocError>
        ensures { OnOk result (built self.new ≡ put (built self.old) (Plain bytes.now)) }
    {
        self.bytes.extend_from_slice(bytes)
    }

    /// Puts bytes behind the others, and copies none where none stand before them.
    pub(crate) fn push_whole(&mut self, bytes: Vec<u8>) -> Result<(), AllocError>
        ensures { OnOk result (built self.new ≡ put (built self.old) (Plain bytes.items)) }
    {
        if self.bytes.is_empty() {
            self.bytes = bytes;
            return Ok(());
        }
        self.bytes.extend_from_slice(bytes.as_slice())
    }

    pub(crate) fn push_number(&mut self, width: Width, number: u64) -> Result<(), AllocError>
        ensures { OnOk result (built self.new ≡ put (built self.old) (Plain (low_bytes (bytes_in width) number))) }
    {
        push_low_bytes(&mut self.bytes, width, number)
    }

    // Closes the bytes, where there are any.
    fn close(&mut self, alloc: Global) -> Result<(), AllocError>
        ensures { OnOk result (built self.new ≡ record { closed = flushed (built self.old); bytes = [] }) }
    {
        if self.bytes.is_empty() {
            return Ok(());
        }
        let mut bytes = mem::replace(&mut self.bytes, Vec::new(alloc));
        bytes.shrink_to_fit();
        push_sparingly(&mut self.closed, Part::Bytes(bytes))
    }

    /// Puts a part that isn't bytes behind the others.
    pub(crate) fn push_part(&mut self, alloc: Global, part: Part<'a>) -> Result<(), AllocError>
        ensures { OnOk result (built self.new ≡ closed_by (built self.old) (part_view part.entry)) }
    {
        self.close(alloc)?;
        push_sparingly(&mut self.closed, part)
    }

    pub(crate) fn finish(mut self, alloc: Global) -> Result<Vec<Part<'a>>, AllocError>
        ensures { IfOk result (λ v. map part_view v.items ≡ flushed (built self.entry)) }
    {
        self.close(alloc)?;
        self.closed.shrink_to_fit();
        Ok(self.closed)
    }
}
