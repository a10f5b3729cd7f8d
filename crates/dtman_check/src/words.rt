//! What a finding says, in words.
use crate::buses::{say_bridge, say_device, say_graph};
use crate::links::{say_alias, say_lists, say_nodes};
use crate::nodes::{plain_words, say_numbers};
use crate::places::Site;
use crate::table::{Finding, Reference, check_at};
use crate::writer::Writer;
use dt_check::{Message, Survey};
use std::alloc::{AllocError, Global};

// A prerequisite by its name.
fn say_prerequisite(writer: &mut Writer, check: usize) -> Result<(), AllocError> {
    writer.put(b"Failed prerequisite '")?;
    if let Some(row) = check_at(check) {
        writer.put(row.name.as_bytes())?;
    }
    writer.put(b"'")
}

/// The node above that which is told of, and what `unknown_property` goes by.
#[derive(Clone, Copy)]
pub struct Above<'a> {
    pub path: &'a [u8],
    pub site: Option<Site<'a>>,
    pub reference: &'a Reference<'a>,
}

impl<'a> Above<'a> {
    /// The node at a path, with its place where that is known.
    pub fn of(path: &'a [u8], site: Option<Site<'a>>, reference: &'a Reference<'a>) -> Self {
        Self {
            path,
            site,
            reference,
        }
    }

    /// `/soc (board.dtsi:14)`, or the path alone.
    pub fn put(self, writer: &mut Writer) -> Result<(), AllocError> {
        writer.put(self.path)?;
        let Some(site) = self.site else {
            return Ok(());
        };
        writer.put(b" (")?;
        writer.put(site.file)?;
        writer.count(":", site.line)?;
        writer.put(b")")
    }
}

// The property that is known in its place.
fn say_unknown(
    writer: &mut Writer,
    reference: &Reference<'_>,
    row: usize,
) -> Result<(), AllocError> {
    writer.put(b"no node of this compatible has it in the reference set; known is ")?;
    match reference.row(row) {
        Some(row) => writer.put(row.name),
        None => Ok(()),
    }
}

/// Puts the words of a finding last.
pub fn say(
    alloc: Global,
    writer: &mut Writer,
    survey: &Survey<'_>,
    finding: &Finding<'_>,
    above: Above<'_>,
) -> Result<(), AllocError> {
    let message = finding.message;
    if let Message::Prerequisite(check) = message {
        return say_prerequisite(writer, check);
    }
    if let Message::Unknown(row) = message {
        return say_unknown(writer, above.reference, row);
    }
    let said = say_numbers(writer, message, above)?
        || say_bridge(writer, message)?
        || say_device(writer, message)?
        || say_graph(writer, message, above)?
        || say_lists(writer, message)?
        || say_alias(writer, survey, finding)?
        || say_nodes(alloc, writer, survey, finding)?;
    if said {
        return Ok(());
    }
    writer.put(plain_words(message).as_bytes())
}
