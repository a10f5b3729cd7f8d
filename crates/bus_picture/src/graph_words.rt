//! What a device's label says of suppliers that have no arrows.
use crate::arrows::Arrow;
use crate::drawing::places_of;
use crate::escape::add_escaped;
use crate::graphing::Scene;
use crate::names::{path_of, short_name};
use crate::reasons::{Detail, Origins, reasons_of};
use bus_plan::{Device, Plan};
use std::alloc::{AllocError, Global};

/// Where a line of words is broken, in bytes.
const WIDTH: usize = 44;

// Words in lines.
#[derive(Drop)]
struct Lines {
    text: Vec<u8>,
    /// How long the last line is.
    width: usize,
    /// The reasons of the last word.
    reasons: Vec<u8>,
}

impl Lines {
    // Begins a new line where a word hasn't room in the last.
    fn make_room(&mut self, len: usize) -> Result<(), AllocError> {
        let width = self.width.saturating_add(len);
        if self.width > 0 && width <= WIDTH {
            self.width = width;
            return Ok(());
        }
        if !self.text.is_empty() {
            self.text.extend_from_slice(b"</FONT>")?;
        }
        self.width = len;
        self.text.extend_from_slice(b"<BR/><FONT POINT-SIZE=\"7\">")
    }

    // Adds a supplier, with what makes it one where that isn't said of the supplier before.
    fn add(&mut self, reasons: Vec<u8>, name: &[u8]) -> Result<(), AllocError> {
        let is_same = reasons.as_slice() == self.reasons.as_slice();
        let is_first = self.text.is_empty();
        if !is_first {
            self.text.extend_from_slice(if is_same {
                b", ".as_slice()
            } else {
                b"; ".as_slice()
            })?;
        }
        let said = if is_same { 0 } else { reasons.len() };
        self.make_room(said.saturating_add(name.len()).saturating_add(2))?;
        if !is_same && !reasons.is_empty() {
            self.text.extend_from_slice(reasons.as_slice())?;
            self.text.extend_from_slice(b": ")?;
        }
        self.reasons = reasons;
        add_escaped(&mut self.text, name)
    }
}

fn add_supplier<O: Origins>(
    alloc: Global,
    lines: &mut Lines,
    plan: &Plan,
    origins: &O,
    arrows: &[Arrow],
) -> Result<(), AllocError> {
    let Some(first) = arrows.first() else {
        return Ok(());
    };
    let reasons = reasons_of(alloc, origins, arrows, Detail::Properties)?;
    lines.add(reasons, short_name(path_of(plan, first.supplier)))
}

fn lines_of<O: Origins>(
    alloc: Global,
    lines: &mut Lines,
    plan: &Plan,
    origins: &O,
    scene: &Scene,
    device: Device,
) -> Result<(), AllocError> {
    for place in places_of(scene.drawing.needs.as_slice(), device) {
        let arrows = scene.drawing.bundles.at(*place);
        if !scene.leads_by_arrow(arrows) {
            add_supplier(alloc, lines, plan, origins, arrows)?;
        }
    }
    Ok(())
}

/// Writes the suppliers of a device to which no arrows lead, each with what makes it one.
pub(crate) fn write_words<O: Origins>(
    alloc: Global,
    text: &mut Vec<u8>,
    plan: &Plan,
    origins: &O,
    scene: &Scene,
    device: Device,
) -> Result<(), AllocError> {
    let mut lines = Lines {
        text: Vec::new(alloc),
        width: 0,
        reasons: Vec::new(alloc),
    };
    lines_of(alloc, &mut lines, plan, origins, scene, device)?;
    if lines.text.is_empty() {
        return Ok(());
    }
    text.extend_from_slice(lines.text.as_slice())?;
    text.extend_from_slice(b"</FONT>")
}
