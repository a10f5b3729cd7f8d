//! The picture as the text of a graph for Graphviz.
ghost use Rattle.std.specs.Prelude.{◌<◌, IfSome, length};

use crate::arrows::{Arrow, Tie};
use crate::drawing::{Drawing, drawing_within, whole_drawing};
use crate::graph_devices::write_devices;
use crate::graph_head::write_head;
use crate::names::path_of;
use crate::reasons::{Detail, Origins, reasons_of};
use crate::showing::shown;
use crate::sketch::Sketch;
use crate::states::State;
use bus_plan::{Device, Plan};
use std::alloc::{AllocError, Global};

/// The devices of a picture, and the one that it is of.
#[derive(Drop)]
pub(crate) struct Scene {
    pub drawing: Drawing,
    pub of: Option<Device>,
    /// Whether each device is drawn.
    pub drawn: Vec<bool>,
}

impl Scene {
    /// Whether arrows lead to a device; else those that need it say so.
    pub fn has_arrows_to(&self, device: Device) -> bool {
        !self.drawing.is_hub(device) || self.of == Some(device)
    }

    /// The same of the supplier of a bundle.
    pub fn leads_by_arrow(&self, arrows: &[Arrow]) -> bool {
        match arrows.first() {
            Some(arrow) => self.has_arrows_to(arrow.supplier),
            None => false,
        }
    }
}

// How an arrow is drawn.
fn style_of(tie: Tie) -> &'static [u8] {
    match tie {
        Tie::Needed => b"color=black",
        Tie::Cyclic => b"color=red, fontcolor=red",
        Tie::Early => b"color=gray60, fontcolor=gray60",
    }
}

// A word that stands in an arrow, by the name that it has in the graph.
fn write_word(text: &mut Vec<u8>, name: &[u8], words: &[u8], tie: Tie) -> Result<(), AllocError> {
    text.extend_from_slice(b"    \"")?;
    text.extend_from_slice(name)?;
    text.extend_from_slice(b"\" [shape=plaintext, style=\"\", fontsize=7, label=<")?;
    text.extend_from_slice(words)?;
    text.extend_from_slice(b">, ")?;
    text.extend_from_slice(style_of(tie))?;
    text.extend_from_slice(b"];\n")
}

// No byte of a path means anything in a quoted text.
fn write_line(text: &mut Vec<u8>, from: &[u8], to: &[u8], tie: Tie) -> Result<(), AllocError> {
    text.extend_from_slice(b"    \"")?;
    text.extend_from_slice(from)?;
    text.extend_from_slice(b"\" -> \"")?;
    text.extend_from_slice(to)?;
    text.extend_from_slice(b"\" [")?;
    text.extend_from_slice(style_of(tie))
}

// An arrow, and between its two halves what made it, where that is known. Labels of arrows are left out by Graphviz 2.43 in what it packs.
fn write_arrow(
    alloc: Global,
    text: &mut Vec<u8>,
    plan: &Plan,
    arrow: &Arrow,
    words: &[u8],
    place: usize,
) -> Result<(), AllocError> {
    let consumer = path_of(plan, arrow.consumer);
    let supplier = path_of(plan, arrow.supplier);
    if words.is_empty() {
        write_line(text, consumer, supplier, arrow.tie)?;
        return text.extend_from_slice(b"];\n");
    }
    let name = format!(in alloc; "link {place}")?;
    write_word(text, name.as_bytes(), words, arrow.tie)?;
    write_line(text, consumer, name.as_bytes(), arrow.tie)?;
    text.extend_from_slice(b", dir=none];\n")?;
    write_line(text, name.as_bytes(), supplier, arrow.tie)?;
    text.extend_from_slice(b"];\n")
}

// The arrow of the bundle at a place.
fn write_bundle<O: Origins>(
    alloc: Global,
    text: &mut Vec<u8>,
    plan: &Plan,
    origins: &O,
    arrows: &[Arrow],
    place: usize,
) -> Result<(), AllocError> {
    let Some(first) = arrows.first() else {
        return Ok(());
    };
    let words = reasons_of(alloc, origins, arrows, Detail::Entries)?;
    write_arrow(alloc, text, plan, first, words.as_slice(), place)
}

fn write_bundles<O: Origins>(
    alloc: Global,
    text: &mut Vec<u8>,
    plan: &Plan,
    origins: &O,
    scene: &Scene,
) -> Result<(), AllocError> {
    for place in 0..scene.drawing.bundles.len() {
        let arrows = scene.drawing.bundles.at(place);
        if scene.leads_by_arrow(arrows) {
            write_bundle(alloc, text, plan, origins, arrows, place)?;
        }
    }
    Ok(())
}

// Those at which an arrow begins or ends.
fn ends(alloc: Global, count: usize, drawing: &Drawing) -> Result<Vec<bool>, AllocError> {
    let mut drawn = Vec::with_capacity(alloc, count)?;
    for place in 0..count {
        drawn.push(drawing.has(Device::new(place)))?;
    }
    Ok(drawn)
}

fn scene_of(
    alloc: Global,
    plan: &Plan,
    states: &[State],
    arrows: Vec<Arrow>,
    of: Option<Device>,
) -> Result<Scene, AllocError>
    requires { IfSome of (λ device. device < length plan.now) }
{
    if of.is_some() {
        let drawn = shown(alloc, plan, of)?;
        let drawing = drawing_within(alloc, drawn.as_slice(), arrows)?;
        return Ok(Scene { drawing, of, drawn });
    }
    let drawing = whole_drawing(alloc, states, arrows)?;
    let drawn = ends(alloc, plan.len(), &drawing)?;
    Ok(Scene { drawing, of, drawn })
}

fn write_graph<O: Origins>(
    alloc: Global,
    text: &mut Vec<u8>,
    plan: &Plan,
    states: &[State],
    origins: &O,
    scene: &Scene,
) -> Result<(), AllocError> {
    write_head(alloc, text, states, scene.drawn.as_slice())?;
    write_devices(alloc, text, plan, states, origins, scene)?;
    write_bundles(alloc, text, plan, origins, scene)?;
    text.extend_from_slice(b"}\n")
}

/// A Graphviz graph of a plan: a device with its driver and state, an arrow to each supplier, with the properties that made it, red in a
/// cycle. A supplier of many is told in their words. Of one device all that it takes and that takes it is drawn; of none the board,
/// without devices that are switched off or alone, or that no driver matches and nobody needs.
pub fn graph<O: Origins>(
    alloc: Global,
    plan: &Plan,
    sketch: Sketch,
    origins: &O,
    of: Option<Device>,
) -> Result<Vec<u8>, AllocError>
    requires { IfSome of (λ device. device < length plan.now) }
{
    let Sketch { states, arrows } = sketch;
    let scene = scene_of(alloc, plan, states.as_slice(), arrows, of)?;
    let mut text = Vec::new(alloc);
    write_graph(alloc, &mut text, plan, states.as_slice(), origins, &scene)?;
    Ok(text)
}
