//! What a view holds, handed out as parts of the caller's blob.
ghost use Rattle.std.specs.Prelude.{◌≡◌, ◌∷◌, List, slice_get};
ghost use Rattle.dt_tree.specs.NodeData.{NodeData};
ghost use Rattle.dt_tree.specs.PathMap.{value_of};
ghost use Rattle.dt_tree.specs.TreeData.{TreeData};
ghost use Rattle.dt_tree.specs.declared.property.Property.{Property};
ghost use Rattle.dt_patch.specs.View.Shows.{Views};
ghost use Rattle.dt_patch.specs.View.Standing.{PropertiesFrom, StandsAt};
ghost use Rattle.dtman_view_c.specs.Parts.{IsPart, IsPair};
ghost use Rattle.dtman_view_c.specs.Told.{done};

use crate::told::{ViewTold, done, failed, nothing};
use dt_patch::view::{NodeOffset, PropertyOffset, View, ViewProperty};

/// Bytes of the caller's blob.
#[repr(C)]
#[derive(Clone, Copy)]
pub struct ViewPart<'a> {
    pub bytes: &'a [u8],
}

/// Reserved memory.
#[repr(C)]
#[derive(Clone, Copy)]
pub struct Reservation {
    pub address: u64,
    pub size: u64,
}

/// The root of a view.
#[unsafe(no_mangle)]
pub extern "C" fn dtman_view_root(view: &View<'_>) -> ViewTold
    ensures { (tree : TreeData) → Views view.now tree → (result ≡ done result.at) × StandsAt view.now result.at tree.root }
{
    match view.root() {
        Ok(root) => done(root.at),
        Err(error) => failed(error),
    }
}

/// A node's name.
#[unsafe(no_mangle)]
pub extern "C" fn dtman_view_name<'a>(
    view: &View<'a>,
    node: usize,
    part: &mut ViewPart<'a>,
) -> ViewTold
    ensures { (d : NodeData) → StandsAt view.now node d → (result ≡ done 0) × (part.new.bytes.now ≡ d.name) }
{
    match view.name(NodeOffset { at: node }) {
        Ok(name) => {
            part.bytes = name;
            done(0)
        }
        Err(error) => failed(error),
    }
}

/// A property's name and value.
#[unsafe(no_mangle)]
pub extern "C" fn dtman_view_property<'a>(
    view: &View<'a>,
    property: usize,
    into: &mut ViewProperty<'a>,
) -> ViewTold
    ensures { (p : Property) (ps : List Property) → PropertiesFrom view.now property (p ∷ ps)
        → (result ≡ done 0) × (into.new.name.now ≡ p.name) × (into.new.value.now ≡ p.value) }
{
    match view.property(PropertyOffset { at: property }) {
        Ok(held) => {
            *into = held;
            done(0)
        }
        Err(error) => failed(error),
    }
}

/// The value of a node's property of this name.
#[unsafe(no_mangle)]
pub extern "C" fn dtman_view_value<'a>(
    view: &View<'a>,
    node: usize,
    name: &[u8],
    part: &mut ViewPart<'a>,
) -> ViewTold
    ensures { (d : NodeData) → StandsAt view.now node d → IsPart (value_of d.properties name.now) part.new result }
{
    match view.value(NodeOffset { at: node }, name) {
        Ok(Some(value)) => {
            part.bytes = value;
            done(0)
        }
        Ok(None) => nothing(),
        Err(error) => failed(error),
    }
}

/// A reservation, by its place in their order.
#[unsafe(no_mangle)]
pub extern "C" fn dtman_view_reservation(
    view: &View<'_>,
    index: usize,
    into: &mut Reservation,
) -> ViewTold
    ensures { (tree : TreeData) → Views view.now tree → IsPair (slice_get tree.reserves index) into.new result }
{
    match view.reservation(index) {
        Some((address, size)) => {
            *into = Reservation { address, size };
            done(0)
        }
        None => nothing(),
    }
}
