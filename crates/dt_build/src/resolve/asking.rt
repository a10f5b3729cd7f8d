//! Numbers that nodes ask for.
ghost use Rattle.std.specs.Prelude.{◌≡◌, All};
ghost use Rattle.dt_source.specs.TreeMeaning.DtcPhandles as meaning;
ghost use Rattle.dt_live.specs.Rows.{IsLiveTree, IsNode, node_path};
ghost use Rattle.dt_build.specs.Resolve.Founds.{found_property, founds_of};
ghost use Rattle.dt_build.specs.Resolve.Targets.{IsToldApart};
ghost use Rattle.dt_build.specs.Resolve.Private.CellOf.{is_cell_of};

use crate::resolve::given_by_both::is_phandle_name;
use crate::resolve::parts::target_at;
use dt_live::{LiveTree, NodeProperty, is_reserved};
use dt_source::{Part, Value};

// Whether a value is one reference in cells to a node.
fn refers_to<'d, 't>(
    live: &LiveTree<'d, &'d Value<'t>>,
    node: usize,
    value: &'d [Part<'t>],
    targets: &[Option<usize>],
) -> bool
    requires { All (IsToldApart live.now node) targets.now }
    ensures { result ≡ is_cell_of (node_path live.now node) (founds_of (node_path live.now) value.now targets.now) }
{
    let _live = live;
    if value.len() != 1 {
        return false;
    }
    match (&value[0], target_at(targets, 0)) {
        (Part::Phandle(_), Some(target)) => target == node,
        (Part::Phandle(_), None) => false,
        (Part::Bytes(_), _) => false,
        (Part::Path(_), _) => false,
        (Part::File(_), _) => false,
    }
}

/// Whether a property in dtc's language asks for the number of its own node: a `phandle` or `linux,phandle` outside the reserved nodes
/// whose value is one reference in cells to the node. The targets are those of its value (Devicetree Specification v0.4, section 2.3.3).
pub fn asks_for_own<'d, 't>(
    live: &LiveTree<'d, &'d Value<'t>>,
    property: &NodeProperty<'d, &'d Value<'t>>,
    targets: &[Option<usize>],
) -> bool
    requires sound { IsLiveTree live.now }
    requires known { IsNode live.now property.now.node }
    requires apart { All (IsToldApart live.now property.now.node) targets.now }
    ensures { result ≡ meaning.asks_for_own (found_property (node_path live.now) property.now targets.now) }
{
    if !is_phandle_name(property.name) {
        return false;
    }
    if is_reserved(live.nodes(), property.node) {
        return false;
    }
    refers_to(
        live,
        property.node,
        property.value.parts.as_slice(),
        targets,
    )
}
