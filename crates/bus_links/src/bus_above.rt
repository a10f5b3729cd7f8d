//! The bus above a device.
ghost use Rattle.std.specs.Prelude.{◌≡◌, ◌++◌, IfOk, OnOk};
ghost use Rattle.bus_links.specs.Bindings.LinkNodes.{own_places, device_places};
ghost use Rattle.bus_links.specs.Links.{bus_above, is_bus_for, node_of, parents_from};

use crate::bindings::{LinkNode, Nodes};
use bus_drivers::{TreeDevice, is_compatible};
use std::alloc::{AllocError, Global};

// Whether the device at a place is the bus of one, whose driver makes that one.
fn is_bus_for(buses: &[bool], own: usize, bus: usize) -> bool
    ensures { result ≡ is_bus_for buses.now own bus }
{
    if bus >= own || bus >= buses.len() {
        return false;
    }
    !buses[bus]
}

/// The bus above the device at this place and node: the nearest device above, but for buses whose devices are made without a
/// driver.
pub fn bus_above(nodes: &Nodes<'_>, buses: &[bool], own: usize, node: usize) -> Option<usize>
    ensures { result ≡ bus_above nodes.now buses.now own node }
{
    let Some(bus) = nodes.device(nodes.above(node)) else {
        return None;
    };
    if !is_bus_for(buses, own, bus) {
        return None;
    }
    Some(bus)
}

fn add_place(places: &mut Vec<usize>, node: &LinkNode<'_>, place: usize) -> Result<(), AllocError>
    ensures { OnOk result (places.new.items ≡ places.old.items ++ own_places place node.now) }
{
    if place == 0 || !is_compatible(node.node()) {
        return Ok(());
    }
    places.push(place)?;
    Ok(())
}

/// The places of the devices among the nodes, in order.
pub fn device_places(alloc: Global, nodes: &[LinkNode<'_>]) -> Result<Vec<usize>, AllocError>
    ensures { IfOk result (λ places. places.items ≡ device_places nodes.now) }
{
    let mut places = Vec::new(alloc);
    for (place, node) in nodes.iter().enumerate() {
        add_place(&mut places, node, place)?;
    }
    Ok(places)
}

/// The place of the node of the device at this place.
pub fn node_of(places: &[usize], own: usize) -> usize
    ensures { result ≡ node_of places.now own }
{
    if own >= places.len() {
        return 0;
    }
    places[own]
}

/// The bus above each device, whose nodes stand at these places.
pub fn parents_of(
    alloc: Global,
    nodes: &Nodes<'_>,
    buses: &[bool],
    places: &[usize],
    devices: &[TreeDevice<'_>],
) -> Result<Vec<Option<usize>>, AllocError>
    ensures { IfOk result (λ parents. parents.items
        ≡ parents_from nodes.now buses.now places.now 0 devices.now) }
{
    let mut parents = Vec::with_capacity(alloc, devices.len())?;
    for (own, _device) in devices.iter().enumerate() {
        parents.push(bus_above(nodes, buses, own, node_of(places, own)))?;
    }
    Ok(parents)
}
