//! The arrows of a picture: one for each link.
ghost use Rattle.std.specs.Prelude.{◌≡◌, ◌<◌, ◌++◌, IfOk, OnOk, length, flat_map};
ghost use Rattle.bus_core.specs.Due.{devices};
ghost use Rattle.bus_plan.specs.Reach.Components.{component_of};
ghost use Rattle.bus_picture.specs.Arrows.{tie_of, link_arrow, arrows_at, linked_arrows, supplier_arrow, planned_at, ArePlanned};

use bus_links::{Link, Linked, Standing};
use bus_plan::reach::components_of;
use bus_plan::{Device, Plan};
use std::alloc::{AllocError, Global};

/// How an arrow is drawn.
#[derive(Clone, Copy, Debug, PartialEq, Eq)]
pub enum Tie {
    /// The consumer waits for the supplier.
    Needed,
    /// It lies in a cycle.
    Cyclic,
    /// The supplier is set up before the bus begins.
    Early,
}

/// From a consumer to a supplier, by the link at this place of the consumer's links: of a plan alone, of its suppliers.
#[derive(Clone, Copy, Debug)]
pub struct Arrow {
    pub consumer: Device,
    pub supplier: Device,
    pub tie: Tie,
    pub link: usize,
}

fn tie_of(standing: Standing) -> Tie
    ensures { result ≡ tie_of standing }
{
    match standing {
        Standing::Needed => Tie::Needed,
        Standing::Relaxed => Tie::Cyclic,
        Standing::Early => Tie::Early,
    }
}

fn link_arrow(linked: &Linked<'_>, place: usize, link: &Link<'_>) -> Arrow
    ensures { result ≡ link_arrow linked.now.early linked.now.components place link.now }
{
    Arrow {
        consumer: link.consumer(),
        supplier: link.supplier(),
        tie: tie_of(linked.standing(link)),
        link: place,
    }
}

fn add_links(
    arrows: &mut Vec<Arrow>,
    linked: &Linked<'_>,
    consumer: Device,
) -> Result<(), AllocError>
    ensures { OnOk result (arrows.new.items ≡ arrows.old.items ++ arrows_at linked.now consumer) }
{
    for (place, link) in linked.links_of(consumer).iter().enumerate() {
        arrows.push(link_arrow(linked, place, link))?;
    }
    Ok(())
}

/// The arrows of a plan by links: of each link one, in the order of consumers and their links.
pub fn linked_arrows(alloc: Global, linked: &Linked<'_>) -> Result<Vec<Arrow>, AllocError>
    ensures { IfOk result (λ arrows. arrows.items ≡ linked_arrows linked.now) }
{
    let mut arrows = Vec::new(alloc);
    for place in 0..linked.plan().len() {
        add_links(&mut arrows, linked, Device::new(place))?;
    }
    Ok(arrows)
}

fn component_at(components: &[usize], device: Device) -> usize
    requires { device < length components.now }
    ensures { result ≡ component_of components.now device }
{
    components[device.index()]
}

fn supplier_arrow(components: &[usize], consumer: Device, place: usize, supplier: Device) -> Arrow
    requires consumer { consumer < length components.now }
    requires supplier { supplier < length components.now }
    ensures { result ≡ supplier_arrow components.now consumer place supplier }
{
    let is_one = component_at(components, consumer) == component_at(components, supplier);
    Arrow {
        consumer,
        supplier,
        tie: if is_one { Tie::Cyclic } else { Tie::Needed },
        link: place,
    }
}

fn add_suppliers(
    arrows: &mut Vec<Arrow>,
    plan: &Plan,
    components: &[usize],
    consumer: Device,
) -> Result<(), AllocError>
    requires known { consumer < length plan.now }
    requires long { length components.now ≡ length plan.now }
    ensures { OnOk result (arrows.new.items ≡ arrows.old.items ++ planned_at plan.now components.now consumer) }
{
    plan.check();
    for (place, supplier) in plan.suppliers(consumer).iter().enumerate() {
        arrows.push(supplier_arrow(components, consumer, place, *supplier))?;
    }
    Ok(())
}

fn arrows_within(alloc: Global, plan: &Plan, components: &[usize]) -> Result<Vec<Arrow>, AllocError>
    requires { length components.now ≡ length plan.now }
    ensures { IfOk result (λ arrows. arrows.items ≡ flat_map (planned_at plan.now components.now) (devices plan.now)) }
{
    let mut arrows = Vec::new(alloc);
    for place in 0..plan.len() {
        add_suppliers(&mut arrows, plan, components, Device::new(place))?;
    }
    Ok(arrows)
}

/// The arrows of a plan alone: of each device one to each supplier. Those within a cycle are told by the components of the plan.
pub fn planned_arrows(alloc: Global, plan: &Plan) -> Result<Vec<Arrow>, AllocError>
    ensures { IfOk result (λ arrows. ArePlanned plan.now arrows.items) }
{
    let components = components_of(alloc, plan)?;
    arrows_within(alloc, plan, components.as_slice())
}
