ghost use Rattle.std.specs.Prelude.{◌≡◌, ◌≤◌, ◌⊎◌, [], ℕ, Bool, List, IfOk, MatchResult, length, Some};
ghost use Rattle.bus_plan.specs.declared.error.PlanError.TheVariants.{NoMemory};
ghost use Rattle.bus_plan.specs.Limits.{most_devices};
ghost use Rattle.bus_plan.specs.Plan.{IsLawful, PlannedDevice};
ghost use Rattle.bus_drivers.specs.Nodes.{device_nodes, tree_devices};
ghost use Rattle.bus_links.specs.Bindings.BindingView.{is_strict};
ghost use Rattle.bus_plan.specs.Reach.Components.{AreComponents};
ghost use Rattle.bus_links.specs.LinkPlan.{is_counted, is_waited_for, planned_by, planned_late, tree_refusal};
ghost use Rattle.bus_links.specs.Linked.{IsLinked, MakesLinked};
ghost use Rattle.bus_links.specs.Bindings.LinkNodes.{device_places};
ghost use Rattle.bus_links.specs.Links.{LinkData, flags, links_from, linux_devices, made_from, parents_from, warnings_from, tree_buses, tree_links, tree_parents, tree_warnings};
ghost use Rattle.bus_links.specs.Private.Counting.{passes};

use crate::bindings::{Ends, Nodes, Strictness};
use crate::bus_above::{device_places, parents_of};
use crate::device_links::DeviceLinks;
use crate::flags::flags_of;
use crate::late::Timeout;
use crate::link_drivers::LinkDrivers;
use crate::linked::{Linked, Plans};
use crate::linker::Linker;
use crate::links::Warning;
use crate::making::{Maker, absent_of};
use crate::relaxing::{Counting, planned_devices};
use bus_drivers::{Matcher, PhandleIndex, TreeDevice};
use bus_plan::reach::components_of;
use bus_plan::{PathIndex, Plan, PlanError};
use dt_tree::Tree;
use std::alloc::{AllocError, Global};
use std::hash::RandomState;

// The plan of the links that count.
fn plan_by(
    alloc: Global,
    hasher: RandomState,
    matcher: &Matcher<'_>,
    devices: &[TreeDevice<'_>],
    links: &[DeviceLinks<'_>],
    parents: &[Option<usize>],
    early: &[bool],
    counting: &Counting<'_>,
) -> Result<Plan, AllocError>
    requires { IsLawful (planned_by matcher.now (passes early.now counting.now) parents.now links.now 0 devices.now) }
    ensures { IfOk result (λ plan. plan ≡ planned_by matcher.now
        (passes early.now counting.now) parents.now links.now 0 devices.now) }
{
    let devices = planned_devices(
        alloc, hasher, matcher, devices, links, parents, early, counting,
    )?;
    Plan::of(alloc, hasher, devices)
}

// The components of the devices by the plan of all links that count and of all parents.
fn components_by(
    alloc: Global,
    hasher: RandomState,
    matcher: &Matcher<'_>,
    devices: &[TreeDevice<'_>],
    links: &[DeviceLinks<'_>],
    parents: &[Option<usize>],
    early: &[bool],
) -> Result<Vec<usize>, AllocError>
    requires { IsLawful (planned_by matcher.now (is_counted early.now) parents.now links.now 0 devices.now) }
    ensures { IfOk result (λ components. AreComponents
        (planned_by matcher.now (is_counted early.now) parents.now links.now 0 devices.now) components.items) }
{
    let counting = Counting::All;
    let whole = plan_by(
        alloc, hasher, matcher, devices, links, parents, early, &counting,
    )?;
    components_of(alloc, &whole)
}

// The plan of the links that count by these components.
fn relaxed_by(
    alloc: Global,
    hasher: RandomState,
    matcher: &Matcher<'_>,
    devices: &[TreeDevice<'_>],
    links: &[DeviceLinks<'_>],
    early: &[bool],
    components: &[usize],
) -> Result<Plan, AllocError>
    requires { IsLawful (planned_by matcher.now (is_waited_for early.now components.now) [] links.now 0 devices.now) }
    ensures { IfOk result (λ plan. plan
        ≡ planned_by matcher.now (is_waited_for early.now components.now) [] links.now 0 devices.now) }
{
    let counting = Counting::Relaxed(components);
    plan_by(
        alloc,
        hasher,
        matcher,
        devices,
        links,
        &[],
        early,
        &counting,
    )
}

// The plan of links, and the components that it goes by.
fn relaxed_plan(
    alloc: Global,
    hasher: RandomState,
    matcher: &Matcher<'_>,
    devices: &[TreeDevice<'_>],
    links: &[DeviceLinks<'_>],
    parents: &[Option<usize>],
    early: &[bool],
) -> Result<(Plan, Vec<usize>), AllocError>
    requires whole { (test : LinkData → Bool) → IsLawful (planned_by matcher.now test parents.now links.now 0 devices.now) }
    requires alone { (test : LinkData → Bool) → IsLawful (planned_by matcher.now test [] links.now 0 devices.now) }
    ensures plan { IfOk result (λ made. made.0
        ≡ planned_by matcher.now (is_waited_for early.now made.1.items) [] links.now 0 devices.now) }
    ensures cycles { IfOk result (λ made. AreComponents
        (planned_by matcher.now (is_counted early.now) parents.now links.now 0 devices.now) made.1.items) }
{
    let components = components_by(alloc, hasher, matcher, devices, links, parents, early)?;
    let by = components.as_slice();
    let plan = relaxed_by(alloc, hasher, matcher, devices, links, early, by)?;
    Ok((plan, components))
}

// The plan that is left behind the timeout, by this one until then.
fn late_by(
    alloc: Global,
    hasher: RandomState,
    matcher: &Matcher<'_>,
    devices: &[TreeDevice<'_>],
    links: &[DeviceLinks<'_>],
    timeout: &Timeout<'_>,
) -> Result<Plan, AllocError>
    requires { IsLawful (planned_late matcher.now timeout.now.early.now timeout.now.buses.now
        (is_strict timeout.now.strictness) timeout.now.components.now timeout.now.plan.now links.now devices.now) }
    ensures { IfOk result (λ plan. plan ≡ planned_late matcher.now timeout.now.early.now timeout.now.buses.now
        (is_strict timeout.now.strictness) timeout.now.components.now timeout.now.plan.now links.now devices.now) }
{
    let left = timeout.links(alloc, links)?;
    let links = left.as_slice();
    let counting = Counting::All;
    plan_by(
        alloc,
        hasher,
        matcher,
        devices,
        links,
        &[],
        timeout.early,
        &counting,
    )
}

// The places of the nodes of a tree's devices, which of these are early, and which are buses that Linux makes the devices of.
#[derive(Drop)]
struct Marks {
    places: Vec<usize>,
    early: Vec<bool>,
    buses: Vec<bool>,
}

fn marks_of(
    alloc: Global,
    nodes: &Nodes<'_>,
    devices: &[TreeDevice<'_>],
    drivers: &LinkDrivers,
) -> Result<Marks, AllocError>
    ensures places { IfOk result (λ marks. marks.places.items ≡ device_places nodes.now) }
    ensures early { IfOk result (λ marks. marks.early.items ≡ flags drivers.now.early devices.now) }
    ensures buses { IfOk result (λ marks. marks.buses.items ≡ flags drivers.now.buses devices.now) }
{
    let places = device_places(alloc, nodes.as_slice())?;
    let early = flags_of(alloc, drivers.early(), devices)?;
    let buses = flags_of(alloc, drivers.buses(), devices)?;
    Ok(Marks {
        places,
        early,
        buses,
    })
}

// The devices as Linux makes them.
fn made_devices<'t>(
    alloc: Global,
    nodes: &Nodes<'t>,
    devices: &[TreeDevice<'t>],
    marks: &Marks,
) -> Result<Vec<TreeDevice<'t>>, AllocError>
    ensures { IfOk result (λ made. made.items ≡ made_from nodes.now marks.now.early.items marks.now.buses.items
        marks.now.places.items 0 devices.now) }
{
    let maker = Maker {
        nodes,
        early: marks.early.as_slice(),
        buses: marks.buses.as_slice(),
    };
    maker.devices(alloc, marks.places.as_slice(), devices)
}

// The links of each device, and what is warned of.
#[derive(Drop)]
struct Found<'t> {
    links: Vec<DeviceLinks<'t>>,
    warnings: Vec<Warning<'t>>,
}

fn links_of<'t>(
    alloc: Global,
    nodes: &Nodes<'t>,
    devices: &[TreeDevice<'t>],
    marks: &Marks,
    strictness: Strictness,
) -> Result<Found<'t>, AllocError>
    ensures links { IfOk result (λ found. found.links.items
        ≡ links_from nodes.now devices.now marks.now.buses.items (is_strict strictness) marks.now.places.items 0 devices.now) }
    ensures warnings { IfOk result (λ found. found.warnings.items
        ≡ warnings_from nodes.now (is_strict strictness) marks.now.places.items 0 devices.now) }
{
    let ends = Ends::of(alloc, nodes, devices.len())?;
    let linker = Linker {
        nodes,
        ends: &ends,
        devices,
        buses: marks.buses.as_slice(),
        strictness,
    };
    let mut warnings = Vec::new(alloc);
    let links = linker.all_links(alloc, &mut warnings, marks.places.as_slice())?;
    Ok(Found { links, warnings })
}

// The devices above these ones: the buses, of whatever strings.
fn all_parents(
    alloc: Global,
    hasher: RandomState,
    nodes: &Nodes<'_>,
    places: &[usize],
    devices: &[TreeDevice<'_>],
) -> Result<Vec<Option<usize>>, AllocError>
    ensures { IfOk result (λ parents. parents.items
        ≡ parents_from nodes.now (flags [] devices.now) places.now 0 devices.now) }
{
    let none = flags_of(alloc, &PathIndex::new(alloc, hasher), devices)?;
    parents_of(alloc, nodes, none.as_slice(), places, devices)
}

// The devices as Linux makes them, and the bus above each; of whatever strings in `parents`.
#[derive(Drop)]
struct Devices<'t> {
    devices: Vec<TreeDevice<'t>>,
    parents: Vec<Option<usize>>,
    buses: Vec<Option<usize>>,
    early: Vec<bool>,
}

// What plans are made of: the devices and their links.
#[derive(Drop)]
struct Parts<'t> {
    devices: Devices<'t>,
    found: Found<'t>,
}

fn devices_by<'t>(
    alloc: Global,
    hasher: RandomState,
    nodes: &Nodes<'t>,
    devices: &[TreeDevice<'t>],
    marks: &Marks,
) -> Result<Devices<'t>, AllocError>
    ensures devices { IfOk result (λ made. made.devices.items ≡ made_from nodes.now marks.now.early.items
        marks.now.buses.items marks.now.places.items 0 devices.now) }
    ensures parents { IfOk result (λ made. made.parents.items
        ≡ parents_from nodes.now (flags [] devices.now) marks.now.places.items 0 devices.now) }
    ensures buses { IfOk result (λ made. made.buses.items
        ≡ parents_from nodes.now marks.now.buses.items marks.now.places.items 0 devices.now) }
    ensures early { IfOk result (λ made. made.early.items ≡ marks.now.early.items) }
{
    let places = marks.places.as_slice();
    let parents = all_parents(alloc, hasher, nodes, places, devices)?;
    let buses = parents_of(alloc, nodes, marks.buses.as_slice(), places, devices)?;
    let early = marks.early.clone()?;
    let devices = made_devices(alloc, nodes, devices, marks)?;
    Ok(Devices {
        devices,
        parents,
        buses,
        early,
    })
}

fn parts_of<'t>(
    alloc: Global,
    hasher: RandomState,
    tree: &'t Tree,
    devices: &[TreeDevice<'t>],
    drivers: &LinkDrivers,
    strictness: Strictness,
) -> Result<Parts<'t>, AllocError>
    requires { devices.now ≡ tree_devices tree.now.root }
    ensures devices { IfOk result (λ parts. parts.devices.devices.items ≡ linux_devices tree.now.root drivers.now) }
    ensures links { IfOk result (λ parts. parts.found.links.items ≡ tree_links tree.now.root drivers.now
        (is_strict strictness)) }
    ensures parents { IfOk result (λ parts. parts.devices.parents.items ≡ tree_parents tree.now.root) }
    ensures buses { IfOk result (λ parts. parts.devices.buses.items ≡ tree_buses tree.now.root drivers.now) }
    ensures warnings { IfOk result (λ parts. parts.found.warnings.items
        ≡ tree_warnings tree.now.root drivers.now (is_strict strictness)) }
    ensures early { IfOk result (λ parts. parts.devices.early.items
        ≡ flags drivers.now.early (tree_devices tree.now.root)) }
{
    let nodes = Nodes::of(alloc, hasher, tree)?;
    let marks = marks_of(alloc, &nodes, devices, drivers)?;
    let devices = devices_by(alloc, hasher, &nodes, devices, &marks)?;
    let found = links_of(
        alloc,
        &nodes,
        devices.devices.as_slice(),
        &marks,
        strictness,
    )?;
    Ok(Parts { devices, found })
}

// The plans of these parts.
fn plans_by(
    alloc: Global,
    hasher: RandomState,
    matcher: &Matcher<'_>,
    devices: &Devices<'_>,
    links: &[DeviceLinks<'_>],
    strictness: Strictness,
) -> Result<Plans, AllocError>
    requires whole { (test : LinkData → Bool) → IsLawful (planned_by matcher.now test
        devices.now.parents.items links.now 0 devices.now.devices.items) }
    requires alone { (test : LinkData → Bool) → IsLawful (planned_by matcher.now test
        [] links.now 0 devices.now.devices.items) }
    requires late { (components : List ℕ) (plan : List PlannedDevice) → IsLawful (planned_late matcher.now
        devices.now.early.items devices.now.buses.items (is_strict strictness) components plan links.now
        devices.now.devices.items) }
    ensures plan { IfOk result (λ plans. plans.plan ≡ planned_by matcher.now
        (is_waited_for devices.now.early.items plans.components.items) [] links.now 0 devices.now.devices.items) }
    ensures cycles { IfOk result (λ plans. AreComponents (planned_by matcher.now (is_counted devices.now.early.items)
        devices.now.parents.items links.now 0 devices.now.devices.items) plans.components.items) }
    ensures late { IfOk result (λ plans. plans.late ≡ planned_late matcher.now devices.now.early.items
        devices.now.buses.items (is_strict strictness) plans.components.items plans.plan links.now
        devices.now.devices.items) }
{
    let all = devices.devices.as_slice();
    let parents = devices.parents.as_slice();
    let early = devices.early.as_slice();
    let (plan, components) = relaxed_plan(alloc, hasher, matcher, all, links, parents, early)?;
    let timeout = Timeout {
        strictness,
        early,
        components: components.as_slice(),
        plan: &plan,
        buses: devices.buses.as_slice(),
    };
    let late = late_by(alloc, hasher, matcher, all, links, &timeout)?;
    Ok(Plans {
        plan,
        late,
        components,
    })
}

// The plan of a tree whose `fail` lines are known, and which has few devices.
fn linked_by<'t>(
    alloc: Global,
    hasher: RandomState,
    tree: &'t Tree,
    devices: &[TreeDevice<'t>],
    matcher: &Matcher<'_>,
    drivers: &LinkDrivers,
    strictness: Strictness,
) -> Result<Linked<'t>, AllocError>
    requires devices { devices.now ≡ tree_devices tree.now.root }
    requires few { length (device_nodes tree.now.root) ≤ most_devices }
    requires matcher { matcher.now ≡ drivers.now.drivers }
    ensures { IfOk result (λ linked. MakesLinked tree.now.root drivers.now (is_strict strictness) linked) }
{
    tree.check();
    drivers.drivers().check();
    let parts = parts_of(alloc, hasher, tree, devices, drivers, strictness)?;
    let links = parts.found.links.as_slice();
    let plans = plans_by(alloc, hasher, matcher, &parts.devices, links, strictness)?;
    let absent = absent_of(alloc, devices, parts.devices.devices.as_slice())?;
    Ok(Linked::new(
        plans,
        parts.found.links,
        parts.found.warnings,
        parts.devices.early,
        absent,
    ))
}

/// The plan of a tree by the links of Linux, or the first refusal: too many devices, then a `fail` line whose path is no
/// device's.
pub fn link<'t>(
    alloc: Global,
    hasher: RandomState,
    tree: &'t Tree,
    drivers: &LinkDrivers,
    strictness: Strictness,
) -> Result<Linked<'t>, PlanError>
    ensures { MatchResult result
        (λ linked. IsLinked tree.now.root drivers.now (is_strict strictness) linked)
        (λ e. (e ≡ NoMemory) ⊎ (tree_refusal tree.now.root drivers.now.drivers ≡ Some e)) }
{
    let phandle_index = PhandleIndex::of(alloc, hasher, tree)?;
    let matcher = Matcher::of(alloc, hasher, drivers.drivers())?;
    let devices = phandle_index.devices();
    matcher.check_fails(alloc, hasher, devices)?;
    Ok(linked_by(alloc, hasher, tree, devices, &matcher, drivers, strictness)?)
}
