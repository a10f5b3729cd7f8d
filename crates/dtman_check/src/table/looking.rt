//! In which nodes a check may find something: quick looks, before a check looks at a node itself.
ghost use Rattle.std.specs.Prelude.{◌≡◌, ◌≤◌, [], true, false, ℕ, List, Option, Some, length};
ghost use Rattle.dt_check.specs.Nodes.{PlacedData, here_of};
ghost use Rattle.dt_live.specs.declared.making.places.Places.{Places};
ghost use Rattle.dtman_check.specs.declared.table.check.Finds.{Finds};
ghost use Rattle.dtman_check.specs.Table.Found.{is_among, found_here, found_from};
ghost use Rattle.dtman_check.specs.Table.Private.Classes.{classes_among, classes_listed, classes_of};
ghost use Rattle.dtman_check.specs.Table.Private.Passed.{FindsNothing, Passes};

use crate::table::check::{Among, Finds, Listed};
use dt_check::{Graph, Placed, Survey, children, class_of, is_named};

/// Whether a check finds nothing in any node: nothing at all, or not node by node.
pub(crate) fn finds_nothing(finds: Finds) -> bool
    ensures { result ≡ true → (check place : ℕ) (all nodes : List PlacedData) (written : Option Places)
        → found_from check finds all written place nodes ≡ [] }
{
    match finds {
        Finds::Nothing | Finds::Units(_) | Finds::Unknown => true,
        Finds::Node(_, _)
        | Finds::Properties(_)
        | Finds::Links(_, _)
        | Finds::Lists(_, _)
        | Finds::Aliases => false,
    }
}

/// The classes of the names that a check asks nodes for, for a quick look at each: of one name twice.
#[derive(Clone, Copy)]
pub(crate) struct Classes {
    pub(crate) first: usize,
    pub(crate) second: usize,
}

fn classes_among(among: Among) -> Option<Classes>
    ensures { result ≡ classes_among among }
{
    match among {
        Among::With(name) => Some(Classes {
            first: class_of(name),
            second: class_of(name),
        }),
        Among::WithEither(name, other) => Some(Classes {
            first: class_of(name),
            second: class_of(other),
        }),
        Among::All
        | Among::Below(_)
        | Among::Part(_)
        | Among::Named(_)
        | Among::Parents
        | Among::WithUnit => None,
    }
}

fn classes_listed(listed: Listed) -> Option<Classes>
    ensures { result ≡ classes_listed listed }
{
    match listed {
        Listed::Named(name) => Some(Classes {
            first: class_of(name),
            second: class_of(name),
        }),
        Listed::Lines => None,
    }
}

/// None where a check asks for no names.
pub(crate) fn classes_of(finds: Finds) -> Option<Classes>
    ensures { result ≡ classes_of finds }
{
    match finds {
        Finds::Node(among, _) | Finds::Links(among, _) => classes_among(among),
        Finds::Lists(listed, _) => classes_listed(listed),
        Finds::Nothing | Finds::Units(_) | Finds::Unknown | Finds::Properties(_) | Finds::Aliases =>
            { None }
    }
}

// A quick look whether a check that asks for names of these classes may find something in a node.
#[inline(always)]
fn may_have_either(placed: &Placed<'_>, classes: Classes) -> bool
    ensures { result ≡ false → FindsNothing placed.now classes }
{
    placed.may_have(classes.first) || placed.may_have(classes.second)
}

// The same look of a check that asks for names of one class.
#[inline(always)]
fn may_have_one(placed: &Placed<'_>, classes: Classes) -> bool
    requires { classes.first ≡ classes.second }
    ensures { result ≡ false → FindsNothing placed.now classes }
{
    placed.may_have(classes.first)
}

// Nearly all checks ask for one name.
fn next_with_one(nodes: &[Placed<'_>], from: usize, classes: Classes) -> usize
    requires within { from ≤ length nodes.now }
    requires one { classes.first ≡ classes.second }
    ensures from { from ≤ result }
    ensures within { result ≤ length nodes.now }
    ensures passed { Passes nodes.now classes from result }
{
    for place in from..nodes.len() {
        if may_have_one(&nodes[place], classes) {
            return place;
        }
    }
    nodes.len()
}

fn next_with_either(nodes: &[Placed<'_>], from: usize, classes: Classes) -> usize
    requires { from ≤ length nodes.now }
    ensures from { from ≤ result }
    ensures within { result ≤ length nodes.now }
    ensures passed { Passes nodes.now classes from result }
{
    for place in from..nodes.len() {
        if may_have_either(&nodes[place], classes) {
            return place;
        }
    }
    nodes.len()
}

/// The place of the next node, from this one on, in which such a check may find something: or how many there are.
pub(crate) fn next_with(nodes: &[Placed<'_>], from: usize, classes: Classes) -> usize
    requires { from ≤ length nodes.now }
    ensures from { from ≤ result }
    ensures within { result ≤ length nodes.now }
    ensures passed { Passes nodes.now classes from result }
{
    if classes.first == classes.second {
        return next_with_one(nodes, from, classes);
    }
    next_with_either(nodes, from, classes)
}

// A quick look whether a check of these nodes, that asks for no names, may look at one.
fn may_be_among<'t>(survey: &Survey<'t>, placed: &Placed<'t>, among: Among) -> bool
    ensures { result ≡ false → is_among among (here_of survey.now placed.now) ≡ false }
{
    match among {
        Among::All | Among::With(_) | Among::WithEither(_, _) | Among::Part(Graph::Endpoint) =>
            true,
        Among::Below(bus) => survey.is_below(placed, bus),
        Among::Part(Graph::Port) => placed.is_port(),
        Among::Named(name) => is_named(placed.node(), name),
        Among::Parents => !children(placed.node()).is_empty(),
        Among::WithUnit => placed.has_unit(),
    }
}

/// A quick look whether a check that asks for no names may find something in a node.
pub(crate) fn may_find<'t>(survey: &Survey<'t>, placed: &Placed<'t>, finds: Finds) -> bool
    ensures { result ≡ false → (check : ℕ) (written : Option Places) (place : ℕ)
        → found_here check finds survey.now written place (here_of survey.now placed.now) ≡ [] }
{
    match finds {
        Finds::Node(among, _) | Finds::Links(among, _) => may_be_among(survey, placed, among),
        Finds::Nothing | Finds::Units(_) | Finds::Unknown => false,
        Finds::Aliases => is_named(placed.node(), b"aliases"),
        Finds::Lists(_, _) | Finds::Properties(_) => true,
    }
}
