//! The two ends of an edge of a graph.
ghost use Rattle.std.specs.Prelude.{◌≡◌};
ghost use Rattle.dt_check.specs.Links.Endpoint.{remote_of, invalid_fault, near_fault, far_fault, way_back, one_way_fault};

use crate::links::graph::is_of;
use crate::links::link::LinkFault;
use crate::links::lists::is_no_phandle;
use crate::{Fault, Graph, Here, Message, Survey};
use dt_tree::cell_in;

/// Where the `remote-endpoint` of a node leads.
#[derive(Clone, Copy, Debug, PartialEq, Eq)]
pub enum Remote {
    /// There is none, or it holds no phandle.
    Nothing,
    /// No node has the phandle.
    Invalid,
    /// The node at this place.
    Node(usize),
}

fn remote_of(survey: &Survey<'_>, place: usize) -> Remote
    ensures { result ≡ remote_of survey.now place }
{
    let Some(value) = survey.value(place, b"remote-endpoint") else {
        return Remote::Nothing;
    };
    let Some(phandle) = cell_in(value.as_slice()) else {
        return Remote::Nothing;
    };
    if is_no_phandle(phandle) {
        return Remote::Nothing;
    }
    match survey.with_phandle(phandle) {
        None => Remote::Invalid,
        Some(node) => Remote::Node(node),
    }
}

fn invalid_fault(remote: Remote, place: usize) -> Option<LinkFault<'static>>
    ensures { result ≡ invalid_fault remote place }
{
    match remote {
        Remote::Invalid => Some(LinkFault::at(
            place,
            Fault::of_property(b"remote-endpoint", Message::NoRemote),
        )),
        _ => None,
    }
}

/// An endpoint's phandle that no node has.
pub fn near_fault(survey: &Survey<'_>, here: &Here<'_>, place: usize) -> Option<LinkFault<'static>>
    ensures { result ≡ near_fault survey.now here.now place }
{
    if !is_of(here, Graph::Endpoint) {
        return None;
    }
    invalid_fault(remote_of(survey, place), place)
}

/// The same of the node that it leads to, told of that.
pub fn far_fault(survey: &Survey<'_>, here: &Here<'_>, place: usize) -> Option<LinkFault<'static>>
    ensures { result ≡ far_fault survey.now here.now place }
{
    if !is_of(here, Graph::Endpoint) {
        return None;
    }
    match remote_of(survey, place) {
        Remote::Node(node) => invalid_fault(remote_of(survey, node), node),
        _ => None,
    }
}

fn way_back(survey: &Survey<'_>, node: usize, place: usize) -> Option<LinkFault<'static>>
    ensures { result ≡ way_back survey.now node place }
{
    match remote_of(survey, node) {
        Remote::Node(back) if back == place => None,
        _ => Some(LinkFault::at(place, Fault::of_node(Message::OneWay(node)))),
    }
}

/// An endpoint that leads to a node which doesn't lead back.
pub fn one_way_fault(
    survey: &Survey<'_>,
    here: &Here<'_>,
    place: usize,
) -> Option<LinkFault<'static>>
    ensures { result ≡ one_way_fault survey.now here.now place }
{
    if !is_of(here, Graph::Endpoint) {
        return None;
    }
    match remote_of(survey, place) {
        Remote::Node(node) => way_back(survey, node, place),
        _ => None,
    }
}
