//! Pictures of boards: graphs and pages.
ghost use Rattle.std.specs.Prelude.{◌<◌, length, IfSome};

use crate::end::end_of;
use crate::waits::{device_at, no_device};
use bus_links::Linked;
use bus_picture::{NoOrigins, Origins, Sketch, graph, linked_sketch, page, planned_sketch};
use bus_plan::{Device, Plan};
use dtman_engine::Fault;
use std::alloc::{AllocError, Global};
use std::thread::Threads;

/// How a board is drawn.
#[derive(Clone, Copy, Debug, PartialEq, Eq)]
pub enum Form {
    /// As a Graphviz graph.
    Graph,
    /// As a page of HTML.
    Page,
}

/// A picture of a board, or of what the device at a path needs and what needs it.
#[derive(Clone, Copy, Debug)]
pub struct Picture<'a> {
    pub form: Form,
    pub of: Option<&'a [u8]>,
}

fn painted<O: Origins>(
    alloc: Global,
    plan: &Plan,
    sketch: Sketch,
    origins: &O,
    form: Form,
    center: Option<Device>,
) -> Result<Vec<u8>, AllocError>
    requires { IfSome center (λ device. device < length plan.now) }
{
    match form {
        Form::Graph => graph(alloc, plan, sketch, origins, center),
        Form::Page => page(alloc, plan, sketch, origins, center),
    }
}

// Of the device at a path, or else of the board.
fn drawn<O: Origins>(
    alloc: Global,
    plan: &Plan,
    sketch: Sketch,
    origins: &O,
    form: Form,
    of: Option<&[u8]>,
) -> Result<Vec<u8>, Fault> {
    let Some(path) = of else {
        return painted(alloc, plan, sketch, origins, form, None).map_err(|_| Fault::no_memory());
    };
    match device_at(plan, path) {
        Some(device) => {
            let center = Some(device);
            painted(alloc, plan, sketch, origins, form, center).map_err(|_| Fault::no_memory())
        }
        None => Err(no_device()),
    }
}

fn linked_drawn(
    alloc: Global,
    linked: &Linked<'_>,
    bound: &[bool],
    form: Form,
    of: Option<&[u8]>,
) -> Result<Vec<u8>, Fault> {
    match linked_sketch(alloc, linked, bound) {
        Ok(sketch) => drawn(alloc, linked.plan(), sketch, linked, form, of),
        Err(_) => Err(Fault::no_memory()),
    }
}

fn planned_drawn(
    alloc: Global,
    plan: &Plan,
    bound: &[bool],
    form: Form,
    of: Option<&[u8]>,
) -> Result<Vec<u8>, Fault> {
    match planned_sketch(alloc, plan, bound) {
        Ok(sketch) => drawn(alloc, plan, sketch, &NoOrigins, form, of),
        Err(_) => Err(Fault::no_memory()),
    }
}

/// The picture of a plan by links, with the devices as a run leaves them.
pub(crate) fn linked_picture<R: Threads + Sync>(
    rt: &R,
    alloc: Global,
    linked: &Linked<'_>,
    picture: Picture<'_>,
) -> Result<Vec<u8>, Fault> {
    match end_of(rt, alloc, linked.plan()) {
        Ok(bound) => linked_drawn(alloc, linked, bound.as_slice(), picture.form, picture.of),
        Err(fault) => Err(fault),
    }
}

/// The picture of a plan alone, with the devices as a run leaves them.
pub(crate) fn planned_picture<R: Threads + Sync>(
    rt: &R,
    alloc: Global,
    plan: &Plan,
    picture: Picture<'_>,
) -> Result<Vec<u8>, Fault> {
    match end_of(rt, alloc, plan) {
        Ok(bound) => planned_drawn(alloc, plan, bound.as_slice(), picture.form, picture.of),
        Err(fault) => Err(fault),
    }
}
