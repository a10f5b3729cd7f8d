//! What pictures are made of.
ghost use Rattle.std.specs.Prelude.{◌≡◌, IfOk};
ghost use Rattle.bus_picture.specs.Arrows.{linked_arrows, ArePlanned};
ghost use Rattle.bus_picture.specs.States.{linked_states, planned_states};

use crate::arrows::{Arrow, linked_arrows, planned_arrows};
use crate::states::{State, linked_states, planned_states};
use bus_links::Linked;
use bus_plan::Plan;
use std::alloc::{AllocError, Global};

/// The states of a plan's devices, in its order, and all arrows between them, in the order of consumers.
#[derive(Drop)]
pub struct Sketch {
    pub states: Vec<State>,
    pub arrows: Vec<Arrow>,
}

/// Of a plan by links, of which these devices are bound.
pub fn linked_sketch(
    alloc: Global,
    linked: &Linked<'_>,
    bound: &[bool],
) -> Result<Sketch, AllocError>
    ensures states { IfOk result (λ sketch. sketch.states.items ≡ linked_states linked.now bound.now) }
    ensures arrows { IfOk result (λ sketch. sketch.arrows.items ≡ linked_arrows linked.now) }
{
    let states = linked_states(alloc, linked, bound)?;
    let arrows = linked_arrows(alloc, linked)?;
    Ok(Sketch { states, arrows })
}

/// Of a plan alone, of which these devices are bound.
pub fn planned_sketch(alloc: Global, plan: &Plan, bound: &[bool]) -> Result<Sketch, AllocError>
    ensures states { IfOk result (λ sketch. sketch.states.items ≡ planned_states plan.now bound.now) }
    ensures arrows { IfOk result (λ sketch. ArePlanned plan.now sketch.arrows.items) }
{
    let states = planned_states(alloc, plan, bound)?;
    let arrows = planned_arrows(alloc, plan)?;
    Ok(Sketch { states, arrows })
}
