//! The head of a graph: how it is laid out, and what its colours mean.
use crate::states::State;
use std::alloc::{AllocError, Global};

/// What each graph begins with. What hangs together is laid out by itself and packed.
const HEAD: &str = "\
digraph plan {
    graph [rankdir=LR, pack=3, packmode=\"graph\", ranksep=0.12, nodesep=0.06, fontname=Helvetica, labelloc=t];
    node [shape=box, style=filled, fontname=Helvetica, fontsize=9, margin=\"0.05,0.02\", height=0.1, width=0.1];
    edge [arrowsize=0.6];
    label=<<TABLE BORDER=\"0\" CELLSPACING=\"4\"><TR>";

/// The colour of a state.
pub(crate) fn color_of(state: State) -> &'static [u8] {
    match state {
        State::Bound => b"#d5f0d5",
        State::Waiting => b"#ffe28a",
        State::Failed => b"#f5b5b5",
        State::Unmatched => b"#dddddd",
        State::Disabled => b"#ffffff",
        State::Early => b"#cfe3f7",
    }
}

/// The word for a state.
pub(crate) fn word_of(state: State) -> &'static [u8] {
    match state {
        State::Bound => b"bound",
        State::Waiting => b"waiting",
        State::Failed => b"failed",
        State::Unmatched => b"no driver",
        State::Disabled => b"disabled",
        State::Early => b"early",
    }
}

/// How many devices have a state.
pub(crate) fn count_of(states: &[State], state: State) -> usize {
    let mut count = 0usize;
    for other in states {
        if *other == state {
            count = count.saturating_add(1);
        }
    }
    count
}

fn write_state(
    alloc: Global,
    text: &mut Vec<u8>,
    states: &[State],
    state: State,
) -> Result<(), AllocError> {
    text.extend_from_slice(b"<TD BGCOLOR=\"")?;
    text.extend_from_slice(color_of(state))?;
    text.extend_from_slice(b"\">")?;
    text.extend_from_slice(word_of(state))?;
    let count = count_of(states, state);
    let end = format!(in alloc; " {count}</TD>")?;
    text.extend_from_slice(end.as_bytes())
}

fn write_states(alloc: Global, text: &mut Vec<u8>, states: &[State]) -> Result<(), AllocError> {
    write_state(alloc, text, states, State::Bound)?;
    write_state(alloc, text, states, State::Waiting)?;
    write_state(alloc, text, states, State::Failed)?;
    write_state(alloc, text, states, State::Unmatched)?;
    write_state(alloc, text, states, State::Disabled)?;
    write_state(alloc, text, states, State::Early)
}

fn count_left_out(drawn: &[bool]) -> usize {
    let mut count = 0usize;
    for is_drawn in drawn {
        if !*is_drawn {
            count = count.saturating_add(1);
        }
    }
    count
}

/// Writes all that stands before the devices: how many have each state, and how many aren't drawn.
pub(crate) fn write_head(
    alloc: Global,
    text: &mut Vec<u8>,
    states: &[State],
    drawn: &[bool],
) -> Result<(), AllocError> {
    text.extend_from_slice(HEAD.as_bytes())?;
    write_states(alloc, text, states)?;
    let count = count_left_out(drawn);
    let end = format!(in alloc; "<TD>not drawn {count}</TD></TR></TABLE>>;\n")?;
    text.extend_from_slice(end.as_bytes())
}
