//! The worked rows of the program over memory, as tables, and the places of its refusals of overlays and plans.

#[cfg(test)]
mod answers;
#[cfg(test)]
mod labels;
#[cfg(test)]
mod overlay_places;
#[cfg(test)]
mod plan_places;
#[cfg(test)]
mod programs;
