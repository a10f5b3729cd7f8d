//! Tests of dtc's command line.

#[cfg(test)]
mod forms;
#[cfg(test)]
mod printed;
#[cfg(test)]
mod refusals;
#[cfg(test)]
mod rooms;
#[cfg(test)]
mod runs;
#[cfg(test)]
mod several;
#[cfg(test)]
mod untrue;
