//! The worked rows of the checks: what each tells of a source, as dtc 1.6.1 tells it.

#[cfg(test)]
mod buses;
#[cfg(test)]
mod checks;
#[cfg(test)]
mod lines;
#[cfg(test)]
mod links;
#[cfg(test)]
mod nodes;
#[cfg(test)]
mod own;
#[cfg(test)]
mod references;
#[cfg(test)]
mod spots;
#[cfg(test)]
mod standing;
#[cfg(test)]
mod telling;
#[cfg(test)]
mod wordings;
