//! Tests of what is asked of blobs: `diff`, `get`, `set`, `ls`, and the tools of dtc's package that read and write them.

#[cfg(test)]
mod asking;
#[cfg(test)]
mod boards;
#[cfg(test)]
mod differing;
#[cfg(test)]
mod folders;
#[cfg(test)]
mod layouts;
#[cfg(test)]
mod renumbered;
#[cfg(test)]
mod tools;
