//! The worked rows of plans by the links of Linux: what a row gives is what the definitions say of it, worked by hand.

#[cfg(test)]
mod drivers;
#[cfg(test)]
mod kernel_rows;
#[cfg(test)]
mod links;
#[cfg(test)]
mod lost;
#[cfg(test)]
mod many;
#[cfg(test)]
mod pictures;
#[cfg(test)]
mod rows;
#[cfg(test)]
mod rules;
