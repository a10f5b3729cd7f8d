//! What the C preprocessor makes of texts, by rows that gcc gives, too.

#[cfg(test)]
mod files;
#[cfg(test)]
mod limits;
#[cfg(test)]
mod refusals;
#[cfg(test)]
mod rows;
#[cfg(test)]
mod shelf;
