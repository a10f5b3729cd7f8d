//! The worked rows of diagnoses: what is said of a refusal, and where it is, worked by hand.

#[cfg(test)]
mod alike;
#[cfg(test)]
mod blobs;
#[cfg(test)]
mod bus_texts;
#[cfg(test)]
mod dtc;
#[cfg(test)]
mod examples;
#[cfg(test)]
mod json;
#[cfg(test)]
mod mistakes;
#[cfg(test)]
mod natures;
#[cfg(test)]
mod places;
#[cfg(test)]
mod refused;
#[cfg(test)]
mod schedules;
#[cfg(test)]
mod shown;
#[cfg(test)]
mod sources;
