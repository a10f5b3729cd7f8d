//! The worked rows of why devices wait, of what they need, and of what Linux says of its modules and boots: what a row gives is worked
//! by hand from the definitions.

#[cfg(test)]
mod boot_logs;
#[cfg(test)]
mod chains;
#[cfg(test)]
mod device_names;
#[cfg(test)]
mod modules;
#[cfg(test)]
mod orders;
