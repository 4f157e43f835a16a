//! Tests that can't be rows of data. They call public functions alone, so that no other library is proved again for them.
#![tactic(auto)]

#[cfg(test)]
mod ahead;
#[cfg(test)]
mod closes;
#[cfg(test)]
mod credits;
#[cfg(test)]
mod expected;
#[cfg(test)]
mod holders;
#[cfg(test)]
mod newest;
