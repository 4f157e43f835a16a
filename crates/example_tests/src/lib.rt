//! Tests of what stands on the whole library: the two stores, and clients of a type of one's own. They call public functions alone.
#![tactic(auto)]

#[cfg(test)]
mod expected;
#[cfg(test)]
mod own;
#[cfg(test)]
mod store;
#[cfg(test)]
mod threads;
