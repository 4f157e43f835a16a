//! Tests of the journal that threads share. They call public functions alone, so that no other library is proved again for them.
//! `journals` is for the tests of services too.
#![tactic(auto)]

#[cfg(test)]
mod expected;
#[cfg(test)]
mod four;
#[cfg(test)]
mod held;
pub mod journals;
#[cfg(test)]
mod threads;
#[cfg(test)]
mod waiting;
