//! Tests of the services that run clients in threads. They call public functions alone, so that no other library is proved again for them.
#![tactic(auto)]

#[cfg(test)]
mod expected;
#[cfg(test)]
mod late;
#[cfg(test)]
mod service;
#[cfg(test)]
mod timed;
