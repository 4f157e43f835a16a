//! Tests of devices over real files. They call public functions alone, so that no other library is proved again for them.
#![tactic(auto)]

#[cfg(test)]
mod bytes;
#[cfg(test)]
mod expected;
#[cfg(test)]
mod files;
#[cfg(test)]
mod gathered;
#[cfg(test)]
mod locks;
