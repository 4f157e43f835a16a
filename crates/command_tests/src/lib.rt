//! Tests of the program's commands that need readers and writers that fail, or devices in memory. They call only public functions, so no
//! other library is proved again for them.
#![tactic(auto)]

#[cfg(test)]
mod commands;
#[cfg(test)]
mod output;
