//! What a crash leaves of changes that came one after another: the first of them. Each function of `laws` states one law; no body runs.
#![tactic(auto)]

pub mod laws;
