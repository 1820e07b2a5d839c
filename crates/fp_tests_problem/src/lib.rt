//! Tests of the crates up to the time-expanded network: values from outside, and that memory is
//! found.
#![tactic(auto)]

#[cfg(test)]
mod tests;
