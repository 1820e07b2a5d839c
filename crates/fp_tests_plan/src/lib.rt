//! Tests of the crates that find plans of routes: values from outside, and that memory is found.
#![tactic(auto)]

#[cfg(test)]
mod tests;
