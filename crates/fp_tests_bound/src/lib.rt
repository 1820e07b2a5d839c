//! Tests of the crates from the allowed classes to the checker: values from outside, and that
//! memory is found.
#![tactic(auto)]

#[cfg(test)]
mod tests;
