//! Tests of `check` in memory: which certificates it accepts, rejects and refuses.
#![tactic(auto)]

#[cfg(test)]
mod tests;
