//! When a certificate is accepted for an instance and its windows, and that its claim is then true.
//!
//! The problem is that of Boland, Hewitt, Marshall and Savelsbergh, "The Continuous-Time Service
//! Network Design Problem", Operations Research 65, 2017. Certificates are this project's own.
#![tactic(auto)]

mod laws;
mod limits;
mod units;

pub use laws::{
    accepted_are_few, accepted_claims, narrowing_limit_is_a_number, round_limit_is_a_number,
};
pub use limits::{MOST_IN_ROUND, MOST_NARROWINGS};
pub use units::{is_unit, least_amount, reaches, rounded_below, unit_of};
