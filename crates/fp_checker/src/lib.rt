//! Tests a certificate: whether what it tells makes its claim true for an instance and its
//! windows.
//!
//! The problem is that of Boland, Hewitt, Marshall and Savelsbergh, "The Continuous-Time Service
//! Network Design Problem", Operations Research 65, 2017. Certificates are this project's own.
#![tactic(auto)]

mod cases;
mod checks;
mod rejections;
mod rules;

pub use checks::{check, plan_of};
pub use rejections::Rejected;

/// The error of a call that finds no memory.
pub type NoMemory = std::alloc::AllocError;
