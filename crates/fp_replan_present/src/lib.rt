//! A day that is under way: the present, legs that have left or whose arrival is told, what is left
//! of the day as an instance of its own, and the windows in which exactly the plans lie that go on.
#![tactic(auto)]

mod arrivals;
mod codes;
mod days;
mod drafts;
mod faults;
mod laws;
mod parts;
mod presents;
mod promised_legs;
mod reading;
mod rest_windows;
mod rests;
mod standings;
mod times;
mod tracked_legs;
mod whole_plans;

pub use days::left;
pub use faults::PresentFault;
pub use laws::{goes_on_as_kept, reads_as_kept};
pub use presents::{Present, Tracked};
pub use reading::{read, read_with_index};
pub use rest_windows::windows;
pub use rests::{Left, Rest};
pub use whole_plans::joined;

/// The error of a call that finds no memory.
pub type NoMemory = std::alloc::AllocError;
