//! The tests, a file for each subject.

mod certificate_faults;
mod certificate_fronts;
mod certificates;
mod group_certificates;
mod moment_certificates;
mod narrowing_certificates;
mod narrowing_counts;
mod narrowing_prices;
mod span_certificates;
mod truck_certificates;
mod way_certificates;
