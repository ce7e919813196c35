// Least times for eight commodities side by side, the chains of the links by which they are found, and the sum of trips × least time.
#![tactic(auto)]

mod chains;
mod groups;
mod least;
mod scans;

pub use chains::{INTO, OUT, into_chain, put_chains};
pub use groups::{any_trips, group_end, group_of};
pub use least::{least_times, search};
pub use scans::Search;
