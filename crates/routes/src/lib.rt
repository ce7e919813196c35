// Next links, from least times for eight commodities side by side.
#![tactic(auto)]

mod next;

pub use next::{complete_table, next_table};
