// Totals of a table, times and cost of links, and the sums behind the gap and the choice of j. Links are
// rows; numbers by link stand in arrays of 512, of which the first m count. Nothing here knows of paths
// or of the study's bytes.
#![tactic(auto)]

mod balance;
mod choice;
mod costs;
mod powers;
mod reciprocals;
mod steps;
mod table;

pub use balance::row_balances;
pub use choice::chosen;
pub use costs::{Costs, cost, product};
pub use powers::{ALL_LISTS, ONE_LIST, list_start, put_powers};
pub use reciprocals::put_reciprocals;
pub use steps::{LinkTime, link_time, times};
pub use table::{LOAD, TOTAL, totals, totals_fit, write_totals};
