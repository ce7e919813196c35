// The loading of all commodities, with its totals, and what a move makes of a table and its totals.
#![tactic(auto)]

mod loads;
mod moves;
mod widths;

pub use loads::{add_classes, load, load_volumes};
pub use moves::{can_move, empty_flows, move_table, move_totals};
