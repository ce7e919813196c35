// What the calls on a table share before they judge it, over a file whose fields are decoded: the numbers of their questions, and the sizes of
// the places that they lend.
#![tactic(auto)]

mod numbers;
mod places;

pub use numbers::{budget_fits, note_refusal, run_refusal, start_refusal, totals_refusal};
pub use places::{FEW_COMMODITIES, curve_places, is_small};
