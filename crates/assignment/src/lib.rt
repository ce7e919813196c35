// Document 01's start, audit and run, over any bytes, any lent table, any share, budget and excess: no call has a `requires`. A refusal
// carries its number and 0 in every other field, and leaves the lent table as it was.
#![tactic(auto)]

mod answers;
mod auditing;
mod running;
mod starting;

pub use answers::refused_run;
pub use auditing::audit;
pub use running::{run, run_from};
pub use starting::start;

// What is asked of a run, and where it sets out: from a start, or, resumed, from the table that it has after so many moves, at its share.
#[derive(Clone, Copy)]
pub struct Course {
    pub budget: u32,
    pub excess: u16,
    pub moves: u32,
    pub share: u32,
    pub resumed: bool,
}
