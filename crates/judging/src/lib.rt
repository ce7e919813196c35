// Judging a table: its totals, times, next links, loading, gap and cost, and the move that a pass makes of it. Nothing here knows of
// bytes: a study stands decoded in rows.
#![tactic(auto)]

mod audit;
mod classes;
mod gaps;
mod judge;
mod note;
mod pass;
mod start;
mod turns;

pub use audit::audit_table;
pub use classes::put_class_chains;
pub use pass::pass_table;
pub use start::{first_table, start_table};
pub use turns::turn_table;

// The gap and cost of a judged table, and how many of its links are over.
#[derive(Clone, Copy)]
pub struct Sums {
    pub gap: u64,
    pub cost: u64,
    pub over: u32,
}

// What a pass does: whether it moved the table, and the new share. The other numbers are of the judged table.
#[derive(Clone, Copy)]
pub struct Passed {
    pub moved: bool,
    pub share: u32,
    pub gap: u64,
    pub cost: u64,
    pub over: u32,
}

// How a turn of a run goes on from the table that it judges.
#[derive(Clone, Copy)]
pub enum Step {
    Reached,
    Finest,
    Spent,
    Moved,
}

// Where a run stands before a turn: the table's share, whether the arrays that it is lent hold already what judging the table computes, a
// guess of j, and what ends the run: a gap of at most limit × share, and the budget, if this is the last turn of it.
#[derive(Clone, Copy)]
pub struct Standing {
    pub share: u32,
    pub known: bool,
    pub guess: u32,
    pub limit: u64,
    pub last: bool,
}

// One turn of a run: one judged table, its gap, the share after the turn, and whether the arrays that it was lent hold what judging the table
// after the turn computes: they do where it doubled the table.
#[derive(Clone, Copy)]
pub struct Turn {
    pub step: Step,
    pub share: u32,
    pub gap: u64,
    pub known: bool,
}
