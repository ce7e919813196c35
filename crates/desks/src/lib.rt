// (A.8) Several desks, one machine: up to eight studies, each with its own flow table, budget and excess, share the turns of an allowance. The call
// has no `requires`: a refusal of the whole call has 0 in every other field, and leaves all tables as they were.
#![tactic(auto)]

mod answers;
mod calling;
mod rounds;
mod seats;
mod serving;
mod waiting;

pub use calling::desks;

// What is lent at a seat: a study, with its own flow table, budget and excess.
#[derive(Drop)]
pub struct Desk<'a> {
    pub file: &'a [u8],
    pub table: &'a mut [u32],
    pub budget: u32,
    pub excess: u16,
}

// How far the turns go round: each seat has had as many turns as there are whole rounds, and those before a seat one more. Ended desks had fewer.
#[derive(Clone, Copy)]
pub struct Round {
    pub whole: u32,
    pub before: usize,
}
