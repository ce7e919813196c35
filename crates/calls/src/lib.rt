// The answers of document 01's calls, as values. What each call answers, for any bytes, is defined in specs/; this crate has no code.
#![tactic(auto)]

// How a run ended. A refused run has no ending. Of several desks (A.8), one that the allowance cut off is waiting.
#[derive(Clone, Copy)]
pub enum Ending {
    Refused,
    Reached,
    Finest,
    Spent,
    Waiting,
}

// What a pass did. A refused pass did nothing.
#[derive(Clone, Copy)]
pub enum Outcome {
    Refused,
    Moved,
    Finest,
}

// In each answer `refusal` is the number of the first question that refused, or 0, and a refusal has 0 in every other field. `over` counts the
// links of the judged table that are past their curves (A.4).
#[derive(Clone, Copy)]
pub struct RunAnswer {
    pub refusal: u8,
    pub ending: Ending,
    pub judged: u32,
    pub share: u32,
    pub gap: u64,
    pub cost: u64,
    pub over: u32,
}

#[derive(Clone, Copy)]
pub struct PassAnswer {
    pub refusal: u8,
    pub outcome: Outcome,
    pub gap: u64,
    pub cost: u64,
    pub share: u32,
    pub over: u32,
}

#[derive(Clone, Copy)]
pub struct AuditAnswer {
    pub refusal: u8,
    pub gap: u64,
    pub cost: u64,
    pub over: u32,
}

// (A.6) Taking back: the resulting share.
#[derive(Clone, Copy)]
pub struct TakeBackAnswer {
    pub refusal: u8,
    pub share: u32,
}

// (A.8) Several desks: the total of turns, and what each of the eight seats answers.
#[derive(Clone, Copy)]
pub struct DesksAnswer {
    pub refusal: u8,
    pub turns: u32,
    pub seats: [RunAnswer; 8],
}
