// A pass over a table, and the taking back of the last one (A.6), over any bytes, any lent table and note and any share: no call has a
// `requires`. A refusal carries its number and 0 in every other field, and leaves lent memory as it was.
#![tactic(auto)]

mod answers;
mod passing;
mod taking;

pub use passing::pass;
pub use taking::take_back;
