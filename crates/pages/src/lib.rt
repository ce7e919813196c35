// Document 02, A.1: the page of a table that the audit accepts, 30 bytes a link. The call has no `requires`. A refusal leaves the page
// slice as it was.
#![tactic(auto)]

mod lines;
mod printing;

pub use printing::page;
