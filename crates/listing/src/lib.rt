// Document 01, the listing of the program `assign`: its bytes, written into memory that the caller
// lends.
#![tactic(auto)]

mod lines;

pub use lines::write_listing;
