// The questions of documents 01 and 02 of a study in rows: 6 to 11, 19 and 23, the reach search among them, and 14 to 16 and 20 of a flow table
// and its share. Nothing here knows of a file.
#![tactic(auto)]

mod fields;
mod marks;
mod numbers;
mod reach;
mod refusal;
mod table;

pub use fields::total_trips;
pub use refusal::study_refusal;
pub use table::table_refusal;
