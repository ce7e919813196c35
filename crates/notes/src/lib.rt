// The note of a pass: written, followed, and its loading taken back out of a table. Nothing here knows of times or bytes: a study stands
// decoded in rows.
#![tactic(auto)]

mod following;
mod lessening;
mod taking;
mod writing;

pub use taking::take_back_table;
pub use writing::{put_links, put_no_links};

// What taking back does with a table: the number of question 21 or 22, or 0, and the resulting share, 0 where it is refused.
#[derive(Clone, Copy)]
pub struct Taken {
    pub refusal: u8,
    pub share: u32,
}
