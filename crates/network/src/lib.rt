// Document 01: a study file as rows. Decoding, check and pack. Nothing here knows of flow tables or
// shares.
#![tactic(auto)]

mod checking;
mod decoding;
mod packing;

pub use checking::check;
pub use decoding::{
    ALL_ENTRIES, CAR_ENTRIES, Opening, SHORT, SHORT_ENTRIES, SHORT_LINKS, decode, has_lorries,
};
pub use packing::pack;
