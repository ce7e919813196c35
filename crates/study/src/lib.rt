// Document 01, 'The study file', of every version: questions 1 to 5, the counts n, m and p, each section as a part of
// the caller's bytes, and the fields of a section. Nothing here knows of flows.
#![tactic(auto)]

mod bytes;
mod fields;
mod header;
mod questions;
mod sections;
mod versions;

pub use bytes::u16_at;
pub use fields::{
    capacity, destination, free_time, head, mark_byte, power, rise, tail, trips_from,
};
pub use header::{destination_field, link_field, node_field, version};
pub use questions::refusal;
pub use sections::{
    BARRED, CLOSED, DESTINATIONS, LINKS, LORRY_TRIPS, TRIPS, accepted_section, barred, closed,
    destination_count, destinations, link_count, link_size, links, lorry_trips, node_count, trips,
};
pub use versions::{Form, form_of, section_size};
