// Document 01's check: questions 1 to 8, 19 (A.2), 23 (A.7) and 9 to 11, in order.
ghost use Rattle.std.specs.Prelude.{◌≡◌, length};
ghost use Rattle.calls.specs.Calls.{check_number};
ghost use Rattle.network.specs.Decoded.{Room};

use crate::decoding::{
    ALL_ENTRIES, CAR_ENTRIES, SHORT, SHORT_ENTRIES, SHORT_LINKS, decode, has_lorries,
};

// Check returns only the refusal number or 0.
pub fn check(file: &[u8]) -> u8
    ensures { result ≡ check_number file.now }
{
    if file.len() <= SHORT {
        let mut links = [[0u16, 0, 0, 0, 0, 0]; SHORT_LINKS];
        let mut trips = [0u16; SHORT_ENTRIES];
        return check_in(file, &mut links, &mut trips);
    }
    let mut links = [[0u16, 0, 0, 0, 0, 0]; 512];
    if has_lorries(file) {
        let mut trips = [0u16; ALL_ENTRIES];
        return check_in(file, &mut links, &mut trips);
    }
    let mut trips = [0u16; CAR_ENTRIES];
    check_in(file, &mut links, &mut trips)
}

// The same, in places that are lent for the rows of its links and trips.
fn check_in(file: &[u8], links: &mut [[u16; 6]], trips: &mut [u16]) -> u8
    requires { Room file.now (length links.old) (length trips.old) }
    ensures { result ≡ check_number file.now }
{
    let mut places = [0u16; 64];
    let opening = decode(file, links, &mut places, trips);
    let refusal = opening.refusal;
    if refusal != 0 {
        return refusal;
    }
    let n = opening.nodes;
    let m = opening.links;
    let count = opening.commodities;
    let commodities = &places[..count];
    let destinations = &commodities[..opening.destinations];
    let entries = count * n;
    // Links of fewer than 12 bytes have no powers of their own: every power is 4.
    questions::study_refusal(
        n,
        &links[..m],
        destinations,
        study::accepted_section(file, study::CLOSED),
        study::accepted_section(file, study::BARRED),
        commodities,
        &trips[..entries],
        study::link_size(file) < 12,
    )
}
