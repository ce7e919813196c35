ghost use Rattle.std.specs.Prelude.{◌≡◌, length};
ghost use Rattle.calls.specs.Calls.{page_number, page_slice};
ghost use Rattle.network.specs.Decoded.{Room};
ghost use Rattle.refusals.specs.Places.{curve_places};
ghost use Rattle.pages.specs.Lines.{after_audit};

use crate::lines::put_lines;
use network::{ALL_ENTRIES, CAR_ENTRIES, SHORT_ENTRIES, SHORT_LINKS, has_lorries};
use refusals::{curve_places, is_small};
use travel::{ALL_LISTS, ONE_LIST};

// Page: writes the page of a lent table that the audit accepts into the first bytes of a page slice.
pub fn page(file: &[u8], table: &[u32], share: u32, page: &mut [u8]) -> u8
    ensures value { result ≡ page_number file.now table.now share page.old }
    ensures page_after { page.new ≡ page_slice file.now table.now share page.old }
{
    if is_small(file) {
        let mut rows = [[0u16, 0, 0, 0, 0, 0]; SHORT_LINKS];
        let mut entries = [0u16; SHORT_ENTRIES];
        let mut curves = [0u64; ONE_LIST];
        return page_in(
            file,
            table,
            share,
            page,
            &mut rows,
            &mut entries,
            &mut curves,
        );
    }
    let mut rows = [[0u16, 0, 0, 0, 0, 0]; 512];
    let mut curves = [0u64; ALL_LISTS];
    let curves = &mut curves[..curve_places(file)];
    if has_lorries(file) {
        let mut entries = [0u16; ALL_ENTRIES];
        return page_in(file, table, share, page, &mut rows, &mut entries, curves);
    }
    let mut entries = [0u16; CAR_ENTRIES];
    page_in(file, table, share, page, &mut rows, &mut entries, curves)
}

// The same, in places that are lent for the rows of its links and trips and for the links' curves.
fn page_in(
    file: &[u8],
    table: &[u32],
    share: u32,
    page: &mut [u8],
    rows: &mut [[u16; 6]],
    entries: &mut [u16],
    curves: &mut [u64],
) -> u8
    requires { Room file.now (length rows.old) (length entries.old) × (length curves.old ≡ curve_places file.now) }
    ensures value { result ≡ page_number file.now table.now share page.old }
    ensures page_after { page.new ≡ page_slice file.now table.now share page.old }
{
    let mut places = [0u16; 64];
    let opening = network::decode(file, rows, &mut places, entries);
    let n = opening.nodes;
    let m = opening.links;
    let count = opening.commodities;
    let links = &rows[..m];
    let commodities = &places[..count];
    let trips = &entries[..count * n];
    let mut flows = [0u64; 512];
    let audited = refusals::totals_refusal(
        file,
        opening.refusal,
        n,
        links,
        commodities,
        trips,
        table,
        share,
        &mut flows,
    );
    let refusal = page_refusal(audited, 30 * links.len(), page.len());
    if refusal != 0 {
        return refusal;
    }
    travel::put_powers(curves);
    put_lines(links, &flows, share, curves, page);
    0
}

// The audit's number, and then question 18, of a slice with so much room.
fn page_refusal(audited: u8, size: usize, room: usize) -> u8
    ensures { result ≡ after_audit audited size room }
{
    if audited != 0 {
        return audited;
    }
    if room < size {
        return 18;
    }
    0
}
