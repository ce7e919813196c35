ghost use Rattle.std.specs.Prelude.{◌≡◌, length};
ghost use Rattle.network.specs.Decoded.{Room};
ghost use Rattle.refusals.specs.Places.{curve_places};
ghost use Rattle.calls.specs.Calls.{audit_answer};

use crate::answers::refused_audit;
use calls::AuditAnswer;
use network::{ALL_ENTRIES, CAR_ENTRIES, SHORT_ENTRIES, SHORT_LINKS, has_lorries};
use refusals::{curve_places, is_small, totals_refusal};
use travel::{ALL_LISTS, ONE_LIST};

// Audit: the gap and cost of a lent table, whoever made it, and how many of its links are over.
pub fn audit(file: &[u8], table: &[u32], share: u32) -> AuditAnswer
    ensures { result ≡ audit_answer file.now table.now share }
{
    if is_small(file) {
        let mut rows = [[0u16, 0, 0, 0, 0, 0]; SHORT_LINKS];
        let mut entries = [0u16; SHORT_ENTRIES];
        let mut curves = [0u64; ONE_LIST];
        return audit_in(file, table, share, &mut rows, &mut entries, &mut curves);
    }
    let mut rows = [[0u16, 0, 0, 0, 0, 0]; 512];
    let mut curves = [0u64; ALL_LISTS];
    let curves = &mut curves[..curve_places(file)];
    if has_lorries(file) {
        let mut entries = [0u16; ALL_ENTRIES];
        return audit_in(file, table, share, &mut rows, &mut entries, curves);
    }
    let mut entries = [0u16; CAR_ENTRIES];
    audit_in(file, table, share, &mut rows, &mut entries, curves)
}

// The same, in places that are lent for the rows of its links and trips and for the links' curves.
fn audit_in(
    file: &[u8],
    table: &[u32],
    share: u32,
    rows: &mut [[u16; 6]],
    entries: &mut [u16],
    curves: &mut [u64],
) -> AuditAnswer
    requires { Room file.now (length rows.old) (length entries.old) × (length curves.old ≡ curve_places file.now) }
    ensures { result ≡ audit_answer file.now table.now share }
{
    let mut places = [0u16; 64];
    let opening = network::decode(file, rows, &mut places, entries);
    let n = opening.nodes;
    let m = opening.links;
    let count = opening.commodities;
    let links = &rows[..m];
    let commodities = &places[..count];
    let trips = &entries[..count * n];
    let mut totals = [0u64; 512];
    let refusal = totals_refusal(
        file,
        opening.refusal,
        n,
        links,
        commodities,
        trips,
        table,
        share,
        &mut totals,
    );
    if refusal != 0 {
        return refused_audit(refusal);
    }
    let sums = judging::audit_table(n, links, commodities, trips, table, share, &totals, curves);
    AuditAnswer {
        refusal: 0,
        gap: sums.gap,
        cost: sums.cost,
        over: sums.over,
    }
}
