ghost use Rattle.std.specs.Prelude.{◌≡◌, length};
ghost use Rattle.network.specs.Decoded.{Room};
ghost use Rattle.refusals.specs.Places.{curve_places};
ghost use Rattle.calls.specs.Calls.{pass_answer, pass_table, pass_note};
ghost use Rattle.passes.specs.Answers.{outcome_of};

use crate::answers::refused_pass;
use calls::{Outcome, PassAnswer};
use network::{ALL_ENTRIES, CAR_ENTRIES, SHORT_ENTRIES, SHORT_LINKS, has_lorries};
use refusals::{curve_places, is_small, note_refusal};
use travel::{ALL_LISTS, ONE_LIST, TOTAL};

// Pass: judges the table, then moves it and fills the note.
pub fn pass(file: &[u8], table: &mut [u32], share: u32, note: &mut [u16]) -> PassAnswer
    ensures value { result ≡ pass_answer file.now table.old share note.old }
    ensures table_after { table.new ≡ pass_table file.now table.old share note.old }
    ensures note_after { note.new ≡ pass_note file.now table.old share note.old }
{
    if is_small(file) {
        let mut rows = [[0u16, 0, 0, 0, 0, 0]; SHORT_LINKS];
        let mut entries = [0u16; SHORT_ENTRIES];
        let mut curves = [0u64; ONE_LIST];
        return pass_in(
            file,
            table,
            share,
            note,
            &mut rows,
            &mut entries,
            &mut curves,
        );
    }
    let mut rows = [[0u16, 0, 0, 0, 0, 0]; 512];
    let mut curves = [0u64; ALL_LISTS];
    let curves = &mut curves[..curve_places(file)];
    if has_lorries(file) {
        let mut entries = [0u16; ALL_ENTRIES];
        return pass_in(file, table, share, note, &mut rows, &mut entries, curves);
    }
    let mut entries = [0u16; CAR_ENTRIES];
    pass_in(file, table, share, note, &mut rows, &mut entries, curves)
}

// The same, in places that are lent for the rows of its links and trips and for the links' curves.
fn pass_in(
    file: &[u8],
    table: &mut [u32],
    share: u32,
    note: &mut [u16],
    rows: &mut [[u16; 6]],
    entries: &mut [u16],
    curves: &mut [u64],
) -> PassAnswer
    requires { Room file.now (length rows.old) (length entries.old) × (length curves.old ≡ curve_places file.now) }
    ensures value { result ≡ pass_answer file.now table.old share note.old }
    ensures table_after { table.new ≡ pass_table file.now table.old share note.old }
    ensures note_after { note.new ≡ pass_note file.now table.old share note.old }
{
    let mut places = [0u16; 64];
    let opening = network::decode(file, rows, &mut places, entries);
    let n = opening.nodes;
    let m = opening.links;
    let count = opening.commodities;
    let links = &rows[..m];
    let commodities = &places[..count];
    let trips = &entries[..count * n];
    let mut flows = [[0u64; 512]; 2];
    let refusal = note_refusal(
        file,
        opening.refusal,
        n,
        links,
        commodities,
        trips,
        table,
        share,
        note,
        &mut flows[TOTAL],
    );
    let refused = refusal != 0;
    if refused {
        return refused_pass(refusal);
    }
    let passed = judging::pass_table(
        n,
        links,
        commodities,
        trips,
        table,
        share,
        &mut flows,
        curves,
        note,
    );
    let outcome = outcome_of(passed.moved);
    PassAnswer {
        refusal: 0,
        outcome,
        gap: passed.gap,
        cost: passed.cost,
        share: passed.share,
        over: passed.over,
    }
}

fn outcome_of(moved: bool) -> Outcome
    ensures { result ≡ outcome_of moved }
{
    if moved {
        Outcome::Moved
    } else {
        Outcome::Finest
    }
}
