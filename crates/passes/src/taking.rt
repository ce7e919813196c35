ghost use Rattle.std.specs.Prelude.{◌≡◌, ◌≤◌, length};
ghost use Rattle.theory.specs.Study.{network};
ghost use Rattle.theory.specs.Classes.{car_count};
ghost use Rattle.network.specs.Decoded.{Room};
ghost use Rattle.calls.specs.Calls.{take_back_answer, take_back_table};
ghost use Rattle.notes.specs.Taken.{Takeable, TakenOn};

use crate::answers::refused_take_back;
use calls::TakeBackAnswer;
use network::{ALL_ENTRIES, CAR_ENTRIES, SHORT, SHORT_ENTRIES, SHORT_LINKS, has_lorries};
use notes::Taken;
use refusals::{FEW_COMMODITIES, note_refusal};
use theory::car_count;

// Taking back: lessens the table by the loading of the note that a pass filled, or halves it.
pub fn take_back(file: &[u8], table: &mut [u32], share: u32, note: &[u16]) -> TakeBackAnswer
    ensures value { result ≡ take_back_answer file.now table.old share note.now }
    ensures table_after { table.new ≡ take_back_table file.now table.old share note.now }
{
    if file.len() <= SHORT {
        let mut rows = [[0u16, 0, 0, 0, 0, 0]; SHORT_LINKS];
        let mut entries = [0u16; SHORT_ENTRIES];
        return take_back_in(file, table, share, note, &mut rows, &mut entries);
    }
    let mut rows = [[0u16, 0, 0, 0, 0, 0]; 512];
    if has_lorries(file) {
        let mut entries = [0u16; ALL_ENTRIES];
        return take_back_in(file, table, share, note, &mut rows, &mut entries);
    }
    let mut entries = [0u16; CAR_ENTRIES];
    take_back_in(file, table, share, note, &mut rows, &mut entries)
}

// The same, in places that are lent for the rows of its links and trips.
fn take_back_in(
    file: &[u8],
    table: &mut [u32],
    share: u32,
    note: &[u16],
    rows: &mut [[u16; 6]],
    entries: &mut [u16],
) -> TakeBackAnswer
    requires { Room file.now (length rows.old) (length entries.old) }
    ensures value { result ≡ take_back_answer file.now table.old share note.now }
    ensures table_after { table.new ≡ take_back_table file.now table.old share note.now }
{
    let mut places = [0u16; 64];
    let opening = network::decode(file, rows, &mut places, entries);
    let n = opening.nodes;
    let m = opening.links;
    let count = opening.commodities;
    let links = &rows[..m];
    let commodities = &places[..count];
    let trips = &entries[..count * n];
    let mut totals = [0u64; 512];
    let refusal = note_refusal(
        file,
        opening.refusal,
        n,
        links,
        commodities,
        trips,
        table,
        share,
        note,
        &mut totals,
    );
    if refusal != 0 {
        return refused_take_back(refusal);
    }
    let taken = take_by_note(n, links, commodities, trips, table, share, note);
    TakeBackAnswer {
        refusal: taken.refusal,
        share: taken.share,
    }
}

// Takes the loading of a note back out of a table that its questions accept: in places for few commodities, for those of cars alone, or for as
// many of lorries too.
fn take_by_note(
    nodes: usize,
    links: &[[u16; 6]],
    commodities: &[u16],
    trips: &[u16],
    table: &mut [u32],
    share: u32,
    note: &[u16],
) -> Taken
    requires { Takeable nodes links.now commodities.now trips.now table.old note.now × (car_count commodities.now ≤ 32) }
    ensures { TakenOn (network nodes links.now commodities.now trips.now) table.old share note.now result table.new }
{
    if commodities.len() <= FEW_COMMODITIES {
        let mut next = [[0u16; 128]; FEW_COMMODITIES];
        let mut volumes = [[0u16; 128]; FEW_COMMODITIES];
        return notes::take_back_table(
            nodes,
            links,
            commodities,
            trips,
            table,
            share,
            note,
            &mut next,
            &mut volumes,
        );
    }
    if car_count(commodities) < commodities.len() {
        let mut next = [[0u16; 128]; 64];
        let mut volumes = [[0u16; 128]; 64];
        return notes::take_back_table(
            nodes,
            links,
            commodities,
            trips,
            table,
            share,
            note,
            &mut next,
            &mut volumes,
        );
    }
    let mut next = [[0u16; 128]; 32];
    let mut volumes = [[0u16; 128]; 32];
    notes::take_back_table(
        nodes,
        links,
        commodities,
        trips,
        table,
        share,
        note,
        &mut next,
        &mut volumes,
    )
}
