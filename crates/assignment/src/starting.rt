ghost use Rattle.std.specs.Prelude.{◌≡◌, ◌*◌, ◌≤◌, length};
ghost use Rattle.network.specs.Decoded.{Room};
ghost use Rattle.refusals.specs.Places.{curve_places};
ghost use Rattle.theory.specs.Moves.{started};
ghost use Rattle.theory.specs.Study.{network};
ghost use Rattle.calls.specs.Calls.{overwritten, start_number, start_table};
ghost use Rattle.travel.specs.Ranges.{CurveRoom};
ghost use Rattle.judging.specs.Study.{study_of, Ready};
ghost use Rattle.judging.specs.Classes.{ChainRoom, RowRoom};

use network::{ALL_ENTRIES, CAR_ENTRIES, SHORT_ENTRIES, SHORT_LINKS, has_lorries};
use refusals::{curve_places, is_small, start_refusal};
use theory::{NO_LINK, car_count};
use travel::{ALL_LISTS, ONE_LIST};

// Start: W = 1, the table is the loading at empty roads.
pub fn start(file: &[u8], table: &mut [u32]) -> u8
    ensures value { result ≡ start_number file.now table.old }
    ensures table_after { table.new ≡ start_table file.now table.old }
{
    if is_small(file) {
        let mut rows = [[0u16, 0, 0, 0, 0, 0]; SHORT_LINKS];
        let mut entries = [0u16; SHORT_ENTRIES];
        let mut curves = [0u64; ONE_LIST];
        return start_in(file, table, &mut rows, &mut entries, &mut curves);
    }
    let mut rows = [[0u16, 0, 0, 0, 0, 0]; 512];
    let mut curves = [0u64; ALL_LISTS];
    let curves = &mut curves[..curve_places(file)];
    if has_lorries(file) {
        let mut entries = [0u16; ALL_ENTRIES];
        return start_in(file, table, &mut rows, &mut entries, curves);
    }
    let mut entries = [0u16; CAR_ENTRIES];
    start_in(file, table, &mut rows, &mut entries, curves)
}

// The same, in places that are lent for the rows of its links and trips and for the links' curves.
fn start_in(
    file: &[u8],
    table: &mut [u32],
    rows: &mut [[u16; 6]],
    entries: &mut [u16],
    curves: &mut [u64],
) -> u8
    requires { Room file.now (length rows.old) (length entries.old) × (length curves.old ≡ curve_places file.now) }
    ensures value { result ≡ start_number file.now table.old }
    ensures table_after { table.new ≡ start_table file.now table.old }
{
    let mut places = [0u16; 64];
    let opening = network::decode(file, rows, &mut places, entries);
    let n = opening.nodes;
    let m = opening.links;
    let count = opening.commodities;
    let links = &rows[..m];
    let commodities = &places[..count];
    let trips = &entries[..count * n];
    let refusal = start_refusal(file, opening.refusal, n, links, commodities, trips, table);
    if refusal != 0 {
        return refusal;
    }
    load_start(n, links, commodities, trips, curves, table);
    0
}

// Puts the loading at empty roads of a study that its questions accept into the table: in places for the commodities of cars alone, or for as many of
// lorries too.
fn load_start(
    nodes: usize,
    links: &[[u16; 6]],
    commodities: &[u16],
    trips: &[u16],
    curves: &mut [u64],
    table: &mut [u32],
)
    requires ready { Ready (study_of nodes links.now commodities.now trips.now) × CurveRoom links.now (length curves.old) }
    requires links_in_bounds { length commodities.now * length links.now ≤ length table.old }
    ensures { table.new ≡ overwritten (started (network nodes links.now commodities.now trips.now)).table table.old }
{
    if car_count(commodities) < commodities.len() {
        let mut chains = [[NO_LINK; 896]; 4];
        let mut next = [[0u16; 128]; 64];
        let mut volumes = [[0u16; 128]; 64];
        load_start_in(
            nodes,
            links,
            commodities,
            trips,
            curves,
            table,
            &mut chains,
            &mut next,
            &mut volumes,
        );
        return;
    }
    let mut chains = [[NO_LINK; 896]; 2];
    let mut next = [[0u16; 128]; 32];
    let mut volumes = [[0u16; 128]; 32];
    load_start_in(
        nodes,
        links,
        commodities,
        trips,
        curves,
        table,
        &mut chains,
        &mut next,
        &mut volumes,
    );
}

// The same, in rows that are lent for the chains of the links, the next links and the volumes of the loading.
fn load_start_in(
    nodes: usize,
    links: &[[u16; 6]],
    commodities: &[u16],
    trips: &[u16],
    curves: &mut [u64],
    table: &mut [u32],
    chains: &mut [[u16; 896]],
    next: &mut [[u16; 128]],
    volumes: &mut [[u16; 128]],
)
    requires ready { Ready (study_of nodes links.now commodities.now trips.now) × CurveRoom links.now (length curves.old) }
    requires links_in_bounds { length commodities.now * length links.now ≤ length table.old }
    requires chain_room { ChainRoom (study_of nodes links.now commodities.now trips.now) chains.old × RowRoom (length commodities.now) next.old volumes.old }
    ensures { table.new ≡ overwritten (started (network nodes links.now commodities.now trips.now)).table table.old }
{
    let mut times = [0u32; 512];
    let mut flows = [[0u64; 512]; 2];
    travel::put_powers(curves);
    judging::put_class_chains(nodes, links, commodities, trips, chains);
    judging::start_table(
        nodes,
        links,
        commodities,
        trips,
        chains,
        curves,
        table,
        &mut times,
        next,
        volumes,
        &mut flows,
    );
}
