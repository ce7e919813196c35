// A pass. Data flows once: totals, which the questions need already, times, next links and the loading are computed once.
ghost use Rattle.std.specs.Prelude.{◌≡◌, ◌*◌, ◌<◌, [], ◌∷◌, length, replicate};
ghost use Rattle.theory.specs.Study.{network};
ghost use Rattle.travel.specs.Links.{table_totals};
ghost use Rattle.travel.specs.Ranges.{CurveRoom};
ghost use Rattle.judging.specs.Study.{study_of, Judgeable};
ghost use Rattle.judging.specs.Classes.{ChainRoom, RowRoom};
ghost use Rattle.judging.specs.Judged.{PassedOn};

use crate::Passed;
use crate::classes::put_class_chains;
use crate::gaps::gap_of;
use crate::judge::judge;
use crate::note::put_note;
use theory::{NO_LINK, car_count};
use travel::TOTAL;

// Pass: judges the table, whose totals stand in `flows` with no loads yet, then moves it and fills the note. It is judged in places for the
// commodities of cars alone, or for as many of lorries too.
pub fn pass_table(
    nodes: usize,
    links: &[[u16; 6]],
    commodities: &[u16],
    trips: &[u16],
    table: &mut [u32],
    share: u32,
    flows: &mut [[u64; 512]; 2],
    curves: &mut [u64],
    note: &mut [u16],
) -> Passed
    requires judgeable { Judgeable (study_of nodes links.now commodities.now trips.now) table.old share }
    requires flows_value { flows.old ≡ table_totals links.now commodities.now table.old ∷ replicate 512 0 ∷ [] }
    requires curve_room { CurveRoom links.now (length curves.old) × (length commodities.now * nodes < length note.old) }
    ensures { PassedOn (network nodes links.now commodities.now trips.now) table.old share note.old result table.new note.new }
{
    if car_count(commodities) < commodities.len() {
        let mut next = [[0u16; 128]; 64];
        let mut volumes = [[0u16; 128]; 64];
        let mut chains = [[NO_LINK; 896]; 4];
        return pass_in(
            nodes,
            links,
            commodities,
            trips,
            table,
            share,
            flows,
            curves,
            note,
            &mut chains,
            &mut next,
            &mut volumes,
        );
    }
    let mut next = [[0u16; 128]; 32];
    let mut volumes = [[0u16; 128]; 32];
    let mut chains = [[NO_LINK; 896]; 2];
    pass_in(
        nodes,
        links,
        commodities,
        trips,
        table,
        share,
        flows,
        curves,
        note,
        &mut chains,
        &mut next,
        &mut volumes,
    )
}

// The same, in rows that are lent for the chains of the links, the next links and the volumes of the loading. With no turn before it to take a guess
// of j from, it guesses an eighth of the share, near which the choices of runs often are.
fn pass_in(
    nodes: usize,
    links: &[[u16; 6]],
    commodities: &[u16],
    trips: &[u16],
    table: &mut [u32],
    share: u32,
    flows: &mut [[u64; 512]; 2],
    curves: &mut [u64],
    note: &mut [u16],
    chains: &mut [[u16; 896]],
    next: &mut [[u16; 128]],
    volumes: &mut [[u16; 128]],
) -> Passed
    requires judgeable { Judgeable (study_of nodes links.now commodities.now trips.now) table.old share }
    requires flows_value { flows.old ≡ table_totals links.now commodities.now table.old ∷ replicate 512 0 ∷ [] }
    requires curve_room { CurveRoom links.now (length curves.old) × (length commodities.now * nodes < length note.old) }
    requires chain_room { ChainRoom (study_of nodes links.now commodities.now trips.now) chains.old × RowRoom (length commodities.now) next.old volumes.old }
    ensures { PassedOn (network nodes links.now commodities.now trips.now) table.old share note.old result table.new note.new }
{
    let mut times = [0u32; 512];
    let m = links.len();
    put_class_chains(nodes, links, commodities, trips, chains);
    travel::put_powers(curves);
    travel::put_reciprocals(curves, links);
    judge(
        nodes,
        links,
        commodities,
        trips,
        chains,
        curves,
        share,
        false,
        &mut times,
        next,
        volumes,
        flows,
    );
    let gap = gap_of(&times, flows, m, share);
    let j = travel::chosen(links, flows, share, share / 8, gap, curves);
    let moved = moves::can_move(share, j);
    let after = moves::move_table(table, nodes, m, commodities, next, volumes, share, j);
    put_note(
        nodes,
        links,
        commodities,
        trips,
        chains,
        &times,
        next,
        j,
        2 * share,
        note,
    );
    let costs = travel::cost(links, &flows[TOTAL], share, curves);
    Passed {
        moved,
        share: after,
        gap,
        cost: costs.cost,
        over: costs.over,
    }
}
