// A note's loading taken back out of a table.
ghost use Rattle.std.specs.Prelude.{◌≡◌, ◌*◌, ◌≤◌, ◌<◌, length};
ghost use Rattle.theory.specs.Study.{network};
ghost use Rattle.moves.specs.Loading.{loading_along, AllFollowable};
ghost use Rattle.notes.specs.Taken.{Takeable, Refused, TakenTo, TakenOn, Halved, Lessened};

use crate::Taken;
use crate::following::follow_note;
use crate::lessening::{all_even, halve, holds_part, lessen};

// Questions 21 and 22, and where neither refuses the table lessened by j·Y and its share by j, or both halved where j is 0. What the rows of next
// links and of volumes hold before does not matter: each row that is read is written first.
pub fn take_back_table(
    nodes: usize,
    links: &[[u16; 6]],
    commodities: &[u16],
    trips: &[u16],
    table: &mut [u32],
    share: u32,
    note: &[u16],
    next: &mut [[u16; 128]],
    volumes: &mut [[u16; 128]],
) -> Taken
    requires takeable { Takeable nodes links.now commodities.now trips.now table.old note.now }
    requires commodities_in_bounds { (length commodities.now ≤ length next.old) × (length commodities.now ≤ length volumes.old) }
    ensures { TakenOn (network nodes links.now commodities.now trips.now) table.old share note.now result table.new }
{
    let j = wide(note[0]);
    if j == 0 {
        return take_half(table, commodities.len() * links.len(), share);
    }
    if !follow_note(nodes, links, commodities, trips, note, next) {
        return refused(21);
    }
    if share <= j {
        return refused(22);
    }
    take_loading(
        nodes,
        links,
        commodities,
        trips,
        table,
        share,
        next,
        volumes,
        j,
    )
}

// A number of 16 bits, as a wider one.
fn wide(x: u16) -> u32
    ensures { (result ≡ x) × (result ≤ 65535) }
{
    x as u32
}

// Takes half of a table and its share, where all numbers are even.
fn take_half(table: &mut [u32], size: usize, share: u32) -> Taken
    requires { (size ≤ length table.old) × (size ≤ 32768) }
    ensures { Halved size share table.old result table.new }
{
    if share % 2 != 0 {
        return refused(22);
    }
    if !all_even(table, size) {
        return refused(22);
    }
    halve(table, size);
    taken(share / 2)
}

// Takes j times the loading along next links out of a table and j out of its share, where no number is less than its part of it.
fn take_loading(
    nodes: usize,
    links: &[[u16; 6]],
    commodities: &[u16],
    trips: &[u16],
    table: &mut [u32],
    share: u32,
    next: &[[u16; 128]],
    volumes: &mut [[u16; 128]],
    j: u32,
) -> Taken
    requires all_followable { AllFollowable nodes links.now (length commodities.now) trips.now next.now × (length commodities.now * length links.now ≤ length table.old) × (length commodities.now ≤ length volumes.old) }
    requires j_lt_share { (j < share) × (j ≤ 65535) }
    ensures { Lessened (length commodities.now * length links.now) share j (loading_along nodes links.now (length commodities.now) trips.now next.now) table.old result table.new }
{
    let m = links.len();
    let p = commodities.len();
    moves::load_volumes(nodes, links, commodities, trips, next, volumes);
    if !holds_part(table, nodes, m, p, next, volumes, j) {
        return refused(22);
    }
    lessen(table, nodes, m, p, next, volumes, j);
    taken(share - j)
}

// A refusal, and a share that was reached.
fn refused(number: u8) -> Taken
    ensures { (result.refusal ≡ number) × (result.share ≡ 0) }
{
    Taken {
        refusal: number,
        share: 0,
    }
}

fn taken(share: u32) -> Taken
    ensures { (result.refusal ≡ 0) × (result.share ≡ share) }
{
    Taken { refusal: 0, share }
}
