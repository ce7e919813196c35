// The loading that next links give: volumes by commodity and node, its totals, and a multiple of it added to a table.
ghost use Rattle.std.specs.Prelude.{◌≡◌, ◌*◌, ◌≤◌, length, get_or};
ghost use Rattle.theory.specs.Flows.{link_total};
ghost use Rattle.travel.specs.Links.{padded};
ghost use Rattle.travel.specs.Ranges.{Clear};
ghost use Rattle.moves.specs.Loading.{loading_along, volume_rows, added_rows, AllFollowable, Addable};

use crate::widths::wide;
use theory::car_count;

// The volumes of each commodity, by node, and Y's totals: what the trips of all commodities send over each link.
pub fn load(
    nodes: usize,
    links: &[[u16; 6]],
    commodities: &[u16],
    trips: &[u16],
    next: &[[u16; 128]],
    volumes: &mut [[u16; 128]],
    loads: &mut [u64; 512],
)
    requires all_followable { AllFollowable nodes links.now (length commodities.now) trips.now next.now × (length commodities.now ≤ length volumes.old) }
    requires clear { Clear (length links.now) loads.old }
    ensures loads_after { loads.new ≡ padded (length links.now) (link_total (length commodities.now) (length links.now) (loading_along nodes links.now (length commodities.now) trips.now next.now)) }
    ensures volumes_after { volume_rows nodes (length links.now) (length commodities.now) next.now volumes.new ≡ loading_along nodes links.now (length commodities.now) trips.now next.now }
    ensures volumes_len_unchanged { length volumes.new ≡ length volumes.old }
{
    let m = links.len();
    let mut sums = [0u32; 512];
    let mut k: usize = 0;
    while k < commodities.len() {
        let first = k * nodes;
        let past = first + nodes;
        loading::volumes(nodes, links, &trips[first..past], &next[k], &mut volumes[k]);
        loading::add_volumes(&mut sums, nodes, m, &next[k], &volumes[k], 1);
        k += 1;
    }
    widened(&sums, m, loads);
}

// The volumes alone.
pub fn load_volumes(
    nodes: usize,
    links: &[[u16; 6]],
    commodities: &[u16],
    trips: &[u16],
    next: &[[u16; 128]],
    volumes: &mut [[u16; 128]],
)
    requires { AllFollowable nodes links.now (length commodities.now) trips.now next.now × (length commodities.now ≤ length volumes.old) }
    ensures { volume_rows nodes (length links.now) (length commodities.now) next.now volumes.new ≡ loading_along nodes links.now (length commodities.now) trips.now next.now }
{
    let mut k: usize = 0;
    while k < commodities.len() {
        let first = k * nodes;
        let past = first + nodes;
        loading::volumes(nodes, links, &trips[first..past], &next[k], &mut volumes[k]);
        k += 1;
    }
}

// Puts the first m of an array's numbers into one that is wide enough for the totals of any table.
fn widened(sums: &[u32; 512], m: usize, totals: &mut [u64; 512])
    requires { (m ≤ 512) × Clear m totals.old }
    ensures { totals.new ≡ padded m (λ l. get_or sums.now l 0) }
{
    let mut l: usize = 0;
    while l < m {
        totals[l] = wide(sums[l]);
        l += 1;
    }
}

// Adds weight × the loading to a table of p rows, each of m flows, a commodity's row at a time.
fn add_loadings(
    table: &mut [u32],
    nodes: usize,
    m: usize,
    p: usize,
    next: &[[u16; 128]],
    volumes: &[[u16; 128]],
    weight: u32,
)
    requires { Addable nodes m p next.now volumes.now weight table.old }
    ensures { table.new ≡ added_rows (p * m) weight (volume_rows nodes m p next.now volumes.now) table.old }
{
    let mut k: usize = 0;
    while k < p {
        let start = k * m;
        let end = start + m;
        loading::add_volumes(
            &mut table[start..end],
            nodes,
            m,
            &next[k],
            &volumes[k],
            weight,
        );
        k += 1;
    }
}

// Adds weight × the loading to a table, first that of the cars. The lorries' part of the table, from its middle, is lent on to the same call.
pub fn add_classes(
    table: &mut [u32],
    nodes: usize,
    m: usize,
    commodities: &[u16],
    next: &[[u16; 128]],
    volumes: &[[u16; 128]],
    weight: u32,
)
    requires { Addable nodes m (length commodities.now) next.now volumes.now weight table.old }
    ensures { table.new ≡ added_rows (length commodities.now * m) weight (volume_rows nodes m (length commodities.now) next.now volumes.now) table.old }
{
    let cars = car_count(commodities);
    add_loadings(table, nodes, m, cars, next, volumes, weight);
    if cars < commodities.len() {
        let lorries = commodities.len() - cars;
        let middle = cars * m;
        let end = middle + lorries * m;
        add_loadings(
            &mut table[middle..end],
            nodes,
            m,
            lorries,
            &next[cars..],
            &volumes[cars..],
            weight,
        );
    }
}
