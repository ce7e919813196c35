// Next links, found from the least times for eight commodities side by side, which are the destinations of a group.
ghost use Rattle.std.specs.Prelude.{◌≡◌, ℕ, ◌*◌, ◌%◌, ◌<◌, ◌≤◌, Bool, length, slice_index, slice_index_or};
ghost use Rattle.search.specs.Given.{AllSearchable, class_of};
ghost use Rattle.search.specs.Chains.{Linked, chain_of};
ghost use Rattle.search.specs.Lanes.{Found};
ghost use Rattle.routes.specs.Next.{Kept, RowKept};
ghost use Rattle.routes.specs.Table.{Nexts, AllNexts, NextsTo, RowsEnd, EachChosen};

use search::{INTO, OUT, Search, any_trips, group_end, group_of};
use theory::{HEAD, NO_LINK, TAIL, node_of};

// The last 16 bits of a number. No conversion of the library leaves out the others.
fn low(x: u32) -> u16
    ensures { result ≡ x % 65536 }
{
    (x % 65536) as u16
}

// The last 16 bits of eight marks.
fn low_row(row: [u32; 8]) -> [u16; 8]
    ensures { (i : ℕ) → i < 8 → slice_index result i ≡ slice_index row i % 65536 }
{
    let mut lows = [0; 8];
    for k in 0..8 {
        lows[k] = low(row[k]);
    }
    lows
}

// The link that is there already, or else link l where what it gives is the node's own. No link is a number here: eight are looked at side by side, in
// fixed memory.
fn keep(old: u16, given: u16, own: u16, l: u16) -> u16
    ensures { Kept old given own l result }
{
    if old != NO_LINK {
        return old;
    }
    if given == own { l } else { NO_LINK }
}

// Keeps link l for each destination of a group that has no link yet and where the last 16 bits do not rule it out.
fn keep_row(row: &mut [u16; 8], own: [u16; 8], ahead: [u16; 8], time: u16, l: u16)
    requires { length row.old ≡ 8 }
    ensures { RowKept own ahead time l row.old 8 row.new }
{
    for k in 0..8 {
        row[k] = keep(row[k], ahead[k].wrapping_add(time), own[k], l);
    }
}

// A search whose marks are found: the least times to the destinations of its group. The chains of the links out of each node are at hand too.
#[derive(Clone, Copy)]
struct Routes<'a, 'm> {
    search: Search<'a>,
    out: &'a [u16; 896],
    marks: &'m [[u32; 8]; 128],
    ghost found: { Found search.nodes search.links.now search.times.now search.group marks.now },
    ghost chained: { out.now ≡ chain_of (class_of search.group) search.links.now 0 },
}

impl Routes<'_, '_> {
    ghost use Rattle.routes.specs.Routes.{LowMarks, CandidatesOf, UnfitBefore, open_link, NodePut, RowOpen, RowsOpen, RowRouted, RowsRouted};

    // The last 16 bits of the marks of the nodes.
    fn put_lows(&self, lows: &mut [[u16; 8]; 128])
        requires { length lows.old ≡ 128 }
        ensures { LowMarks self.now lows.new }
    {
        let marks = self.marks;
        for (j, row) in marks[..self.search.nodes].iter().enumerate() {
            lows[j] = low_row(*row);
        }
    }

    // For each destination of the group the first link out of node j, of those with an open head, that the last 16 bits of times and marks do not rule
    // out: no such link before it fits. All eight are looked at side by side, without a branch.
    fn candidates(&self, lows: &[[u16; 8]; 128], j: usize) -> [u16; 8]
        requires { j < 128 }
        ensures { CandidatesOf self.now lows.now j result }
    {
        let own = lows[j];
        let mut row = [NO_LINK; 8];
        // A walk along a chain counts no index.
        let mut l = self.out[j];
        while l != NO_LINK {
            let i = usize::from(l);
            let ahead = lows[usize::from(self.search.links[i][HEAD])];
            keep_row(&mut row, own, ahead, low(self.search.times[i]), l);
            l = self.out[384 + i];
        }
        row
    }

    // The next link of node j to destination k of the group, of those with an open head: the first link out of it whose time plus its head's distance
    // equals its own distance. No such link before `from` does.
    fn next_link(&self, j: usize, k: usize, from: u16) -> u16
        requires { (j < self.now.search.nodes) × (k < 8) × UnfitBefore self.now k j from }
        ensures { result ≡ open_link self.now k j }
    {
        let own = self.marks[j][k];
        // A walk along a chain counts no index.
        let mut l = from;
        while l != NO_LINK {
            let i = usize::from(l);
            let head = usize::from(self.search.links[i][HEAD]);
            let given = self.marks[head][k] + self.search.times[i];
            if given == own {
                break;
            }
            l = self.out[384 + i];
        }
        l
    }

    // Writes the next links of node j to the destinations of the group, of the links with an open head: a row for each destination.
    fn put_node(&self, rows: &mut [[u16; 128]], lows: &[[u16; 8]; 128], j: usize)
        requires { LowMarks self.now lows.now × (j < self.now.search.nodes) × (length rows.old ≤ 8) }
        ensures { NodePut self.now j rows.old (length rows.old) rows.new }
    {
        let from = self.candidates(lows, j);
        for (k, row) in rows.iter_mut().enumerate() {
            row[j] = self.next_link(j, k, from[k]);
        }
    }

    // Writes the next links of all nodes to the destinations of the group, of the links with an open head.
    fn put_open(&self, rows: &mut [[u16; 128]])
        requires { RowsEnd self.now.search.nodes rows.old × (length rows.old ≤ 8) }
        ensures { RowsOpen self.now rows.new }
    {
        let mut lows = [[0; 8]; 128];
        self.put_lows(&mut lows);
        for j in 0..self.search.nodes {
            self.put_node(rows, &lows, j);
        }
    }

    // Writes the links into destination k of the group, where that is closed: each that fits as its tail's next link and is below the one there.
    fn put_own(&self, row: &mut [u16; 128], k: usize)
        requires { (k < 8) × RowOpen self.now k row.old }
        ensures { RowRouted self.now k row.new }
    {
        // A walk along a chain counts no index.
        let mut l = self.search.into[128 + node_of(self.search.group[k])];
        while l != NO_LINK {
            let i = usize::from(l);
            let j = usize::from(self.search.links[i][TAIL]);
            let head = usize::from(self.search.links[i][HEAD]);
            let given = self.marks[head][k] + self.search.times[i];
            if given == self.marks[j][k] {
                row[j] = row[j].min(l);
            }
            l = self.search.into[384 + i];
        }
    }

    // Writes the links into those destinations of the group that are closed, beside the links with an open head.
    fn put_closed(&self, rows: &mut [[u16; 128]])
        requires { RowsOpen self.now rows.old × (length rows.old ≤ 8) }
        ensures { RowsRouted self.now rows.new }
    {
        for (k, row) in rows.iter_mut().enumerate() {
            self.put_own(row, k);
        }
    }
}

// What next links are found over: a network with the trips on it, the times of its links, and their chains.
#[derive(Clone, Copy)]
struct Network<'a> {
    nodes: usize,
    links: &'a [[u16; 6]],
    destinations: &'a [u16],
    trips: &'a [u16],
    times: &'a [u32; 512],
    chains: &'a [[u16; 896]],
    ghost all_searchable: { AllSearchable nodes links.now destinations.now times.now × Linked (class_of destinations.now) links.now chains.now },
    ghost trips_len: { length trips.now ≡ length destinations.now * nodes },
}

impl Network<'_> {
    // Writes the next links to the destinations of a group, over marks that are lent: made anew for each group they would be cleared for nothing.
    fn put_group(&self, group: &[u16], marks: &mut [[u32; 8]; 128], rows: &mut [[u16; 128]])
        requires all_searchable { AllSearchable self.now.nodes self.now.links.now group.now self.now.times.now × Linked (class_of group.now) self.now.links.now self.now.chains.now }
        requires few { (0 < length group.now) × (length group.now ≤ 8) × (length rows.old ≡ length group.now) × RowsEnd self.now.nodes rows.old }
        ensures { NextsTo self.now.nodes self.now.links.now group.now self.now.times.now rows.new }
    {
        let search = Search {
            nodes: self.nodes,
            links: self.links,
            times: self.times,
            group: group_of(group),
            into: &self.chains[INTO],
        };
        search.put_marks(marks);
        let routes = Routes {
            search,
            out: &self.chains[OUT],
            marks,
        };
        routes.put_open(rows);
        routes.put_closed(rows);
    }

    // Writes the next links to the destinations of the groups to which somebody goes, or else of those to which nobody goes.
    fn put_groups(&self, table: &mut [[u16; 128]], used: bool)
        requires { (length table.old ≡ length self.now.destinations.now) × RowsEnd self.now.nodes table.old }
        ensures { EachChosen self.now.nodes self.now.links.now self.now.destinations.now self.now.trips.now self.now.times.now used table.old table.new }
    {
        let mut marks = [[0; 8]; 128];
        for first in (0..self.destinations.len()).step_by(8) {
            let past = group_end(self.destinations.len(), first);
            if any_trips(&self.trips[first * self.nodes..past * self.nodes]) == used {
                let group = &self.destinations[first..past];
                self.put_group(group, &mut marks, &mut table[first..past]);
            }
        }
    }
}

// The next links to each destination, kept by destination and by node. A group of destinations to which nobody goes is not searched, and
// has no link.
pub fn next_table(
    nodes: usize,
    links: &[[u16; 6]],
    destinations: &[u16],
    trips: &[u16],
    times: &[u32; 512],
    chains: &[[u16; 896]],
    table: &mut [[u16; 128]],
)
    requires all_searchable { AllSearchable nodes links.now destinations.now times.now × Linked (class_of destinations.now) links.now chains.now }
    requires trips_len { (length trips.now ≡ length destinations.now * nodes) × (length destinations.now ≤ length table.old) }
    ensures nexts { Nexts nodes links.now destinations.now trips.now times.now table.new }
    ensures table_len_unchanged { length table.new ≡ length table.old }
{
    let network = Network {
        nodes,
        links,
        destinations,
        trips,
        times,
        chains,
    };
    let rows = &mut table[..destinations.len()];
    rows.fill([NO_LINK; 128]);
    network.put_groups(rows, true);
}

// The next links to the destinations of the groups to which nobody goes, which `next_table` leaves out.
pub fn complete_table(
    nodes: usize,
    links: &[[u16; 6]],
    destinations: &[u16],
    trips: &[u16],
    times: &[u32; 512],
    chains: &[[u16; 896]],
    table: &mut [[u16; 128]],
)
    requires all_searchable { AllSearchable nodes links.now destinations.now times.now × Linked (class_of destinations.now) links.now chains.now }
    requires trips_len { length trips.now ≡ length destinations.now * nodes }
    requires nexts { Nexts nodes links.now destinations.now trips.now times.now table.old }
    ensures all_nexts { AllNexts nodes links.now destinations.now times.now table.new }
    ensures table_len_unchanged { length table.new ≡ length table.old }
{
    let network = Network {
        nodes,
        links,
        destinations,
        trips,
        times,
        chains,
    };
    network.put_groups(&mut table[..destinations.len()], false);
}
