// Question 11, of the commodities of one class: for each destination a search for the nodes with a path to it. It goes over rows: for each node
// the set of the nodes with a link into it, built once from the links that the class may use.
ghost use Rattle.std.specs.Prelude.{ℕ, ◌+◌, ◌<◌, ◌≤◌, true, [], ◌≡◌, length, get_or, take, drop};
ghost use Rattle.theory.specs.Marks.{marked};
ghost use Rattle.theory.specs.Study.{of_lorries, network};
ghost use Rattle.calls.specs.Questions.{ends_fit, trips_reach};
ghost use Rattle.questions.specs.Sized.{Sized, ToNodes, OneClass};
ghost use Rattle.questions.specs.Reach.{AllOpen, all_marked, row, row_place, Room, NoMarks, Marks, Tails, tails_into, Closure, Rows, whole_row, all_reached, next_node, Filled, Reached};

use crate::marks::{NO_NODE, both, is_marked, lowest_unvisited, nodes_below, only_node, shared};
use crate::numbers::node;
use theory::{ACCESS_POWER, HEAD, TAIL, barred_to};

// 11. Does every node with trips to s have a path to s, of cars and of lorries? The first so many commodities are of cars, and the others, if there
// are any, of lorries. `all_open` may be true where no link has a closed head: the search is then faster.
pub fn classes_reach(
    nodes: usize,
    links: &[[u16; 6]],
    cars: usize,
    commodities: &[u16],
    trips: &[u16],
    all_open: bool,
) -> bool
    requires sized { Sized nodes links.now commodities.now trips.now × (all_open ≡ true → AllOpen links.now) }
    requires links_value { ends_fit (network nodes links.now [] []) ≡ true }
    requires cars_in_bounds { (cars ≤ length commodities.now) × ToNodes nodes commodities.now }
    requires one_class { OneClass (take cars commodities.now) × OneClass (drop cars commodities.now) }
    ensures { result ≡ trips_reach (network nodes links.now commodities.now trips.now) }
{
    let past = cars * nodes;
    if !trips_reach(nodes, links, &commodities[..cars], &trips[..past], all_open) {
        return false;
    }
    if commodities.len() == cars {
        return true;
    }
    trips_reach(nodes, links, &commodities[cars..], &trips[past..], all_open)
}

// The same of the commodities of one class.
fn trips_reach(
    nodes: usize,
    links: &[[u16; 6]],
    commodities: &[u16],
    trips: &[u16],
    all_open: bool,
) -> bool
    requires sized { Sized nodes links.now commodities.now trips.now × (all_open ≡ true → AllOpen links.now) }
    requires links_value { ends_fit (network nodes links.now [] []) ≡ true }
    requires to_nodes { ToNodes nodes commodities.now × OneClass commodities.now }
    ensures { result ≡ trips_reach (network nodes links.now commodities.now trips.now) }
{
    let count = row_count(nodes, all_open);
    if 64 < count {
        let mut rows = [[0u64, 0]; 256];
        return trips_reach_in(nodes, links, commodities, trips, all_open, &mut rows);
    }
    if 16 < count {
        let mut rows = [[0u64, 0]; 64];
        return trips_reach_in(nodes, links, commodities, trips, all_open, &mut rows);
    }
    let mut rows = [[0u64, 0]; 16];
    trips_reach_in(nodes, links, commodities, trips, all_open, &mut rows)
}

// How many rows a search needs: one for each node and, where a head may be closed, another.
fn row_count(nodes: usize, all_open: bool) -> usize
    requires { nodes ≤ 128 }
    ensures { Room nodes all_open result × (result ≤ 256) }
{
    if all_open { nodes } else { nodes + nodes }
}

// The same, in rows that are lent.
fn trips_reach_in(
    nodes: usize,
    links: &[[u16; 6]],
    commodities: &[u16],
    trips: &[u16],
    all_open: bool,
    rows: &mut [[u64; 2]],
) -> bool
    requires sized { Sized nodes links.now commodities.now trips.now × (all_open ≡ true → AllOpen links.now) }
    requires links_value { ends_fit (network nodes links.now [] []) ≡ true }
    requires to_nodes { ToNodes nodes commodities.now × OneClass commodities.now }
    requires room { Room nodes all_open (length rows.old) × NoMarks rows.old }
    ensures { result ≡ trips_reach (network nodes links.now commodities.now trips.now) }
{
    mark_tails(nodes, links, lorries_only(commodities), all_open, rows);
    let mut whole = [0u64; 2];
    let mut k = 0;
    while k < commodities.len() {
        let s = theory::node_of(commodities[k]);
        let tails = tails_into(nodes, s, all_open, rows);
        let reached = reach(nodes, s, tails, &mut whole, rows);
        let first = k * nodes;
        if !trips_marked(reached, &trips[first..first + nodes]) {
            return false;
        }
        k += 1;
    }
    true
}

// Whether commodities of one class are of lorries.
fn lorries_only(commodities: &[u16]) -> bool
    ensures { result ≡ of_lorries (get_or commodities.now 0 0) }
{
    if commodities.len() == 0 {
        return false;
    }
    theory::of_lorries(commodities[0])
}

// Marks the tail of each link that the class is not barred from.
fn mark_tails(
    nodes: usize,
    links: &[[u16; 6]],
    lorries: bool,
    all_open: bool,
    rows: &mut [[u64; 2]],
)
    requires nodes_bound { (nodes ≤ 128) × (ends_fit (network nodes links.now [] []) ≡ true) × (all_open ≡ true → AllOpen links.now) }
    requires room { Room nodes all_open (length rows.old) × NoMarks rows.old }
    ensures { (length rows.new ≡ length rows.old) × Tails nodes links.now lorries (length links.now) rows.new }
{
    let mut l = 0;
    while l < links.len() {
        mark_tail(nodes, links, l, lorries, all_open, rows);
        l += 1;
    }
}

// Marks the tail of one such link in the row of its head, or in the other row of a head that is closed.
fn mark_tail(
    nodes: usize,
    links: &[[u16; 6]],
    l: usize,
    lorries: bool,
    all_open: bool,
    rows: &mut [[u64; 2]],
)
    requires nodes_bound { (nodes ≤ 128) × (ends_fit (network nodes links.now [] []) ≡ true) × (all_open ≡ true → AllOpen links.now) }
    requires l_in_bounds { (l < length links.now) × Room nodes all_open (length rows.old) × Tails nodes links.now lorries l rows.old }
    ensures { (length rows.new ≡ length rows.old) × Tails nodes links.now lorries (l + 1) rows.new }
{
    if barred_to(links[l], lorries) {
        return;
    }
    let i = row_place(
        nodes,
        node(links[l][HEAD]),
        links[l][ACCESS_POWER] % 2,
        all_open,
    );
    mark(i, node(links[l][TAIL]), rows);
}

// Where the row of a link stands. Where all heads are open, its closed mark is not read.
fn row_place(nodes: usize, head: usize, closed: u16, all_open: bool) -> usize
    requires { (nodes ≤ 128) × (head < nodes) × (all_open ≡ true → closed ≡ 1 → ⊥) }
    ensures { result ≡ row_place nodes head closed }
{
    if all_open {
        return head;
    }
    if closed == 1 { nodes + head } else { head }
}

// Marks node j in row i.
fn mark(i: usize, j: usize, rows: &mut [[u64; 2]])
    requires { (i < length rows.old) × (j < 128) × ((a : ℕ) → a < length rows.old → length (row rows.old a) ≡ 2) }
    ensures { Marks i j rows.old rows.new }
{
    rows[i][j / 64] = rows[i][j / 64] | 1 << j % 64;
}

// The nodes from which s is reached next: those of its row and, where s may be closed, of its other row.
fn tails_into(nodes: usize, s: usize, all_open: bool, rows: &[[u64; 2]]) -> [u64; 2]
    requires { (nodes ≤ 128) × (s < nodes) × Room nodes all_open (length rows.now) }
    ensures { result ≡ tails_into nodes all_open rows.now s }
{
    if all_open {
        return rows[s];
    }
    both(rows[s], rows[nodes + s])
}

// The nodes with a path to s: s itself, and all with a walk to a tail of a link into s. On a small network these may be s and the tails.
fn reach(
    nodes: usize,
    s: usize,
    tails: [u64; 2],
    whole: &mut [u64; 2],
    rows: &mut [[u64; 2]],
) -> [u64; 2]
    requires { (s < nodes) × Rows nodes whole.old rows.old × ((j : ℕ) → marked tails j ≡ true → j < nodes) }
    ensures { Reached nodes s tails rows.old whole.new rows.new result }
{
    let first = both(only_node(s), tails);
    if all_reached(nodes, first) {
        return first;
    }
    let mut reached = only_node(s);
    loop {
        let tail = lowest_unvisited(tails, reached);
        if tail == NO_NODE {
            return reached;
        }
        let more = both(reached, fill(nodes, tail, whole, rows));
        reached = more;
    }
}

// The nodes with a walk to j. They are kept in its row, which is then whole.
fn fill(nodes: usize, j: usize, whole: &mut [u64; 2], rows: &mut [[u64; 2]]) -> [u64; 2]
    requires { (j < nodes) × Rows nodes whole.old rows.old }
    ensures { Filled nodes j rows.old whole.new rows.new result }
{
    if is_marked(*whole, j) {
        return rows[j];
    }
    let found = search(nodes, j, *whole, rows);
    rows[j] = found;
    *whole = both(*whole, only_node(j));
    found
}

// A search for the nodes with a walk to s. Where it reaches a node whose row is whole it takes that row over at once. The next to be
// visited is the lowest-numbered node that is reached and unvisited.
fn search(nodes: usize, s: usize, whole: [u64; 2], rows: &[[u64; 2]]) -> [u64; 2]
    requires { (s < nodes) × Rows nodes whole rows.now }
    ensures { Closure rows.now s result }
{
    let start = only_node(s);
    let first = both(start, rows[s]);
    let known = whole_row(first, start, whole, rows);
    let mut reached = both(first, known);
    let mut visited = both(start, known);
    let mut next = next_node(nodes, reached, visited);
    while next != NO_NODE {
        let row = rows[next];
        let wider = both(reached, row);
        let seen = both(visited, only_node(next));
        let other = whole_row(wider, seen, whole, rows);
        reached = both(wider, other);
        visited = both(seen, other);
        next = next_node(nodes, reached, visited);
    }
    reached
}

// The row of the lowest node that is reached, unvisited and whole, or no node.
fn whole_row(reached: [u64; 2], visited: [u64; 2], whole: [u64; 2], rows: &[[u64; 2]]) -> [u64; 2]
    requires { (j : ℕ) → marked reached j ≡ true → j < length rows.now }
    ensures { result ≡ whole_row rows.now whole reached visited }
{
    let j = lowest_unvisited(shared(reached, whole), visited);
    if j == NO_NODE {
        return [0, 0];
    }
    rows[j]
}

// The node that a search visits next: none where all nodes are reached.
fn next_node(nodes: usize, reached: [u64; 2], visited: [u64; 2]) -> usize
    requires { nodes ≤ 128 }
    ensures { result ≡ next_node nodes reached visited }
{
    if all_reached(nodes, reached) {
        return NO_NODE;
    }
    lowest_unvisited(reached, visited)
}

fn all_reached(nodes: usize, reached: [u64; 2]) -> bool
    requires { nodes ≤ 128 }
    ensures { result ≡ all_reached nodes reached }
{
    lowest_unvisited(nodes_below(nodes), reached) == NO_NODE
}

// Whether every node with trips is reached. Only the trips of the others are looked at.
fn trips_marked(reached: [u64; 2], trips: &[u16]) -> bool
    requires { length trips.now ≤ 128 }
    ensures { result ≡ all_marked trips.now reached }
{
    let all = nodes_below(trips.len());
    let mut passed = reached;
    loop {
        let j = lowest_unvisited(all, passed);
        if j == NO_NODE {
            return true;
        }
        if trips[j] != 0 {
            return false;
        }
        let more = both(passed, only_node(j));
        passed = more;
    }
}
