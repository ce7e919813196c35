// Question 21: whether a note leads every node with trips of a commodity to its destination, and the next links that it gives on the way.
ghost use Rattle.std.specs.Prelude.{◌≡◌, true, ◌≤◌, ◌<◌, length, get_or, [], ◌∷◌};
ghost use Rattle.theory.specs.Routes.{distance, is_some};
ghost use Rattle.theory.specs.Study.{node_of, may_use};
ghost use Rattle.notes.specs.Followed.{by_note, may_follow, is_settled, Readable, Settled, Origins, Traced, row_leads, Followed, note_follows, AllReadable, AllFollowed};

use loading::index;
use theory::{HEAD, NO_LINK, TAIL, may_use, node_of};

// Whether trips of a commodity may go on from node j by link l: it is one of the node's own outgoing links, and permitted.
fn may_follow(links: &[[u16; 6]], commodity: u16, j: usize, l: u16) -> bool
    ensures { result ≡ may_follow links.now commodity j l }
{
    let i = index(l);
    if links.len() <= i {
        return false;
    }
    let link = links[i];
    if index(link[TAIL]) != j {
        return false;
    }
    may_use(link, commodity)
}

// Whether a walk need go no further than node j: it is the destination, or its next link is known already.
fn is_settled(next: &[u16; 128], commodity: u16, j: usize) -> bool
    requires { j < 128 }
    ensures { result ≡ is_settled next.now (node_of commodity) j }
{
    if j == node_of(commodity) {
        return true;
    }
    next[j] != NO_LINK
}

// Goes along the note from a node to the destination of a commodity, whose links stand in the note from place `first` on, and writes the links of
// its way until it is there or at a node whose link is written already; `origin` has for each link that is written the node from which its way set
// out. Answers whether the note leads to the destination: it does not where a link does not count, or where the way comes back to itself.
fn trace(
    nodes: usize,
    links: &[[u16; 6]],
    commodity: u16,
    note: &[u16],
    first: usize,
    next: &mut [u16; 128],
    origin: &mut [u16; 128],
    from: usize,
) -> bool
    requires { Readable nodes links.now commodity note.now first × Settled nodes links.now commodity note.now first (node_of commodity) next.old × Origins nodes from next.old origin.old × (from < nodes) }
    ensures answer { result ≡ is_some (distance (by_note nodes links.now commodity note.now first) from) }
    ensures written { result ≡ true → Traced nodes links.now commodity note.now first from next.old next.new origin.new }
    ensures size { length origin.new ≡ 128 }
{
    let mut j = from;
    let mut steps: usize = 0;
    while !is_settled(next, commodity, j) {
        let l = note[first + j];
        if steps == nodes {
            return false;
        }
        if !may_follow(links, commodity, j, l) {
            return false;
        }
        next[j] = l;
        origin[j] = from as u16;
        j = index(links[index(l)][HEAD]);
        steps += 1;
    }
    if j == node_of(commodity) {
        return true;
    }
    index(origin[j]) != from
}

// Question 21 for one commodity, and its next links by the note: of the nodes with trips, and of those on their way.
fn follow_row(
    nodes: usize,
    links: &[[u16; 6]],
    commodity: u16,
    trips: &[u16],
    note: &[u16],
    first: usize,
    next: &mut [u16; 128],
    origin: &mut [u16; 128],
) -> bool
    requires { Readable nodes links.now commodity note.now first × (length trips.now ≡ nodes) × (length origin.old ≡ 128) }
    ensures answer { result ≡ row_leads nodes links.now commodity note.now first (λ j. get_or trips.now j 0) nodes }
    ensures size { length origin.new ≡ 128 }
    ensures links { result ≡ true → Followed nodes links.now commodity note.now first (λ j. get_or trips.now j 0) nodes next.new }
{
    *next = [NO_LINK; 128];
    let mut j: usize = 0;
    while j < nodes {
        if trips[j] != 0 {
            if !trace(nodes, links, commodity, note, first, next, origin, j) {
                return false;
            }
        }
        j += 1;
    }
    true
}

// Question 21, and the next links of all commodities by the note.
pub fn follow_note(
    nodes: usize,
    links: &[[u16; 6]],
    commodities: &[u16],
    trips: &[u16],
    note: &[u16],
    next: &mut [[u16; 128]],
) -> bool
    requires { AllReadable nodes links.now commodities.now trips.now note.now × (length commodities.now ≤ length next.old) }
    ensures answer { result ≡ note_follows nodes links.now commodities.now trips.now note.now (length commodities.now) }
    ensures rows { result ≡ true → AllFollowed nodes links.now commodities.now trips.now note.now (length commodities.now) next.new }
{
    let mut origin = [0u16; 128];
    let mut k: usize = 0;
    while k < commodities.len() {
        let first = k * nodes;
        let past = first + nodes;
        if !follow_row(
            nodes,
            links,
            commodities[k],
            &trips[first..past],
            note,
            1 + first,
            &mut next[k],
            &mut origin,
        ) {
            return false;
        }
        k += 1;
    }
    true
}
