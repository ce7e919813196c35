// Question 16 of one destination's row of a table.
ghost use Rattle.std.specs.Prelude.{◌≡◌, ◌≤◌, length};
ghost use Rattle.travel.specs.Links.{row_balances};
ghost use Rattle.travel.specs.Ranges.{ClearPast, EndsFit, RowFits, SumsAt};

use theory::{HEAD, TAIL};

// Does the row balance at every node but its destination: flow out = flow in + share × trips? `out` and `into` are lent for the sums, and
// are 0 past the nodes.
pub fn row_balances(
    nodes: usize,
    links: &[[u16; 6]],
    destination: usize,
    trips: &[u16],
    row: &[u32],
    share: u32,
    out: &mut [u64; 128],
    into: &mut [u64; 128],
) -> bool
    requires row_fits { RowFits nodes links.now trips.now row.now × (share ≤ 1024) }
    requires clear_past { ClearPast 128 nodes out.old × ClearPast 128 nodes into.old }
    ensures value { result ≡ row_balances nodes links.now destination trips.now share row.now }
    ensures clear_past_2 { ClearPast 128 nodes out.new × ClearPast 128 nodes into.new }
{
    out[..nodes].fill(0);
    into[..nodes].fill(0);
    add_at(out, into, links, row);
    for (j, own) in trips.iter().enumerate() {
        let sent = u64::from(share) * u64::from(*own);
        if j != destination && out[j] != into[j] + sent {
            return false;
        }
    }
    true
}

// Adds to sums that are 0, at each node, the flow of the links out of it and that of the links into it. Both in one loop: one for each is slower. The
// two stay apart, as the contract of `row_balances` lends them.
fn add_at(out: &mut [u64; 128], into: &mut [u64; 128], links: &[[u16; 6]], row: &[u32])
    requires ends_fit { EndsFit links.now × (length row.now ≡ length links.now) }
    requires sums_at { SumsAt 0 links.now 0 row.now out.old × SumsAt 0 links.now 1 row.now into.old }
    ensures sums_at_2 { SumsAt (length links.now) links.now 0 row.now out.new }
    ensures sums_at_3 { SumsAt (length links.now) links.now 1 row.now into.new }
{
    for (link, flow) in links.iter().zip(&row[..links.len()]) {
        let flow = u64::from(*flow);
        out[usize::from(link[TAIL])] += flow;
        into[usize::from(link[HEAD])] += flow;
    }
}
