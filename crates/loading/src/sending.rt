// Trips sent along next links, and the volumes that they make.
ghost use Rattle.std.specs.Prelude.{◌≡◌, ℕ, ◌+◌, ◌<◌, ◌≤◌, false, cond, length, ◌≢◌, slice_index};
ghost use Rattle.theory.specs.Study.{no_link};
ghost use Rattle.loading.specs.Along.{Followable, Sendable, volumes_along};
ghost use Rattle.loading.specs.Sending.{all_zero, ZeroBelow, OwnBelow, Movable, Sending, Sent, SentBelow, HeadOf, HeadsBelow, AllNodes, waiting_after, volumes_after};

use theory::{HEAD, NO_LINK};

// The next links of a destination.
#[derive(Clone, Copy)]
struct NextLinks<'a> {
    nodes: usize,
    links: &'a [[u16; 6]],
    next: &'a [u16; 128],
    ghost followable: { Followable nodes links.now next.now },
}

impl<'a> NextLinks<'a> {
    // The node to which the next link of node k leads, if it has one. Nodes are few, so it has 8 bits.
    fn head(self, k: usize) -> Option<u8>
        requires { k < self.nodes }
        ensures { HeadOf self.entry.links.now self.entry.next.now k result }
    {
        let l = self.next[k];
        if l == NO_LINK {
            return None;
        }
        Some(self.links[usize::from(l)][HEAD] as u8)
    }

    // Writes, by node, the head of its next link, and counts how many next links lead to it. The heads are kept: looked up anew they are slower.
    fn put_heads(self, heads: &mut [Option<u8>; 128], counts: &mut [u16; 128])
        requires { counts.old ≡ all_zero }
        ensures { HeadsBelow self.entry.nodes self.entry.links.now self.entry.next.now heads.new }
    {
        for k in 0..self.nodes {
            let head = self.head(k);
            heads[k] = head;
            if let Some(h) = head {
                counts[usize::from(h)] += 1;
            }
        }
    }
}

// Puts a node into an order of so many if a test holds. Answers how many are in the order then. There is no branch.
fn put_if(order: &mut [u16; 128], joined: usize, node: usize, test: bool) -> usize
    requires { (joined < 128) × (node < 128) }
    ensures few { result ≤ joined + 1 }
    ensures nodes { (n : ℕ) → node < n → AllNodes n joined order.old → AllNodes n result order.new }
{
    order[joined] = node as u16;
    joined + usize::from(test)
}

// Trips on their way: those that wait at each node, and each node's volume, those that have left it.
#[derive(Clone, Copy)]
struct Trips {
    waiting: [u32; 128],
    volumes: [u16; 128],
}

impl Trips {
    // The trips of each node wait there at first. They are put into what is lent: what a function answers is copied.
    fn put_own(&mut self, trips: &[u16])
        requires { (length trips.now ≤ 128) × (self.old.waiting ≡ all_zero) }
        ensures own { OwnBelow (length trips.now) trips.now self.new.waiting }
        ensures rest { self.new.volumes ≡ self.old.volumes }
    {
        for (j, here) in trips.iter().enumerate() {
            self.waiting[j] = u32::from(*here);
        }
    }

    // Sends the waiting trips of node k on to node h.
    fn send(&mut self, k: usize, h: usize)
        requires { Movable k h self.old.waiting self.old.volumes }
        ensures trips { self.new.waiting ≡ waiting_after k h self.old.waiting }
        ensures volume { self.new.volumes ≡ volumes_after k self.old.waiting self.old.volumes }
    {
        let amount = self.waiting[k];
        self.waiting[k] = 0;
        self.volumes[k] += amount as u16;
        self.waiting[h] += amount;
    }

    // Sends from the nodes in an order in which each comes after those whose next links lead to it. Nothing is proved of the order but that it
    // has nodes: what it leaves waiting is sent all the same.
    fn send_in_order(&mut self, next: NextLinks)
        requires { Sending next.nodes next.links.now next.next.now self.old.waiting self.old.volumes }
        ensures { Sent next.entry.nodes next.entry.links.now next.entry.next.now self.old.waiting self.old.volumes self.new.waiting self.new.volumes }
    {
        let mut heads = [None; 128];
        let mut counts = [0; 128];
        next.put_heads(&mut heads, &mut counts);
        // The order stands in locals: in a struct its length would be kept in memory, which is slower. It grows on the way, so no `for` goes over it.
        let mut order = [0; 128];
        let mut joined = 0;
        for (k, count) in counts[..next.nodes].iter().enumerate() {
            joined = put_if(&mut order, joined, k, *count == 0);
        }
        let mut turn = 0;
        while turn < joined {
            let k = usize::from(order[turn]);
            turn += 1;
            if let Some(head) = heads[k] {
                let h = usize::from(head);
                self.send(k, h);
                counts[h] = counts[h].wrapping_sub(1);
                if joined < 128 {
                    joined = put_if(&mut order, joined, h, counts[h] == 0);
                }
            }
        }
    }

    // Sends from each node that has trips waiting and a next link. Answers whether there was one.
    fn send_waiting(&mut self, next: NextLinks) -> bool
        requires { Sending next.nodes next.links.now next.next.now self.old.waiting self.old.volumes }
        ensures { SentBelow next.entry.nodes next.entry.links.now next.entry.next.now next.entry.nodes self.old.waiting self.old.volumes self.new.waiting self.new.volumes (cond result 1 0) }
    {
        let mut any = false;
        for k in 0..next.nodes {
            if self.waiting[k] != 0 {
                if let Some(h) = next.head(k) {
                    self.send(k, usize::from(h));
                    any = true;
                }
            }
        }
        any
    }
}

// Whether there are trips. There is no branch, so several numbers are seen at once.
pub fn any_trips(trips: &[u16]) -> bool
    ensures { result ≡ false → ZeroBelow (length trips.now) trips.now }
{
    trips.iter().fold(0, |any, own| any | *own) != 0
}

// The trips that leave each node along next links: its own and those that come through it. Where there are no trips nothing is sent.
pub fn volumes(
    nodes: usize,
    links: &[[u16; 6]],
    trips: &[u16],
    next: &[u16; 128],
    volumes: &mut [u16; 128],
)
    requires { Sendable nodes links.now next.now trips.now }
    ensures { volumes.new ≡ volumes_along nodes links.now next.now (λ j. slice_index trips.now j) }
{
    if !any_trips(trips) {
        *volumes = [0; 128];
        return;
    }
    let next_links = NextLinks { nodes, links, next };
    let mut on_way = Trips {
        waiting: [0; 128],
        volumes: [0; 128],
    };
    on_way.put_own(trips);
    on_way.send_in_order(next_links);
    // Until nobody is sent: no turn of it counts.
    while on_way.send_waiting(next_links) {}
    *volumes = on_way.volumes;
}
