// Least times for eight commodities side by side, which are the destinations of a group: a table of marks has a row for each node and a column for
// each destination.
ghost use Rattle.std.specs.Prelude.{◌≡◌, ◌↔◌, ℕ, ◌≤◌, ◌<◌, ◌^◌, min, IsTrue, get_or};
ghost use Rattle.search.specs.Given.{longest, class_of};
ghost use Rattle.search.specs.Chains.{chain_of};
ghost use Rattle.search.specs.Lanes.{RowMarked, Shaped, Marked, EachRelaxed, EachSearchable, SomeFallen};

use theory::{NO_LINK, TAIL, node_of};

// A node that no link has reached: more than any distance, and with a link's time added still below 2^31. A number, as the definitions have it.
pub const UNREACHED: u32 = 1073741824;

// The lower of two marks. They are compared as signed numbers, of which the processor compares several at once.
fn lower(a: u32, b: u32) -> u32
    requires { (a < 2 ^ 31) × (b < 2 ^ 31) }
    ensures { result ≡ min a b }
{
    if (a as i32) < (b as i32) { a } else { b }
}

// Lowers the marks of a link's tail to its time plus the marks of its head, where that is less.
fn relax(marks: &mut [[u32; 8]; 128], tail: usize, ahead: [u32; 8], time: u32)
    requires tail_bound { (tail < 128) × (time ≤ longest) × RowMarked ahead }
    requires shaped { Shaped marks.old × Marked marks.old }
    ensures { EachRelaxed marks.old marks.new tail ahead time }
{
    let mut own = marks[tail];
    for k in 0..8 {
        own[k] = lower(ahead[k] + time, own[k]);
    }
    marks[tail] = own;
}

// Whether one of eight marks is below what it was, where none is above. There is no branch, so all are compared at once.
fn has_fallen(row: [u32; 8], old: [u32; 8]) -> bool
    requires { (i : ℕ) → i < 8 → get_or row i 0 ≤ get_or old i 0 }
    ensures { IsTrue result ↔ SomeFallen row old }
{
    let mut fall = 0;
    for k in 0..8 {
        fall |= old[k] - row[k];
    }
    fall != 0
}

// A search for the least times to the destinations of a group, over the links that their class may use. The chains of the links into each node are
// at hand.
#[derive(Clone, Copy)]
pub struct Search<'a> {
    pub nodes: usize,
    pub links: &'a [[u16; 6]],
    pub times: &'a [u32; 512],
    pub group: [u16; 8],
    pub into: &'a [u16; 896],
    pub ghost searchable: { EachSearchable nodes links.now times.now group },
    pub ghost chained: { into.now ≡ chain_of (class_of group) links.now 1 },
}

impl Search<'_> {
    ghost use Rattle.search.specs.Searches.{UnderWay, HandsOn, PlaceScanned, EnteredBelow, NodesScanned, NodeFallen, NodeRescanned, LeastFound};

    // Scans a place, which hands on the marks `ahead`: relaxes each link that ends there.
    fn scan(&self, marks: &mut [[u32; 8]; 128], place: usize, ahead: [u32; 8])
        requires under_way { UnderWay self.now marks.old × (place < 256) × RowMarked ahead }
        requires hands_on { HandsOn self.now place ahead marks.old }
        ensures { PlaceScanned self.now place ahead marks.old marks.new }
    {
        // A walk along a chain counts no index. In its row, which is fixed memory, no link is a number.
        let mut l = self.into[place];
        while l != NO_LINK {
            let i = usize::from(l);
            relax(
                marks,
                usize::from(self.links[i][TAIL]),
                ahead,
                self.times[i],
            );
            l = self.into[384 + i];
        }
    }

    // Scans node j, of which some marks have fallen since its last scan.
    fn scan_node(&self, marks: &mut [[u32; 8]; 128], scanned: &mut [[u32; 8]; 128], j: usize)
        requires { NodesScanned self.now marks.old scanned.old × (j < self.now.nodes) × NodeFallen j marks.old scanned.old }
        ensures { NodeRescanned self.now scanned.old marks.new scanned.new }
    {
        let row = marks[j];
        scanned[j] = row;
        self.scan(marks, j, row);
    }

    // Scans the links into each destination of the group that is closed, in its own lane: no other search may go by them.
    fn enter(&self, marks: &mut [[u32; 8]; 128])
        requires { EnteredBelow self.now 0 marks.old }
        ensures { EnteredBelow self.now 8 marks.new }
    {
        for (k, destination) in self.group.iter().enumerate() {
            let mut ahead = [UNREACHED; 8];
            ahead[k] = 0;
            self.scan(marks, 128 + node_of(*destination), ahead);
        }
    }

    // The least times to the destinations of the group. Nodes are scanned until no mark changes. The marks are lent: as a result they are copied,
    // which is slower than allowed; and inlined, so that the compiler sees that nothing of what they held is read.
    #[inline(always)]
    pub fn put_marks(self, marks: &mut [[u32; 8]; 128])
        ensures { LeastFound self.entry marks.new }
    {
        let unreached = [UNREACHED; 8];
        *marks = [unreached; 128];
        let mut scanned = [unreached; 128];
        for (k, destination) in self.group.iter().enumerate() {
            marks[node_of(*destination)][k] = 0;
        }
        self.enter(marks);
        loop {
            let mut fallen = false;
            for j in 0..self.nodes {
                if has_fallen(marks[j], scanned[j]) {
                    self.scan_node(marks, &mut scanned, j);
                    fallen = true;
                }
            }
            if !fallen {
                break;
            }
            for j in (0..self.nodes).rev() {
                if has_fallen(marks[j], scanned[j]) {
                    self.scan_node(marks, &mut scanned, j);
                }
            }
        }
    }
}
