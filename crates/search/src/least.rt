// The sum of trips × least time, found from the least times to eight destinations side by side.
ghost use Rattle.std.specs.Prelude.{◌≡◌, ℕ, ◌*◌, ◌≤◌, ◌<◌, length};
ghost use Rattle.search.specs.Given.{AllSearchable, class_of};
ghost use Rattle.search.specs.Chains.{chain_of};
ghost use Rattle.search.specs.Lanes.{EachSearchable, Marked, Found};
ghost use Rattle.search.specs.Groups.{least_over};
ghost use Rattle.search.specs.Least.{LeastTo, LeastToFirst};

use crate::groups::{any_trips, group_end, group_of};
use crate::scans::Search;

// The least times to the destinations of a group, by a search of these parts.
pub fn search(
    nodes: usize,
    links: &[[u16; 6]],
    times: &[u32; 512],
    group: [u16; 8],
    into: &[u16; 896],
    marks: &mut [[u32; 8]; 128],
)
    requires { EachSearchable nodes links.now times.now group × (into.now ≡ chain_of (class_of group) links.now 1) }
    ensures { Found nodes links.now times.now group marks.new }
{
    let search = Search {
        nodes,
        links,
        times,
        group,
        into,
    };
    search.put_marks(marks);
}

// The sum of trips × mark over all nodes, for destination k of a group.
fn least_to(trips: &[u16], marks: &[[u32; 8]; 128], k: usize) -> u64
    requires { (length trips.now ≤ 128) × (k < 8) × Marked marks.now }
    ensures { LeastTo trips.now marks.now k (length trips.now) result }
{
    let mut least = 0;
    // By index: zip ends at either slice, and is slower than allowed.
    for (j, trips) in trips.iter().enumerate() {
        least += u64::from(*trips) * u64::from(marks[j][k]);
    }
    least
}

// The sum of trips × mark over the destinations of a group, to which these are the trips, destination by destination.
fn least_to_group(nodes: usize, trips: &[u16], marks: &[[u32; 8]; 128]) -> u64
    requires { (0 < nodes) × (nodes ≤ 128) × (length trips.now ≤ 8 * nodes) × Marked marks.now }
    ensures { (m : ℕ) → length trips.now ≡ m * nodes → LeastToFirst nodes trips.now marks.now m result }
{
    let mut least = 0;
    for (k, trips) in trips.chunks_exact(nodes).enumerate() {
        least += least_to(trips, marks, k);
    }
    least
}

// The sum of trips × least time over all destinations. A group of destinations to which nobody goes is not searched, and adds nothing.
pub fn least_times(
    nodes: usize,
    links: &[[u16; 6]],
    destinations: &[u16],
    trips: &[u16],
    times: &[u32; 512],
    into: &[u16; 896],
) -> u64
    requires all_searchable { AllSearchable nodes links.now destinations.now times.now × (into.now ≡ chain_of (class_of destinations.now) links.now 1) }
    requires trips_len { length trips.now ≡ length destinations.now * nodes }
    ensures { result ≡ least_over nodes links.now destinations.now trips.now times.now }
{
    let mut marks = [[0; 8]; 128];
    let mut least = 0;
    for first in (0..destinations.len()).step_by(8) {
        let past = group_end(destinations.len(), first);
        let trips = &trips[first * nodes..past * nodes];
        if any_trips(trips) {
            let group = group_of(&destinations[first..past]);
            search(nodes, links, times, group, into, &mut marks);
            least += least_to_group(nodes, trips, &marks);
        }
    }
    least
}
