// Destinations in groups of eight, and the trips to them.
ghost use Rattle.std.specs.Prelude.{◌≡◌, ◌↔◌, ℕ, false, ◌+◌, ◌≤◌, ◌<◌, min, length, get_or};
ghost use Rattle.search.specs.Groups.{ZeroBelow, Member};

// The group of the first eight of these destinations: the first again in the place of those that are wanting.
pub fn group_of(destinations: &[u16]) -> [u16; 8]
    requires { (0 < length destinations.now) × (length destinations.now ≤ 32) }
    ensures { (i : ℕ) → i < 8 → Member destinations.now 0 i (get_or result i 0) }
{
    let mut group = [destinations[0]; 8];
    let size = destinations.len().min(8);
    group[..size].copy_from_slice(&destinations[..size]);
    group
}

// The number after the last destination of the group that begins with destination `first` of p.
pub fn group_end(p: usize, first: usize) -> usize
    requires { (p ≤ 32) × (first < p) }
    ensures { result ≡ min (first + 8) p }
{
    p.min(first + 8)
}

// Whether there are trips among some. There is no branch, so several numbers are seen at once.
pub fn any_trips(trips: &[u16]) -> bool
    ensures { (result ≡ false) ↔ ZeroBelow (length trips.now) trips.now }
{
    trips.iter().fold(0, |any, trips| any | *trips) != 0
}
