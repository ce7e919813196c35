// Steps of links without a division: dividing by a share or a capacity is multiplying by its reciprocal,
// which is worked out once, and dropping bits.
ghost use Rattle.std.specs.Prelude.{◌≡◌, ◌*◌, ◌/◌, ◌^◌, ◌<◌, ◌≤◌, length, slice_index};
ghost use Rattle.travel.specs.Links.{share_parts, capacity_parts, reciprocal, step_by};
ghost use Rattle.travel.specs.Ranges.{LinksFit, LinkPowers, Curves, most_flow};

use theory::CAPACITY;

// Reciprocals count parts: those of shares 2⁴²ths, and those of capacities 2³⁸ths.
pub const SHARE_PARTS: u64 = 1 << 42;

const CAPACITY_PARTS: u64 = 1 << 38;

// Step r by the reciprocals of a link's capacity and of the share: two multiplications in place of a
// division.
pub fn step_by(by_capacity: u64, by_share: u64, flow: u64) -> u64
    requires flow_le_most_flow { (flow ≤ most_flow) × (64 * flow * by_share < 2 ^ 64) }
    requires by_capacity_bound { 64 * flow * by_share / share_parts * by_capacity < 2 ^ 64 }
    ensures { (result ≡ step_by by_capacity by_share flow) × (result ≤ 256) }
{
    let parts = 64 * flow * by_share / SHARE_PARTS;
    let treads = parts * by_capacity / CAPACITY_PARTS;
    treads.min(256)
}

// The reciprocal of a share or a capacity, in parts of so much.
pub fn reciprocal(parts: u64, divisor: u64) -> u64
    requires { (1 ≤ divisor) × (parts < 2 ^ 63) }
    ensures { result ≡ reciprocal parts divisor }
{
    parts / divisor + 1
}

// Writes the reciprocals of the links' capacities before the lists of powers.
pub fn put_reciprocals(curves: &mut [u64], links: &[[u16; 6]])
    requires { LinksFit links.now × LinkPowers links.now curves.old }
    ensures { Curves links.now curves.new × (length curves.new ≡ length curves.old) }
{
    // No `zip` with `iter_mut`: nothing would be known of the curves after it.
    for (l, link) in links.iter().enumerate() {
        curves[l] = reciprocal(CAPACITY_PARTS, u64::from(link[CAPACITY]));
    }
}
