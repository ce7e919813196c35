// The choice of j, by which a pass moves a table. `flows` are the links' totals: S of the table, at share
// W, and Y of the loading.
ghost use Rattle.std.specs.Prelude.{◌≡◌, ◌+◌, ◌-◌, ◌*◌, ◌<◌, ◌≤◌};
ghost use Rattle.theory.specs.Moves.{moved_times, chosen as chosen_of};
ghost use Rattle.travel.specs.Links.{roads, total_of, load_of};
ghost use Rattle.travel.specs.Ranges.{Curves, MoveFits};

use crate::powers::list_start;
use crate::reciprocals::{SHARE_PARTS, reciprocal, step_by};
use crate::steps::Curve;
use crate::table::{LOAD, TOTAL};
use theory::ACCESS_POWER;

// What decides whether j qualifies: W × the sum of Y × time, and the sum of S × time.
#[derive(Clone, Copy)]
struct Sums {
    loaded: u64,
    spent: u64,
}

// The bounds of a bisection: the j that is sought is `low` or above, and not above `high`. With them stands how far the sums at `low` are below
// 0, and those at the last j that failed above it, if one did.
#[derive(Clone, Copy)]
struct Bounds {
    low: u32,
    high: u32,
    below: u64,
    above: Option<u64>,
}

// The largest j that qualifies, from 1 to the smaller of 64 and 1,024 − W, or 0 where none does. The j
// that qualify are the first ones, so a bisection finds it: low is 0 or qualifies, and no j above high
// does. Which j between the two are tried is a matter of speed alone: `guess`, and the gap of the table,
// by which the sums at 0 differ, change nothing of the answer. That 0 stands for none is in the definition `chosen`.
pub fn chosen(
    links: &[[u16; 6]],
    flows: &[[u64; 512]; 2],
    share: u32,
    guess: u32,
    gap: u64,
    curves: &[u64],
) -> u32
    requires { MoveFits links.now flows.now share × Curves links.now curves.now }
    ensures { result ≡ chosen_of (roads links.now) share (total_of flows.now) (load_of flows.now) }
{
    let mut bounds = Bounds {
        low: 0,
        high: (1024 - share).min(64),
        below: gap,
        above: None,
    };
    let mut tries = 0;
    // By `while`: the bounds close in by what each try says, and no index is counted.
    while bounds.low < bounds.high {
        let j = bounds.next_try(tries, guess, gap);
        tries += 1;
        let sums = sums_at(links, flows, share, j, curves);
        if sums.loaded <= sums.spent {
            bounds.low = j;
            bounds.below = sums.spent - sums.loaded;
        } else {
            bounds.high = j - 1;
            bounds.above = Some(sums.loaded - sums.spent);
        }
    }
    bounds.low
}

impl Bounds {
    // The next j to try. First the one above the guess, if that is below the middle. Then, four times, the one at which a straight line
    // reaches 0. Then the middle.
    fn next_try(self, tries: u32, guess: u32, gap: u64) -> u32
        requires { (self.low < self.high) × (self.high ≤ 64) }
        ensures { (self.low < result) × (result ≤ self.high) }
    {
        let middle = self.high - (self.high - self.low) / 2;
        match tries {
            0 if (self.low..middle).contains(&guess) => guess + 1,
            1..=4 => self.on_line(gap),
            _ => middle,
        }
    }

    // The j at which a straight line reaches 0: as long as no j failed, the line from the gap at 0 to what is below 0 at `low`, and otherwise
    // the line from there to what is above 0 past `high`.
    fn on_line(self, gap: u64) -> u32
        requires { (self.low < self.high) × (self.high ≤ 64) }
        ensures { (self.low < result) × (result ≤ self.high) }
    {
        let steps = match self.above {
            None => 1 + steps_to_zero(self.below, self.low, gap.wrapping_sub(self.below)),
            Some(above) => {
                let rise = self.below.wrapping_add(above);
                steps_to_zero(self.below, self.high + 1 - self.low, rise)
            }
        };
        (self.low + steps).clamp(self.low + 1, self.high)
    }
}

// How many steps a straight line that changes by `change` in `width` steps needs for an amount, at most 64.
// The last eight bits of both are left out, so that nothing overflows.
fn steps_to_zero(amount: u64, width: u32, change: u64) -> u32
    requires { width ≤ 65 }
    ensures { result ≤ 64 }
{
    let steps = amount / 256 * u64::from(width) / (change / 256 + 1);
    steps.min(64) as u32
}

// What decides whether j qualifies. Times are those at flow S + j·Y and share W + j.
fn sums_at(links: &[[u16; 6]], flows: &[[u64; 512]; 2], share: u32, j: u32, curves: &[u64]) -> Sums
    requires { MoveFits links.now flows.now share × (share + j ≤ 1024) × Curves links.now curves.now }
    ensures loaded_value { result.loaded ≡ share * moved_times (roads links.now) share (total_of flows.now) (load_of flows.now) j (load_of flows.now) }
    ensures spent_value { result.spent ≡ moved_times (roads links.now) share (total_of flows.now) (load_of flows.now) j (total_of flows.now) }
{
    let by_share = reciprocal(SHARE_PARTS, u64::from(share + j));
    let mut loaded = 0;
    let mut spent = 0;
    for (l, link) in links.iter().enumerate() {
        let s = flows[TOTAL][l];
        let y = flows[LOAD][l];
        let step = step_by(curves[l], by_share, s + j as u64 * y);
        let list = list_start(link[ACCESS_POWER] / 256, curves.len());
        let here = Curve::new(*link, list, curves).time_at(step);
        loaded += y * here.time;
        spent += s * here.time;
    }
    Sums {
        loaded: u64::from(share) * loaded,
        spent,
    }
}
