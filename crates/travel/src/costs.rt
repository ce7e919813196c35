// Cost, the area of each link's staircase, with the count of links past their curves (A.4); and the sum of times × flows behind the gap.
ghost use Rattle.std.specs.Prelude.{◌≡◌, ◌*◌, ◌≤◌, length, slice_index};
ghost use Rattle.theory.specs.Finite.{sum};
ghost use Rattle.theory.specs.Flows.{step, is_over};
ghost use Rattle.theory.specs.Cost.{link_cost};
ghost use Rattle.travel.specs.Links.{row_time, list_cost, list_over, list_product};
ghost use Rattle.travel.specs.Ranges.{LinksFit, LinkPowers, HasLists, ShareFits, Within, most_flow, most_time};

use crate::powers::{ALL_LISTS, ONE_LIST, list_start};
use crate::steps::Curve;
use theory::{ACCESS_POWER, CAPACITY, FREE_TIME, RISE};

// The cost of links and how many of them are over.
#[derive(Clone, Copy)]
pub struct Costs {
    pub cost: u64,
    pub over: u32,
}

// The area of a link's staircase and whether the link is over.
#[derive(Clone, Copy)]
struct LinkCost {
    area: u64,
    over: bool,
}

// The cost of the links with the flows of an array, at a share, and how many of them have step 256.
pub fn cost(links: &[[u16; 6]], flows: &[u64; 512], share: u32, curves: &[u64]) -> Costs
    requires links_fit { LinksFit links.now × ShareFits share × Within (length links.now) most_flow flows.now }
    requires link_powers { LinkPowers links.now curves.now }
    ensures cost_value { result.cost ≡ list_cost links.now share flows.now }
    ensures over_value { result.over ≡ list_over links.now share flows.now }
{
    if curves.len() == ONE_LIST {
        return cost_by::<ONE_LIST>(links, flows, share, curves);
    }
    cost_by::<ALL_LISTS>(links, flows, share, curves)
}

// The same, with the lists as they begin in curves of so many places. Where there is one list, links' powers are not looked at.
fn cost_by<const PLACES: usize>(
    links: &[[u16; 6]],
    flows: &[u64; 512],
    share: u32,
    curves: &[u64],
) -> Costs
    requires links_fit { LinksFit links.now × ShareFits share × Within (length links.now) most_flow flows.now }
    requires link_powers { LinkPowers links.now curves.now × HasLists PLACES links.now }
    ensures cost_value { result.cost ≡ list_cost links.now share flows.now }
    ensures over_value { result.over ≡ list_over links.now share flows.now }
{
    let mut cost = 0;
    let mut over = 0;
    // Two slices of one length are gone over by one count.
    for (link, flow) in links.iter().zip(&flows[..links.len()]) {
        let list = list_start(link[ACCESS_POWER] / 256, PLACES);
        let here = link_cost(Curve::new(*link, list, curves), share, *flow);
        cost += here.area;
        over += u32::from(here.over);
    }
    Costs { cost, over }
}

// The area of a link's staircase from 0 to 64·S: the treads below the step, each c·W wide, and what is
// left at the height of the step.
fn link_cost(curve: Curve, share: u32, flow: u64) -> LinkCost
    requires { ShareFits share × (flow ≤ most_flow) }
    ensures area_value { (result.area ≡ link_cost (row_time curve.entry.link) (slice_index curve.entry.link 4) share flow) × (result.area ≤ 64 * flow * most_time) }
    ensures over_value { result.over ≡ is_over (step (slice_index curve.entry.link 4) share flow) }
{
    let width = u64::from(curve.link[CAPACITY]) * u64::from(share);
    let step = curve.step_of(share, flow);
    let whole = heights_below(curve, step) * width;
    let here = curve.time_at(step);
    let area = whole + here.time * (64 * flow - step * width);
    LinkCost {
        area,
        over: here.over,
    }
}

// The sum of the heights of the treads below a step. A scaled power below the 256th has 32 bits, so the cast
// to them keeps it; the compiler then multiplies several at once.
fn heights_below(curve: Curve, step: u64) -> u64
    requires { step ≤ 256 }
    ensures { (result ≡ sum step (row_time curve.entry.link)) × (result ≤ step * most_time) }
{
    let rise = u64::from(curve.link[RISE]);
    let mut risen = 0;
    for power in &curve.curves[curve.list..curve.list + step as usize] {
        let low = *power as u32;
        risen += rise * u64::from(low) / 16777216;
    }
    u64::from(curve.link[FREE_TIME]) * step + risen
}

// The sum over m links of time × flow. The contract has m beside the arrays.
pub fn product(times: &[u32; 512], flows: &[u64; 512], m: usize) -> u64
    requires { (m ≤ 512) × Within m most_time times.now × Within m most_flow flows.now }
    ensures { result ≡ list_product m times.now flows.now }
{
    let mut spent = 0;
    for (time, flow) in times[..m].iter().zip(&flows[..m]) {
        spent += u64::from(*time) * flow;
    }
    spent
}
