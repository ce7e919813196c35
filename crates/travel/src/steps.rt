// Steps and times of links.
ghost use Rattle.std.specs.Prelude.{◌≡◌, ◌≤◌, length, slice_index};
ghost use Rattle.theory.specs.Flows.{step};
ghost use Rattle.travel.specs.Links.{padded, timed, list_time};
ghost use Rattle.travel.specs.Ranges.{LinksFit, CurveFits, ListAt, LinkPowers, ShareFits, Within, Clear, TimesFit, most_flow, most_time};

use crate::powers::list_start;
use theory::{ACCESS_POWER, CAPACITY, FREE_TIME, RISE};

// The time of a link, and whether step 256 was reached: it has then run onto the level part of its curve (A.4).
#[derive(Clone, Copy)]
pub struct LinkTime {
    pub time: u64,
    pub over: bool,
}

// A link and the curves of a call, in which the list of the link's power begins at `list`.
#[derive(Clone, Copy)]
pub struct Curve<'a> {
    pub link: [u16; 6],
    pub list: usize,
    pub curves: &'a [u64],
    ghost fits: { CurveFits link list curves.now },
}

impl<'a> Curve<'a> {
    pub fn new(link: [u16; 6], list: usize, curves: &'a [u64]) -> Self
        requires { ListAt curves.now link list }
        ensures { result.link ≡ link }
    {
        Curve { link, list, curves }
    }

    // Time at a step, a + floor(b·r^q / 64^q), and whether that is step 256. No other function makes a `LinkTime`.
    pub fn time_at(self, step: u64) -> LinkTime
        requires { step ≤ 256 }
        ensures { (result ≡ timed self.entry.link step) × (result.time ≤ most_time) }
    {
        let power = self.curves[self.list + step as usize];
        let time = u64::from(self.link[FREE_TIME]) + u64::from(self.link[RISE]) * power / 16777216;
        LinkTime {
            time,
            over: step == 256,
        }
    }

    // Step r: the smaller of 256 and floor(64·S / (c·W)).
    pub fn step_of(self, share: u32, flow: u64) -> u64
        requires { ShareFits share × (flow ≤ most_flow) }
        ensures { (result ≡ step (slice_index self.entry.link 4) share flow) × (result ≤ 256) }
    {
        let width = u32::from(self.link[CAPACITY]) * share;
        let treads = (64 * flow) as u32 / width;
        u64::from(treads.min(256))
    }
}

// Time of a link with a flow, at a share, and whether step 256 was reached.
pub fn link_time(link: [u16; 6], list: usize, share: u32, flow: u64, curves: &[u64]) -> LinkTime
    requires { ListAt curves.now link list × ShareFits share × (flow ≤ most_flow) }
    ensures { (result ≡ timed link (step (slice_index link 4) share flow)) × (result.time ≤ most_time) }
{
    let curve = Curve::new(link, list, curves);
    curve.time_at(curve.step_of(share, flow))
}

// Writes the times of the links with the flows of an array, at a share, in place of the first numbers of
// an array whose other numbers are 0.
pub fn times(
    links: &[[u16; 6]],
    flows: &[u64; 512],
    share: u32,
    curves: &[u64],
    times: &mut [u32; 512],
)
    requires links_fit { LinksFit links.now × ShareFits share × Within (length links.now) most_flow flows.now }
    requires link_powers { LinkPowers links.now curves.now × Clear (length links.now) times.old }
    ensures times_after { times.new ≡ padded (length links.now) (list_time links.now share flows.now) }
    ensures times_fit { TimesFit (length links.now) times.new }
{
    for (l, link) in links.iter().enumerate() {
        let list = list_start(link[ACCESS_POWER] / 256, curves.len());
        let here = link_time(*link, list, share, flows[l], curves);
        times[l] = here.time as u32;
    }
}
