// An audit. Data flows once: totals, which the questions need already, times and least times are computed once. No next link is needed.
ghost use Rattle.std.specs.Prelude.{◌≡◌, length};
ghost use Rattle.theory.specs.Study.{network};
ghost use Rattle.travel.specs.Links.{table_totals};
ghost use Rattle.travel.specs.Ranges.{CurveRoom};
ghost use Rattle.judging.specs.Study.{study_of, Judgeable};
ghost use Rattle.judging.specs.Judged.{Audited};

use crate::Sums;
use crate::classes::least_times;

// Audit: the gap and cost of a table with these totals, which say all that is needed of it, and how many links are over. The gap is taken by
// its definition, from the least times.
pub fn audit_table(
    nodes: usize,
    links: &[[u16; 6]],
    commodities: &[u16],
    trips: &[u16],
    table: &[u32],
    share: u32,
    totals: &[u64; 512],
    curves: &mut [u64],
) -> Sums
    requires judgeable { Judgeable (study_of nodes links.now commodities.now trips.now) table.now share }
    requires totals_value { totals.now ≡ table_totals links.now commodities.now table.now }
    requires curve_room { CurveRoom links.now (length curves.old) }
    ensures { Audited (network nodes links.now commodities.now trips.now) table.now share result }
{
    let mut times = [0u32; 512];
    travel::put_powers(curves);
    travel::times(links, totals, share, curves, &mut times);
    let least = least_times(nodes, links, commodities, trips, &times);
    let gap = travel::product(&times, totals, links.len()) - share as u64 * least;
    let costs = travel::cost(links, totals, share, curves);
    Sums {
        gap,
        cost: costs.cost,
        over: costs.over,
    }
}
