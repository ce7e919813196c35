// What judging a table takes beyond its totals: times, next links, and the loading along them.
ghost use Rattle.std.specs.Prelude.{◌≡◌, true, length};
ghost use Rattle.travel.specs.Ranges.{ShareFits};
ghost use Rattle.judging.specs.Study.{study_of, Ready};
ghost use Rattle.judging.specs.Judged.{Prepared, Lent, TotalsFit, Known, JudgedAt};

use crate::classes::put_next_links;
use travel::{LOAD, TOTAL};

// Fills the arrays with the times at totals and a share, the next links at these times, the loading's volumes and its totals. Where they
// are known already, as after a doubling, nothing is computed.
pub fn judge(
    nodes: usize,
    links: &[[u16; 6]],
    commodities: &[u16],
    trips: &[u16],
    chains: &[[u16; 896]],
    curves: &[u64],
    share: u32,
    known: bool,
    times: &mut [u32; 512],
    next: &mut [[u16; 128]],
    volumes: &mut [[u16; 128]],
    flows: &mut [[u64; 512]; 2],
)
    requires ready { Ready (study_of nodes links.now commodities.now trips.now) × ShareFits share × Prepared (study_of nodes links.now commodities.now trips.now) chains.now curves.now }
    requires known { known ≡ true → Known (study_of nodes links.now commodities.now trips.now) share times.old next.old volumes.old flows.old }
    requires lent { Lent (study_of nodes links.now commodities.now trips.now) times.old next.old volumes.old flows.old × TotalsFit (length links.now) flows.old }
    ensures { JudgedAt (study_of nodes links.now commodities.now trips.now) share flows.old times.new next.new volumes.new flows.new }
{
    if known {
        return;
    }
    travel::times(links, &flows[TOTAL], share, curves, times);
    put_next_links(nodes, links, commodities, trips, times, chains, next);
    moves::load(
        nodes,
        links,
        commodities,
        trips,
        next,
        volumes,
        &mut flows[LOAD],
    );
}
