// A turn of a run. Data flows once: times, next links and the loading are computed once, and not again after a doubling. The totals are kept
// from turn to turn.
ghost use Rattle.std.specs.Prelude.{◌≡◌, length};
ghost use Rattle.theory.specs.Study.{network};
ghost use Rattle.travel.specs.Ranges.{Curves};
ghost use Rattle.judging.specs.Study.{study_of, Judgeable};
ghost use Rattle.judging.specs.Judged.{Prepared, Lent, Stands, Turned, Left, turn_of};

use crate::gaps::gap_of;
use crate::judge::judge;
use crate::{Standing, Step, Turn};

// A turn of a run: judges the table, and moves it with its totals where the run goes on. The arrays hold what judging computes; they may be
// known from the turn before, if it doubled the table. A right guess of j saves time; none decides anything.
pub fn turn_table(
    nodes: usize,
    links: &[[u16; 6]],
    commodities: &[u16],
    trips: &[u16],
    chains: &[[u16; 896]],
    curves: &[u64],
    times: &mut [u32; 512],
    next: &mut [[u16; 128]],
    volumes: &mut [[u16; 128]],
    flows: &mut [[u64; 512]; 2],
    table: &mut [u32],
    standing: Standing,
) -> Turn
    requires judgeable { Judgeable (study_of nodes links.now commodities.now trips.now) table.old standing.share × Prepared (study_of nodes links.now commodities.now trips.now) chains.now curves.now × Curves links.now curves.now }
    requires lent { Lent (study_of nodes links.now commodities.now trips.now) times.old next.old volumes.old flows.old }
    requires stands { Stands (study_of nodes links.now commodities.now trips.now) table.old standing times.old next.old volumes.old flows.old }
    ensures turned { Turned (network nodes links.now commodities.now trips.now) table.old standing result table.new }
    ensures left { Left (study_of nodes links.now commodities.now trips.now) result table.new times.new next.new volumes.new flows.new }
{
    let m = links.len();
    let share = standing.share;
    judge(
        nodes,
        links,
        commodities,
        trips,
        chains,
        curves,
        share,
        standing.known,
        times,
        next,
        volumes,
        flows,
    );
    let gap = gap_of(times, flows, m, share);
    if gap <= standing.limit * share as u64 {
        return turned(Step::Reached, share, gap, false);
    }
    let j = travel::chosen(links, flows, share, standing.guess, gap, curves);
    if !moves::can_move(share, j) {
        return turned(Step::Finest, share, gap, false);
    }
    if standing.last {
        return turned(Step::Spent, share, gap, false);
    }
    moves::move_totals(flows, m, j);
    let after = moves::move_table(table, nodes, m, commodities, next, volumes, share, j);
    turned(Step::Moved, after, gap, j == 0)
}

// A turn, of its parts.
fn turned(step: Step, share: u32, gap: u64, known: bool) -> Turn
    ensures { result ≡ turn_of step share gap known }
{
    Turn {
        step,
        share,
        gap,
        known,
    }
}
