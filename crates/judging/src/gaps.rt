// The gap of a judged table.
ghost use Rattle.std.specs.Prelude.{◌≡◌, ◌*◌, ◌-◌, [], get_or};
ghost use Rattle.travel.specs.Links.{list_product};
ghost use Rattle.judging.specs.Judged.{GapFits};

use travel::{LOAD, TOTAL};

// Gap: the sum of t·S, less W times the sum of t·Y, which is that of D(j,s) × distance.
pub fn gap_of(times: &[u32; 512], flows: &[[u64; 512]; 2], m: usize, share: u32) -> u64
    requires { GapFits m times.now flows.now share }
    ensures { result ≡ list_product m times.now (get_or flows.now 0 []) - share * list_product m times.now (get_or flows.now 1 []) }
{
    let spent = travel::product(times, &flows[TOTAL], m);
    let least = travel::product(times, &flows[LOAD], m);
    spent - share as u64 * least
}
