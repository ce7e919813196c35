// Volumes added to a row of link flows.
ghost use Rattle.std.specs.Prelude.{◌≡◌};
ghost use Rattle.loading.specs.Along.{Scatterable, scattered};

use theory::NO_LINK;

// Adds `weight` times the volumes to the first m numbers of a row, each at its node's next link. The contract has the nodes and m beside the arrays, and
// `NO_LINK` where a node has no next link.
pub fn add_volumes(
    row: &mut [u32],
    nodes: usize,
    m: usize,
    next: &[u16; 128],
    volumes: &[u16; 128],
    weight: u32,
)
    requires { Scatterable nodes m next.now volumes.now weight row.old }
    ensures { row.new ≡ scattered nodes m next.now volumes.now weight row.old }
{
    for (l, volume) in next[..nodes].iter().zip(&volumes[..nodes]) {
        if *l != NO_LINK {
            row[usize::from(*l)] += weight * u32::from(*volume);
        }
    }
}
