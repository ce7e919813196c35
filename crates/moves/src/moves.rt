// Emptying, doubling and moving a table, and moving its totals.
ghost use Rattle.std.specs.Prelude.{◌≡◌, ℕ, ◌*◌, ◌≤◌, ◌<◌, ◌^◌, [], length, get_or, set};
ghost use Rattle.calls.specs.Calls.{share_after, table_after};
ghost use Rattle.moves.specs.Loading.{volume_rows, front};
ghost use Rattle.moves.specs.Moves.{can_move, move_along, total_after, TotalsMovable, Movable};

use crate::loads::add_classes;
use travel::{LOAD, TOTAL};

// Empties the first numbers of a table.
pub fn empty_flows(table: &mut [u32], size: usize)
    requires { size ≤ length table.old }
    ensures { table.new ≡ front size (λ i. 0) table.old }
{
    let mut i: usize = 0;
    while i < size {
        table[i] = 0;
        i += 1;
    }
}

// Doubles the first numbers of a table.
fn double_flows(table: &mut [u32], size: usize)
    requires { (size ≤ length table.old) × ((i : ℕ) → i < size → 2 * get_or table.old i 0 < 2 ^ 32) }
    ensures { table.new ≡ front size (λ i. 2 * get_or table.old i 0) table.old }
{
    let mut i: usize = 0;
    while i < size {
        table[i] = 2 * table[i];
        i += 1;
    }
}

// Does a pass that chose j move a table with a share?
pub fn can_move(share: u32, j: u32) -> bool
    requires { share ≤ 1024 }
    ensures { result ≡ can_move share j }
{
    if 0 < j {
        return true;
    }
    2 * share <= 1024
}

// Moves the table, where a pass that chose j does, and answers the share afterwards.
pub fn move_table(
    table: &mut [u32],
    nodes: usize,
    m: usize,
    commodities: &[u16],
    next: &[[u16; 128]],
    volumes: &[[u16; 128]],
    share: u32,
    j: u32,
) -> u32
    requires { Movable nodes m (length commodities.now) next.now volumes.now share j table.old }
    ensures value { result ≡ share_after share (move_along (length commodities.now * m) share j (volume_rows nodes m (length commodities.now) next.now volumes.now) table.old) }
    ensures table_after { table.new ≡ table_after table.old (move_along (length commodities.now * m) share j (volume_rows nodes m (length commodities.now) next.now volumes.now) table.old) }
{
    if 0 < j {
        add_classes(table, nodes, m, commodities, next, volumes, j);
        return share + j;
    }
    if 2 * share <= 1024 {
        double_flows(table, commodities.len() * m);
        return 2 * share;
    }
    share
}

// Moves the totals S of a table as a pass that chose j, and can move it, moves the table: it adds j × the loading's totals Y, or doubles
// them where j is 0.
pub fn move_totals(flows: &mut [[u64; 512]; 2], m: usize, j: u32)
    requires { TotalsMovable m j flows.old }
    ensures { flows.new ≡ set flows.old 0 (front m (total_after j flows.old) (get_or flows.old 0 [])) }
{
    let mut l: usize = 0;
    if 0 < j {
        while l < m {
            flows[TOTAL][l] += j as u64 * flows[LOAD][l];
            l += 1;
        }
        return;
    }
    while l < m {
        flows[TOTAL][l] = 2 * flows[TOTAL][l];
        l += 1;
    }
}
