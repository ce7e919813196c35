// A start.
ghost use Rattle.std.specs.Prelude.{◌≡◌, [], ◌*◌, ◌≤◌, cond, length, get_or, replicate};
ghost use Rattle.theory.specs.Moves.{started};
ghost use Rattle.theory.specs.Study.{network};
ghost use Rattle.calls.specs.Calls.{overwritten};
ghost use Rattle.judging.specs.Study.{study_of, Ready};
ghost use Rattle.judging.specs.Judged.{Prepared, Lent};

use crate::judge::judge;

// Start: the table becomes the loading at empty roads, whatever it held before. It is judged in arrays that are lent, and can be lent again.
pub fn start_table(
    nodes: usize,
    links: &[[u16; 6]],
    commodities: &[u16],
    trips: &[u16],
    chains: &[[u16; 896]],
    curves: &[u64],
    table: &mut [u32],
    times: &mut [u32; 512],
    next: &mut [[u16; 128]],
    volumes: &mut [[u16; 128]],
    flows: &mut [[u64; 512]; 2],
)
    requires ready { Ready (study_of nodes links.now commodities.now trips.now) × Prepared (study_of nodes links.now commodities.now trips.now) chains.now curves.now }
    requires links_in_bounds { length commodities.now * length links.now ≤ length table.old }
    requires lent { Lent (study_of nodes links.now commodities.now trips.now) times.old next.old volumes.old flows.old × (get_or flows.old 0 [] ≡ replicate 512 0) }
    ensures table_after { table.new ≡ overwritten (started (network nodes links.now commodities.now trips.now)).table table.old }
    ensures lent_2 { Lent (study_of nodes links.now commodities.now trips.now) times.new next.new volumes.new flows.new × (get_or flows.new 0 [] ≡ replicate 512 0) }
{
    let m = links.len();
    judge(
        nodes,
        links,
        commodities,
        trips,
        chains,
        curves,
        1,
        false,
        times,
        next,
        volumes,
        flows,
    );
    moves::empty_flows(table, commodities.len() * m);
    moves::add_classes(table, nodes, m, commodities, next, volumes, 1);
}

// The table that a run judges first: a start's, or where it is resumed the table that it is lent.
pub fn first_table(
    nodes: usize,
    links: &[[u16; 6]],
    commodities: &[u16],
    trips: &[u16],
    chains: &[[u16; 896]],
    curves: &[u64],
    table: &mut [u32],
    times: &mut [u32; 512],
    next: &mut [[u16; 128]],
    volumes: &mut [[u16; 128]],
    flows: &mut [[u64; 512]; 2],
    resumed: bool,
)
    requires ready { Ready (study_of nodes links.now commodities.now trips.now) × Prepared (study_of nodes links.now commodities.now trips.now) chains.now curves.now }
    requires links_in_bounds { length commodities.now * length links.now ≤ length table.old }
    requires lent { Lent (study_of nodes links.now commodities.now trips.now) times.old next.old volumes.old flows.old × (get_or flows.old 0 [] ≡ replicate 512 0) }
    ensures table_after { table.new ≡ cond resumed table.old (overwritten (started (network nodes links.now commodities.now trips.now)).table table.old) }
    ensures lent_2 { Lent (study_of nodes links.now commodities.now trips.now) times.new next.new volumes.new flows.new × (get_or flows.new 0 [] ≡ replicate 512 0) }
{
    if resumed {
        return;
    }
    start_table(
        nodes,
        links,
        commodities,
        trips,
        chains,
        curves,
        table,
        times,
        next,
        volumes,
        flows,
    );
}
