// Sets of nodes as marks, sixty-four nodes to a word: node j is marked by bit j of the first word or, from 64 on, by bit j - 64 of the second.
ghost use Rattle.std.specs.Prelude.{◌-◌, ◌^◌, ◌<◌, ◌≤◌, ◌≡◌};
ghost use Rattle.theory.specs.Marks.{marked, only_node, nodes_below, union, common, lowest_unvisited, lowest_bit};

// Stands for no node: all nodes are below it.
pub const NO_NODE: usize = 128;

// The lowest-numbered node that is reached and unvisited, or NO_NODE.
pub fn lowest_unvisited(reached: [u64; 2], visited: [u64; 2]) -> usize
    ensures { result ≡ lowest_unvisited reached visited }
{
    let low = lowest_bit(reached[0], visited[0]);
    if low < 64 {
        return low;
    }
    64 + lowest_bit(reached[1], visited[1])
}

// The same within a word, or 64, which is how many trailing zeros a word of no bit has.
fn lowest_bit(reached: u64, visited: u64) -> usize
    ensures { (result ≡ lowest_bit reached visited) × (result ≤ 64) }
{
    u64::trailing_zeros(reached & !visited) as usize
}

// Whether a set marks node j.
pub fn is_marked(marks: [u64; 2], j: usize) -> bool
    requires { j < 128 }
    ensures { result ≡ marked marks j }
{
    if j < 64 {
        marks[0] >> j & 1 == 1
    } else {
        marks[1] >> (j - 64) & 1 == 1
    }
}

// The set of node j.
pub fn only_node(j: usize) -> [u64; 2]
    requires { j < 128 }
    ensures { result ≡ only_node j }
{
    if j < 64 {
        [1 << j, 0]
    } else {
        [0, 1 << (j - 64)]
    }
}

// The set of the nodes below n.
pub fn nodes_below(n: usize) -> [u64; 2]
    requires { n ≤ 128 }
    ensures { result ≡ nodes_below n }
{
    if n < 64 {
        [ones(n), 0]
    } else {
        [ones(64), ones(n - 64)]
    }
}

// A word whose lowest n bits are 1.
fn ones(n: usize) -> u64
    requires { n ≤ 64 }
    ensures { result ≡ 2 ^ n - 1 }
{
    if n < 64 {
        (1 << n) - 1
    } else {
        0xffff_ffff_ffff_ffff
    }
}

// The set of all nodes of two sets.
pub fn both(a: [u64; 2], b: [u64; 2]) -> [u64; 2]
    ensures { result ≡ union a b }
{
    [a[0] | b[0], a[1] | b[1]]
}

// The set of the nodes that two sets have in common.
pub fn shared(a: [u64; 2], b: [u64; 2]) -> [u64; 2]
    ensures { result ≡ common a b }
{
    [a[0] & b[0], a[1] & b[1]]
}
