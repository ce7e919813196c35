// A table compared with j times a loading and lessened by it, or halved. The loading stands as volumes along next links.
ghost use Rattle.std.specs.Prelude.{◌≡◌, cond, ℕ, ◌*◌, ◌-◌, ◌/◌, ◌≤◌, ◌<◌, leb, length, get_or};
ghost use Rattle.theory.specs.Finite.{all};
ghost use Rattle.theory.specs.Notes.{even};
ghost use Rattle.loading.specs.Along.{volume_over, Scatterable};
ghost use Rattle.travel.specs.Links.{padded};
ghost use Rattle.moves.specs.Loading.{volume_rows, front};
ghost use Rattle.notes.specs.Lessened.{no_loads, less_in, Lessenable};

// Is no number of a table of p rows, each of m flows, less than j times the loading's?
pub fn holds_part(
    table: &[u32],
    nodes: usize,
    m: usize,
    p: usize,
    next: &[[u16; 128]],
    volumes: &[[u16; 128]],
    j: u32,
) -> bool
    requires { Lessenable nodes m p next.now volumes.now j table.now }
    ensures { result ≡ all (p * m) (λ i. leb (j * get_or (volume_rows nodes m p next.now volumes.now) i 0) (get_or table.now i 0)) }
{
    let mut part = [0u32; 512];
    let mut k: usize = 0;
    while k < p {
        if loading::any_trips(&volumes[k]) {
            put_part(&mut part, nodes, m, &next[k], &volumes[k], j);
            let start = k * m;
            let end = start + m;
            if count_less(&table[start..end], &part, m) != 0 {
                return false;
            }
        }
        k += 1;
    }
    true
}

// Lessens a table of p rows, each of m flows, by j times the loading.
pub fn lessen(
    table: &mut [u32],
    nodes: usize,
    m: usize,
    p: usize,
    next: &[[u16; 128]],
    volumes: &[[u16; 128]],
    j: u32,
)
    requires lessenable { Lessenable nodes m p next.now volumes.now j table.old }
    requires by_index { (i : ℕ) → i < p * m → j * get_or (volume_rows nodes m p next.now volumes.now) i 0 ≤ get_or table.old i 0 }
    ensures { table.new ≡ front (p * m) (λ i. get_or table.old i 0 - j * get_or (volume_rows nodes m p next.now volumes.now) i 0) table.old }
{
    let mut part = [0u32; 512];
    let mut k: usize = 0;
    while k < p {
        if loading::any_trips(&volumes[k]) {
            put_part(&mut part, nodes, m, &next[k], &volumes[k], j);
            let start = k * m;
            let end = start + m;
            lessen_row(&mut table[start..end], &part, m);
        }
        k += 1;
    }
}

// Writes j times the loading of one commodity, by link.
fn put_part(
    part: &mut [u32; 512],
    nodes: usize,
    m: usize,
    next: &[u16; 128],
    volumes: &[u16; 128],
    j: u32,
)
    requires { Scatterable nodes m next.now volumes.now j no_loads }
    ensures { part.new ≡ padded m (λ l. j * volume_over nodes next.now volumes.now l) }
{
    *part = [0u32; 512];
    loading::add_volumes(part, nodes, m, next, volumes, j);
}

// How many of a row's first m numbers are less than the part's. No turn of the loop ends it, so that a compiler takes several at once.
fn count_less(row: &[u32], part: &[u32; 512], m: usize) -> u32
    requires { (m ≤ 512) × (m ≤ length row.now) }
    ensures { result ≡ less_in row.now part.now m }
{
    let mut less: u32 = 0;
    let mut l: usize = 0;
    while l < m {
        less += one_if(row[l] < part[l]);
        l += 1;
    }
    less
}

// 1 where a test holds, and 0 otherwise.
fn one_if(test: bool) -> u32
    ensures { result ≡ cond test 1 0 }
{
    if test { 1 } else { 0 }
}

// Lessens a row's first m numbers by the part's.
fn lessen_row(row: &mut [u32], part: &[u32; 512], m: usize)
    requires { (m ≤ 512) × (m ≤ length row.old) × ((l : ℕ) → l < m → get_or part.now l 0 ≤ get_or row.old l 0) }
    ensures { row.new ≡ front m (λ l. get_or row.old l 0 - get_or part.now l 0) row.old }
{
    let mut l: usize = 0;
    while l < m {
        row[l] -= part[l];
        l += 1;
    }
}

// Are the first numbers of a table even? The odd ones are counted.
pub fn all_even(table: &[u32], size: usize) -> bool
    requires { (size ≤ length table.now) × (size ≤ 32768) }
    ensures { result ≡ all size (λ i. even (get_or table.now i 0)) }
{
    let mut odd: u32 = 0;
    let mut i: usize = 0;
    while i < size {
        odd += table[i] % 2;
        i += 1;
    }
    odd == 0
}

// Halves the first numbers of a table.
pub fn halve(table: &mut [u32], size: usize)
    requires { size ≤ length table.old }
    ensures { table.new ≡ front size (λ i. get_or table.old i 0 / 2) table.old }
{
    let mut i: usize = 0;
    while i < size {
        table[i] = table[i] / 2;
        i += 1;
    }
}
