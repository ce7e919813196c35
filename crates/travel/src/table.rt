// S: each link's total over the commodities, and question 15 of the totals.
ghost use Rattle.std.specs.Prelude.{◌≡◌, ◌*◌, ◌≤◌, length, replicate};
ghost use Rattle.theory.specs.Flows.{link_total};
ghost use Rattle.travel.specs.Links.{padded, list_fits};
ghost use Rattle.travel.specs.Ranges.{Within, RowAdded, most_total};

// Two totals of each link that belong together: S of a table and Y of its loading. They are rows of one array: the contract of `chosen` has it so.
pub const TOTAL: usize = 0;

pub const LOAD: usize = 1;

// The totals of a table of p rows, each of m flows. Here and below the contracts of public functions have p and m beside the slices.
pub fn totals(table: &[u32], p: usize, m: usize) -> [u64; 512]
    requires { (p ≤ 64) × (m ≤ 512) × (p * m ≤ length table.now) }
    ensures { (result ≡ padded m (link_total p m table.now)) × Within 512 most_total result }
{
    let mut sums = [0u64; 512];
    write_totals(table, p, m, &mut sums);
    sums
}

// Writes the same into an array of zeros.
pub fn write_totals(table: &[u32], p: usize, m: usize, sums: &mut [u64; 512])
    requires { (p ≤ 64) × (m ≤ 512) × (p * m ≤ length table.now) × (sums.old ≡ replicate 512 0) }
    ensures { (sums.new ≡ padded m (link_total p m table.now)) × Within 512 most_total sums.new }
{
    for k in 0..p {
        let start = k * m;
        add_row(&table[start..start + m], sums);
    }
}

// Adds a row of flows to the first sums. A sum is of 63 rows at most before.
fn add_row(row: &[u32], sums: &mut [u64; 512])
    requires { (length row.now ≤ 512) × (length sums.old ≡ 512) × Within (length row.now) (63 * 4294967295) sums.old }
    ensures { RowAdded (length row.now) row.now sums.old sums.new }
{
    // No `zip` with `iter_mut`: nothing would be known of the sums after it.
    for (l, flow) in row.iter().enumerate() {
        sums[l] += u64::from(*flow);
    }
}

// Question 15: is each total at most the limit?
pub fn totals_fit(totals: &[u64; 512], m: usize, limit: u64) -> bool
    requires { m ≤ 512 }
    ensures { result ≡ list_fits m totals.now limit }
{
    totals[..m].iter().all(|total| *total <= limit)
}
