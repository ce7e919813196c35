// Questions 14 to 16 of a table and a share, then 20.
ghost use Rattle.std.specs.Prelude.{◌≡◌, ◌*◌, ◌<◌, ◌≤◌, ◌||◌, [], ◌∷◌, eqb, length, replicate};
ghost use Rattle.study.specs.Questions.{first_no};
ghost use Rattle.theory.specs.Network.{total_trips};
ghost use Rattle.theory.specs.Study.{may_use, network};
ghost use Rattle.calls.specs.Questions.{share_fits, share_questions};
ghost use Rattle.travel.specs.Links.{table_totals};
ghost use Rattle.questions.specs.Rows.{rows_conserve, link_permits, rows_permit, TableFits};

use theory::{ACCESS_POWER, may_use};

// The number of the first of questions 14, 15, 16, 20 that refuses, or 0. `total` is T. Where none refuses, the links' totals stand in `totals`,
// which is lent with zeros.
pub fn table_refusal(
    nodes: usize,
    links: &[[u16; 6]],
    commodities: &[u16],
    trips: &[u16],
    total: u64,
    table: &[u32],
    share: u32,
    totals: &mut [u64; 512],
) -> u8
    requires table_fits { TableFits nodes links.now commodities.now trips.now table.now }
    requires total_value { (total ≡ total_trips (network nodes links.now commodities.now trips.now)) × (total ≤ 65535) × (totals.old ≡ replicate 512 0) }
    ensures value { result ≡ first_no (share_questions (network nodes links.now commodities.now trips.now) table.now share) }
    ensures totals_after { result ≡ 0 → totals.new ≡ table_totals links.now commodities.now table.now }
{
    if !share_fits(share) {
        return 14;
    }
    let m = links.len();
    travel::write_totals(table, commodities.len(), m, totals);
    if !travel::totals_fit(totals, m, share as u64 * total) {
        return 15;
    }
    if !rows_conserve(nodes, links, commodities, trips, table, share) {
        return 16;
    }
    if !rows_permit(links, commodities, table) {
        return 20;
    }
    0
}

// Question 14: is the share 1 to 1,024?
fn share_fits(share: u32) -> bool
    ensures { result ≡ share_fits share }
{
    1 <= share && share <= 1024
}

// Question 16: does every commodity's row of the table balance?
fn rows_conserve(
    nodes: usize,
    links: &[[u16; 6]],
    commodities: &[u16],
    trips: &[u16],
    table: &[u32],
    share: u32,
) -> bool
    requires { TableFits nodes links.now commodities.now trips.now table.now × (share ≤ 1024) }
    ensures { result ≡ rows_conserve nodes links.now commodities.now trips.now share table.now }
{
    let m = links.len();
    let mut out = [0u64; 128];
    let mut into = [0u64; 128];
    let mut k: usize = 0;
    while k < commodities.len() {
        let start = k * m;
        let end = start + m;
        let first = k * nodes;
        let past = first + nodes;
        let s = theory::node_of(commodities[k]);
        if !travel::row_balances(
            nodes,
            links,
            s,
            &trips[first..past],
            &table[start..end],
            share,
            &mut out,
            &mut into,
        ) {
            return false;
        }
        k += 1;
    }
    true
}

// Question 20 (A.2, A.7): is there no flow on a link that may not carry it? A link whose head is open and that is not barred may carry any.
fn rows_permit(links: &[[u16; 6]], commodities: &[u16], table: &[u32]) -> bool
    requires { length commodities.now * length links.now ≤ length table.now }
    ensures { result ≡ rows_permit links.now commodities.now table.now }
{
    let mut l = 0;
    while l < links.len() {
        if links[l][ACCESS_POWER] % 4 != 0 && !link_permits(links, l, commodities, table) {
            return false;
        }
        l += 1;
    }
    true
}

// The same of one link, by each commodity's own entry.
fn link_permits(links: &[[u16; 6]], l: usize, commodities: &[u16], table: &[u32]) -> bool
    requires { (l < length links.now) × (length commodities.now * length links.now ≤ length table.now) }
    ensures { result ≡ link_permits links.now commodities.now table.now l }
{
    let m = links.len();
    let link = links[l];
    let mut k = 0;
    while k < commodities.len() {
        if !may_carry(link, commodities[k], table[k * m + l]) {
            return false;
        }
        k += 1;
    }
    true
}

// Whether a link may carry this flow of a commodity. Most of these flows are 0.
fn may_carry(link: [u16; 6], commodity: u16, flow: u32) -> bool
    ensures { result ≡ (may_use (link ∷ []) commodity 0 || eqb flow 0) }
{
    if flow == 0 {
        return true;
    }
    may_use(link, commodity)
}
