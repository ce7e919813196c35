// The questions of each call, in order, over a file whose fields are decoded. Of the file itself only the closed and the barred bytes, the version and p are read.
ghost use Rattle.std.specs.Prelude.{◌≡◌, replicate};
ghost use Rattle.calls.specs.Questions.{budget_fits};
ghost use Rattle.calls.specs.Calls.{start_number, table_number, pass_number, run_number};
ghost use Rattle.travel.specs.Links.{table_totals};
ghost use Rattle.refusals.specs.Parts.{PartsOf};

// Start's number: the first of questions 1 to 8, 19, 23 and 9 to 12 that refuses, or 0.
pub fn start_refusal(
    file: &[u8],
    opening: u8,
    nodes: usize,
    links: &[[u16; 6]],
    commodities: &[u16],
    trips: &[u16],
    table: &[u32],
) -> u8
    requires { PartsOf file.now opening nodes links.now commodities.now trips.now }
    ensures { result ≡ start_number file.now table.now }
{
    if opening != 0 {
        return opening;
    }
    let p = study::destination_field(file) as usize;
    // Links of fewer than 12 bytes have no powers of their own.
    let refusal = questions::study_refusal(
        nodes,
        links,
        &commodities[..p],
        study::accepted_section(file, study::CLOSED),
        study::accepted_section(file, study::BARRED),
        commodities,
        trips,
        study::link_size(file) < 12,
    );
    if refusal != 0 {
        return refusal;
    }
    if table.len() < commodities.len() * links.len() {
        return 12;
    }
    0
}

// Audit's number: as start's, and then questions 14 to 16 and 20. Where nothing refuses, the links' totals stand in `totals`, which
// is lent with zeros.
pub fn totals_refusal(
    file: &[u8],
    opening: u8,
    nodes: usize,
    links: &[[u16; 6]],
    commodities: &[u16],
    trips: &[u16],
    table: &[u32],
    share: u32,
    totals: &mut [u64; 512],
) -> u8
    requires { PartsOf file.now opening nodes links.now commodities.now trips.now × (totals.old ≡ replicate 512 0) }
    ensures value { result ≡ table_number file.now table.now share }
    ensures totals_after { result ≡ 0 → totals.new ≡ table_totals links.now commodities.now table.now }
{
    let refusal = start_refusal(file, opening, nodes, links, commodities, trips, table);
    if refusal != 0 {
        return refusal;
    }
    let total = questions::total_trips(trips);
    questions::table_refusal(
        nodes,
        links,
        commodities,
        trips,
        total,
        table,
        share,
        totals,
    )
}

// Pass's number, and that of taking back up to question 20: as audit's, with question 12 put to the note too.
pub fn note_refusal(
    file: &[u8],
    opening: u8,
    nodes: usize,
    links: &[[u16; 6]],
    commodities: &[u16],
    trips: &[u16],
    table: &[u32],
    share: u32,
    note: &[u16],
    totals: &mut [u64; 512],
) -> u8
    requires { PartsOf file.now opening nodes links.now commodities.now trips.now × (totals.old ≡ replicate 512 0) }
    ensures value { result ≡ pass_number file.now table.now share note.now }
    ensures totals_after { result ≡ 0 → totals.new ≡ table_totals links.now commodities.now table.now }
{
    if note.len() <= commodities.len() * nodes {
        let refusal = start_refusal(file, opening, nodes, links, commodities, trips, table);
        if refusal != 0 {
            return refusal;
        }
        return 12;
    }
    totals_refusal(
        file,
        opening,
        nodes,
        links,
        commodities,
        trips,
        table,
        share,
        totals,
    )
}

// Run's number: as start's, and then question 13.
pub fn run_refusal(
    file: &[u8],
    opening: u8,
    nodes: usize,
    links: &[[u16; 6]],
    commodities: &[u16],
    trips: &[u16],
    table: &[u32],
    budget: u32,
) -> u8
    requires { PartsOf file.now opening nodes links.now commodities.now trips.now }
    ensures { result ≡ run_number file.now table.now budget }
{
    let refusal = start_refusal(file, opening, nodes, links, commodities, trips, table);
    if refusal != 0 {
        return refusal;
    }
    if !budget_fits(budget) {
        return 13;
    }
    0
}

// 13. Is the budget 1 to 1,024?
pub fn budget_fits(budget: u32) -> bool
    ensures { result ≡ budget_fits budget }
{
    1 <= budget && budget <= 1024
}
