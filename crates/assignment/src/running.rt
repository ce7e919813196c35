ghost use Rattle.std.specs.Prelude.{◌≡◌, length};
ghost use Rattle.network.specs.Decoded.{Room};
ghost use Rattle.refusals.specs.Places.{curve_places};
ghost use Rattle.calls.specs.Calls.{run_number, run_answer, run_table};
ghost use Rattle.assignment.specs.Answers.{ending_of, ended_answer};
ghost use Rattle.assignment.specs.Runs.{SetsOut};
ghost use Rattle.judging.specs.Study.{study_of};
ghost use Rattle.judging.specs.Classes.{ChainRoom, RowRoom};
ghost use Rattle.refusals.specs.Parts.{PartsOf};

use crate::Course;
use crate::answers::refused_run;
use calls::{Ending, RunAnswer};
use judging::{Standing, Step};
use network::{ALL_ENTRIES, CAR_ENTRIES, SHORT, SHORT_ENTRIES, SHORT_LINKS, has_lorries};
use refusals::{FEW_COMMODITIES, curve_places, is_small, run_refusal};
use theory::{NO_LINK, car_count};
use travel::{ALL_LISTS, ONE_LIST, TOTAL};

// Run: a start, and then turns of one judged table each.
pub fn run(file: &[u8], table: &mut [u32], budget: u32, excess: u16) -> RunAnswer
    ensures value { result ≡ run_answer file.now table.old budget excess }
    ensures table_after { table.new ≡ run_table file.now table.old budget excess }
{
    run_from(
        file,
        table,
        Course {
            budget,
            excess,
            moves: 0,
            share: 1,
            resumed: false,
        },
    )
}

// The same for a run that may be under way already.
pub fn run_from(file: &[u8], table: &mut [u32], course: Course) -> RunAnswer
    requires { SetsOut file.now table.old course }
    ensures value { result ≡ run_answer file.now table.old course.budget course.excess }
    ensures table_after { table.new ≡ run_table file.now table.old course.budget course.excess }
{
    if is_small(file) {
        let mut rows = [[0u16, 0, 0, 0, 0, 0]; SHORT_LINKS];
        let mut entries = [0u16; SHORT_ENTRIES];
        let mut curves = [0u64; ONE_LIST];
        return run_in(file, table, course, &mut rows, &mut entries, &mut curves);
    }
    let mut curves = [0u64; ALL_LISTS];
    let curves = &mut curves[..curve_places(file)];
    if file.len() <= SHORT {
        let mut rows = [[0u16, 0, 0, 0, 0, 0]; SHORT_LINKS];
        let mut entries = [0u16; SHORT_ENTRIES];
        return run_in(file, table, course, &mut rows, &mut entries, curves);
    }
    let mut rows = [[0u16, 0, 0, 0, 0, 0]; 512];
    if has_lorries(file) {
        let mut entries = [0u16; ALL_ENTRIES];
        return run_in(file, table, course, &mut rows, &mut entries, curves);
    }
    let mut entries = [0u16; CAR_ENTRIES];
    run_in(file, table, course, &mut rows, &mut entries, curves)
}

// The same, in places that are lent for the rows of its links and trips and for the links' curves.
fn run_in(
    file: &[u8],
    table: &mut [u32],
    course: Course,
    rows: &mut [[u16; 6]],
    entries: &mut [u16],
    curves: &mut [u64],
) -> RunAnswer
    requires room { Room file.now (length rows.old) (length entries.old) × (length curves.old ≡ curve_places file.now) }
    requires sets_out { SetsOut file.now table.old course }
    ensures value { result ≡ run_answer file.now table.old course.budget course.excess }
    ensures table_after { table.new ≡ run_table file.now table.old course.budget course.excess }
{
    let mut places = [0u16; 64];
    let opening = network::decode(file, rows, &mut places, entries);
    let n = opening.nodes;
    let m = opening.links;
    let count = opening.commodities;
    let links = &rows[..m];
    let commodities = &places[..count];
    let trips = &entries[..count * n];
    let refusal = run_refusal(
        file,
        opening.refusal,
        n,
        links,
        commodities,
        trips,
        table,
        course.budget,
    );
    if refusal != 0 {
        return refused_run(refusal);
    }
    turns(file, n, links, commodities, trips, table, course, curves)
}

// The turns of an accepted run, from where it sets out until one ends it: in places for few commodities, for those of cars alone, or for
// as many of lorries too.
fn turns(
    file: &[u8],
    nodes: usize,
    links: &[[u16; 6]],
    commodities: &[u16],
    trips: &[u16],
    table: &mut [u32],
    course: Course,
    curves: &mut [u64],
) -> RunAnswer
    requires parts_of { PartsOf file.now 0 nodes links.now commodities.now trips.now × (run_number file.now table.old course.budget ≡ 0) }
    requires sets_out { SetsOut file.now table.old course }
    requires curves_len { length curves.old ≡ curve_places file.now }
    ensures value { result ≡ run_answer file.now table.old course.budget course.excess }
    ensures table_after { table.new ≡ run_table file.now table.old course.budget course.excess }
{
    if commodities.len() <= FEW_COMMODITIES {
        let mut chains = [[NO_LINK; 896]; 4];
        let mut next = [[0u16; 128]; FEW_COMMODITIES];
        let mut volumes = [[0u16; 128]; FEW_COMMODITIES];
        return turns_in(
            file,
            nodes,
            links,
            commodities,
            trips,
            table,
            course,
            curves,
            &mut chains,
            &mut next,
            &mut volumes,
        );
    }
    if car_count(commodities) < commodities.len() {
        let mut chains = [[NO_LINK; 896]; 4];
        let mut next = [[0u16; 128]; 64];
        let mut volumes = [[0u16; 128]; 64];
        return turns_in(
            file,
            nodes,
            links,
            commodities,
            trips,
            table,
            course,
            curves,
            &mut chains,
            &mut next,
            &mut volumes,
        );
    }
    let mut chains = [[NO_LINK; 896]; 2];
    let mut next = [[0u16; 128]; 32];
    let mut volumes = [[0u16; 128]; 32];
    turns_in(
        file,
        nodes,
        links,
        commodities,
        trips,
        table,
        course,
        curves,
        &mut chains,
        &mut next,
        &mut volumes,
    )
}

// The same, in rows that are lent for the chains of the links, the next links and the volumes of the loading. Each turn guesses the j that the turn
// before the last chose, by which the share grew then: choices tend to go up and down by turns.
fn turns_in(
    file: &[u8],
    nodes: usize,
    links: &[[u16; 6]],
    commodities: &[u16],
    trips: &[u16],
    table: &mut [u32],
    course: Course,
    curves: &mut [u64],
    chains: &mut [[u16; 896]],
    next: &mut [[u16; 128]],
    volumes: &mut [[u16; 128]],
) -> RunAnswer
    requires parts_of { PartsOf file.now 0 nodes links.now commodities.now trips.now × (run_number file.now table.old course.budget ≡ 0) }
    requires sets_out { SetsOut file.now table.old course }
    requires curves_len { length curves.old ≡ curve_places file.now }
    requires chain_room { ChainRoom (study_of nodes links.now commodities.now trips.now) chains.old × RowRoom (length commodities.now) next.old volumes.old }
    ensures value { result ≡ run_answer file.now table.old course.budget course.excess }
    ensures table_after { table.new ≡ run_table file.now table.old course.budget course.excess }
{
    let limit = course.excess as u64 * questions::total_trips(trips);
    let mut times = [0u32; 512];
    let mut flows = [[0u64; 512]; 2];
    travel::put_powers(curves);
    travel::put_reciprocals(curves, links);
    judging::put_class_chains(nodes, links, commodities, trips, chains);
    judging::first_table(
        nodes,
        links,
        commodities,
        trips,
        chains,
        curves,
        table,
        &mut times,
        next,
        volumes,
        &mut flows,
        course.resumed,
    );
    travel::write_totals(table, commodities.len(), links.len(), &mut flows[TOTAL]);
    let mut judged = course.moves;
    let mut share = course.share;
    let mut guess = 0;
    let mut latest = 0;
    let mut known = false;
    loop {
        judged += 1;
        let standing = Standing {
            share,
            known,
            guess,
            limit,
            last: judged == course.budget,
        };
        let turn = judging::turn_table(
            nodes,
            links,
            commodities,
            trips,
            chains,
            curves,
            &mut times,
            next,
            volumes,
            &mut flows,
            table,
            standing,
        );
        let step = turn.step;
        let Step::Moved = step else {
            let costs = travel::cost(links, &flows[TOTAL], share, curves);
            return ended(step, judged, share, turn.gap, costs.cost, costs.over);
        };
        guess = latest;
        latest = std::num::wrapping_sub_u32(turn.share, share);
        share = turn.share;
        known = turn.known;
    }
}

// The answer of a run that ended with a step, by its last judged table.
fn ended(step: Step, judged: u32, share: u32, gap: u64, cost: u64, over: u32) -> RunAnswer
    ensures { result ≡ ended_answer step judged share gap cost over }
{
    let ending = ending_of(step);
    RunAnswer {
        refusal: 0,
        ending,
        judged,
        share,
        gap,
        cost,
        over,
    }
}

// A step that moves ends nothing, and has no ending.
fn ending_of(step: Step) -> Ending
    ensures { result ≡ ending_of step }
{
    match step {
        Step::Reached => Ending::Reached,
        Step::Finest => Ending::Finest,
        Step::Spent => Ending::Spent,
        Step::Moved => Ending::Refused,
    }
}
