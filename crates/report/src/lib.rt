// The programs `assign` (document 01) and `page` (document 02, A.1): from the bytes that they read to the bytes that they print.
#![tactic(auto)]

ghost use Rattle.std.specs.Prelude.{◌≤◌, ◌≡◌, ◌++◌, length, drop};
ghost use Rattle.calls.specs.Calls.{table_number};
ghost use Rattle.calls.specs.Laws.Calls.{refused_run};
ghost use Rattle.listing.specs.Listing.{printed, printed_page};
ghost use Rattle.report.specs.Respond.{table_left, Ran, refusal_line, listed, Written};

use calls::{Ending, RunAnswer};

// Runs the study of an input over a lent table, and writes the listing of what the run answers and
// leaves. Answers how many bytes the listing has. What stands behind them stays as it was.
pub fn respond(input: &[u8], table: &mut [u32], out: &mut [u8]) -> usize
    requires { 32768 ≤ length out.old }
    ensures value { result ≡ length (printed input.now table.old) }
    ensures out_after { out.new ≡ printed input.now table.old ++ drop result out.old }
    ensures table_after { table.new ≡ table_left input.now table.old }
{
    let answer = run_input(input, table);
    let refusal = answer.refusal;
    if refusal != 0 {
        return write_refusal(refusal, out);
    }
    write_accepted(&input[4..], table, answer, out)
}

// The same with the page of the table that the run leaves.
pub fn respond_page(input: &[u8], table: &mut [u32], out: &mut [u8]) -> usize
    requires { 32768 ≤ length out.old }
    ensures value { result ≡ length (printed_page input.now table.old) }
    ensures out_after { out.new ≡ printed_page input.now table.old ++ drop result out.old }
    ensures table_after { table.new ≡ table_left input.now table.old }
{
    let answer = run_input(input, table);
    let refusal = answer.refusal;
    if refusal != 0 {
        return write_refusal(refusal, out);
    }
    let file = &input[4..];
    pages::page(file, table, answer.share, out);
    30 * study::link_count(file)
}

// The run that an input asks for: u16 budget, u16 excess, and a study behind them. Fewer than four
// bytes count as refusal 1.
fn run_input(input: &[u8], table: &mut [u32]) -> RunAnswer
    ensures { Ran input.now table.old result table.new }
{
    if input.len() < 4 {
        return refused(1);
    }
    let budget = study::u16_at(input, 0);
    let excess = study::u16_at(input, 2);
    let bytes = &input[4..];
    assignment::run(bytes, table, budget as u32, excess)
}

// The answer of a refused run.
fn refused(number: u8) -> RunAnswer
    ensures { result ≡ refused_run number }
{
    RunAnswer {
        refusal: number,
        ending: Ending::Refused,
        judged: 0,
        share: 0,
        gap: 0,
        cost: 0,
        over: 0,
    }
}

// A refusal is one line, with no links.
fn write_refusal(number: u8, out: &mut [u8]) -> usize
    requires { (number ≡ 0 → ⊥) × (32768 ≤ length out.old) }
    ensures { Written out.old (refusal_line number) out.new result }
{
    listing::write_listing(refused(number), 0, &[0u64; 512], &[0u32; 512], out)
}

// The listing of an accepted run, from the table that it left: one that an audit at the answered
// share accepts.
fn write_accepted(file: &[u8], table: &[u32], answer: RunAnswer, out: &mut [u8]) -> usize
    requires { (table_number file.now table.now answer.share ≡ 0) × (32768 ≤ length out.old) }
    ensures { Written out.old (listed file.now table.now answer) out.new result }
{
    let mut rows = [[0u16, 0, 0, 0, 0, 0]; 512];
    let mut places = [0u16; 64];
    let mut entries = [0u16; network::ALL_ENTRIES];
    let opening = network::decode(file, &mut rows, &mut places, &mut entries);
    let m = opening.links;
    let flows = travel::totals(table, opening.commodities, m);
    let mut curves = [0u64; travel::ALL_LISTS];
    travel::put_powers(&mut curves);
    let mut times = [0u32; 512];
    travel::times(&rows[..m], &flows, answer.share, &curves, &mut times);
    listing::write_listing(answer, m, &flows, &times, out)
}
