// Document 01's six calls and those of document 02's requests, as `interface_c` gives them to programs in other languages.
//
// Each function returns the refusal number, or 0. `answer` receives the other fields of the call's
// answer, in its order; a refusal writes 0 in each. No call has a `requires`. A slice is passed
// as a pointer and a length, and an array as a pointer: include/ilstrovan.h has the C declarations.
#![tactic(auto)]

ghost use Rattle.std.specs.Prelude.{◌≡◌, List, [], ◌∷◌, map};
ghost use Rattle.calls.specs.Calls.{ending_number, outcome_number};
ghost use Rattle.calls.specs.Calls.{check_number, pack_number, pack_output, start_number, start_table};
ghost use Rattle.calls.specs.Calls.{audit_answer, pass_answer, pass_table, pass_note, run_answer, run_table, page_number, page_slice};
ghost use Rattle.calls.specs.Calls.{take_back_answer, take_back_table};
ghost use Rattle.calls.specs.Desks.{desks_answer, desks_table};
ghost use Rattle.interface.specs.Numbers.{audit_numbers, pass_numbers, run_numbers, take_back_numbers, seat_numbers, desks_numbers, queue};

use calls::{AuditAnswer, DesksAnswer, Ending, Outcome, PassAnswer, RunAnswer, TakeBackAnswer};
use desks::Desk;

pub fn ilstrovan_check(file: &[u8]) -> u8
    ensures { result ≡ check_number file.now }
{
    network::check(file)
}

pub fn ilstrovan_pack(file: &[u8], output: &mut [u8]) -> u8
    ensures value { result ≡ pack_number file.now output.old }
    ensures output_after { output.new ≡ pack_output file.now output.old }
{
    network::pack(file, output)
}

pub fn ilstrovan_start(file: &[u8], table: &mut [u32]) -> u8
    ensures value { result ≡ start_number file.now table.old }
    ensures table_after { table.new ≡ start_table file.now table.old }
{
    assignment::start(file, table)
}

// Writes outcome (1 moved, 2 finest), gap, cost, the new share and how many links of the judged table are over, and fills the note of a move.
pub fn ilstrovan_pass(
    file: &[u8],
    table: &mut [u32],
    share: u32,
    note: &mut [u16],
    answer: &mut [u64; 5],
) -> u8
    ensures value { result ≡ (pass_answer file.now table.old share note.old).refusal }
    ensures table_after { table.new ≡ pass_table file.now table.old share note.old }
    ensures note_after { note.new ≡ pass_note file.now table.old share note.old }
    ensures answer_after { answer.new ≡ pass_numbers (pass_answer file.now table.old share note.old) }
{
    let passed = passes::pass(file, table, share, note);
    *answer = pass_numbers(passed);
    passed.refusal
}

// Takes the loading of the note that a pass filled back out of the table, and writes the resulting share.
pub fn ilstrovan_take_back(
    file: &[u8],
    table: &mut [u32],
    share: u32,
    note: &[u16],
    answer: &mut [u64; 1],
) -> u8
    ensures value { result ≡ (take_back_answer file.now table.old share note.now).refusal }
    ensures table_after { table.new ≡ take_back_table file.now table.old share note.now }
    ensures answer_after { answer.new ≡ take_back_numbers (take_back_answer file.now table.old share note.now) }
{
    let taken = passes::take_back(file, table, share, note);
    *answer = take_back_numbers(taken);
    taken.refusal
}

// Writes ending (1 reached, 2 finest, 3 spent), tables judged, share, gap, cost and how many links are over.
pub fn ilstrovan_run(
    file: &[u8],
    table: &mut [u32],
    budget: u32,
    excess: u16,
    answer: &mut [u64; 6],
) -> u8
    ensures value { result ≡ (run_answer file.now table.old budget excess).refusal }
    ensures table_after { table.new ≡ run_table file.now table.old budget excess }
    ensures answer_after { answer.new ≡ run_numbers (run_answer file.now table.old budget excess) }
{
    let ended = assignment::run(file, table, budget, excess);
    *answer = run_numbers(ended);
    ended.refusal
}

// Writes gap, cost and how many links are over.
pub fn ilstrovan_audit(file: &[u8], table: &[u32], share: u32, answer: &mut [u64; 3]) -> u8
    ensures value { result ≡ (audit_answer file.now table.now share).refusal }
    ensures answer_after { answer.new ≡ audit_numbers (audit_answer file.now table.now share) }
{
    let audited = assignment::audit(file, table, share);
    *answer = audit_numbers(audited);
    audited.refusal
}

// Writes the page of the table, 30 bytes a link, at the start of the page slice.
pub fn ilstrovan_page(file: &[u8], table: &[u32], share: u32, page: &mut [u8]) -> u8
    ensures value { result ≡ page_number file.now table.now share page.old }
    ensures page_after { page.new ≡ page_slice file.now table.now share page.old }
{
    pages::page(file, table, share, page)
}

// Writes the turns, and for each seat refusal, ending (4 waiting beside a run's), tables judged, share, gap, cost and how many links are over. The first
// seats have the desks.
pub fn ilstrovan_desks(
    file_0: &[u8],
    table_0: &mut [u32],
    file_1: &[u8],
    table_1: &mut [u32],
    file_2: &[u8],
    table_2: &mut [u32],
    file_3: &[u8],
    table_3: &mut [u32],
    file_4: &[u8],
    table_4: &mut [u32],
    file_5: &[u8],
    table_5: &mut [u32],
    file_6: &[u8],
    table_6: &mut [u32],
    file_7: &[u8],
    table_7: &mut [u32],
    count: u32,
    allowance: u32,
    budgets: &[u32; 8],
    excesses: &[u16; 8],
    answer: &mut [u64; 57],
) -> u8
    ensures value { result ≡ (desks_answer (queue (file_0.now ∷ file_1.now ∷ file_2.now ∷ file_3.now ∷ file_4.now ∷ file_5.now ∷ file_6.now ∷ file_7.now ∷ []) (table_0.old ∷ table_1.old ∷ table_2.old ∷ table_3.old ∷ table_4.old ∷ table_5.old ∷ table_6.old ∷ table_7.old ∷ []) budgets.now excesses.now 0) count allowance).refusal }
    ensures table_0_after { table_0.new ≡ desks_table (queue (file_0.now ∷ file_1.now ∷ file_2.now ∷ file_3.now ∷ file_4.now ∷ file_5.now ∷ file_6.now ∷ file_7.now ∷ []) (table_0.old ∷ table_1.old ∷ table_2.old ∷ table_3.old ∷ table_4.old ∷ table_5.old ∷ table_6.old ∷ table_7.old ∷ []) budgets.now excesses.now 0) count allowance 0 }
    ensures table_1_after { table_1.new ≡ desks_table (queue (file_0.now ∷ file_1.now ∷ file_2.now ∷ file_3.now ∷ file_4.now ∷ file_5.now ∷ file_6.now ∷ file_7.now ∷ []) (table_0.old ∷ table_1.old ∷ table_2.old ∷ table_3.old ∷ table_4.old ∷ table_5.old ∷ table_6.old ∷ table_7.old ∷ []) budgets.now excesses.now 0) count allowance 1 }
    ensures table_2_after { table_2.new ≡ desks_table (queue (file_0.now ∷ file_1.now ∷ file_2.now ∷ file_3.now ∷ file_4.now ∷ file_5.now ∷ file_6.now ∷ file_7.now ∷ []) (table_0.old ∷ table_1.old ∷ table_2.old ∷ table_3.old ∷ table_4.old ∷ table_5.old ∷ table_6.old ∷ table_7.old ∷ []) budgets.now excesses.now 0) count allowance 2 }
    ensures table_3_after { table_3.new ≡ desks_table (queue (file_0.now ∷ file_1.now ∷ file_2.now ∷ file_3.now ∷ file_4.now ∷ file_5.now ∷ file_6.now ∷ file_7.now ∷ []) (table_0.old ∷ table_1.old ∷ table_2.old ∷ table_3.old ∷ table_4.old ∷ table_5.old ∷ table_6.old ∷ table_7.old ∷ []) budgets.now excesses.now 0) count allowance 3 }
    ensures table_4_after { table_4.new ≡ desks_table (queue (file_0.now ∷ file_1.now ∷ file_2.now ∷ file_3.now ∷ file_4.now ∷ file_5.now ∷ file_6.now ∷ file_7.now ∷ []) (table_0.old ∷ table_1.old ∷ table_2.old ∷ table_3.old ∷ table_4.old ∷ table_5.old ∷ table_6.old ∷ table_7.old ∷ []) budgets.now excesses.now 0) count allowance 4 }
    ensures table_5_after { table_5.new ≡ desks_table (queue (file_0.now ∷ file_1.now ∷ file_2.now ∷ file_3.now ∷ file_4.now ∷ file_5.now ∷ file_6.now ∷ file_7.now ∷ []) (table_0.old ∷ table_1.old ∷ table_2.old ∷ table_3.old ∷ table_4.old ∷ table_5.old ∷ table_6.old ∷ table_7.old ∷ []) budgets.now excesses.now 0) count allowance 5 }
    ensures table_6_after { table_6.new ≡ desks_table (queue (file_0.now ∷ file_1.now ∷ file_2.now ∷ file_3.now ∷ file_4.now ∷ file_5.now ∷ file_6.now ∷ file_7.now ∷ []) (table_0.old ∷ table_1.old ∷ table_2.old ∷ table_3.old ∷ table_4.old ∷ table_5.old ∷ table_6.old ∷ table_7.old ∷ []) budgets.now excesses.now 0) count allowance 6 }
    ensures table_7_after { table_7.new ≡ desks_table (queue (file_0.now ∷ file_1.now ∷ file_2.now ∷ file_3.now ∷ file_4.now ∷ file_5.now ∷ file_6.now ∷ file_7.now ∷ []) (table_0.old ∷ table_1.old ∷ table_2.old ∷ table_3.old ∷ table_4.old ∷ table_5.old ∷ table_6.old ∷ table_7.old ∷ []) budgets.now excesses.now 0) count allowance 7 }
    ensures answer_after { answer.new ≡ desks_numbers (desks_answer (queue (file_0.now ∷ file_1.now ∷ file_2.now ∷ file_3.now ∷ file_4.now ∷ file_5.now ∷ file_6.now ∷ file_7.now ∷ []) (table_0.old ∷ table_1.old ∷ table_2.old ∷ table_3.old ∷ table_4.old ∷ table_5.old ∷ table_6.old ∷ table_7.old ∷ []) budgets.now excesses.now 0) count allowance) }
{
    let mut seat_0 = Desk {
        file: file_0,
        table: table_0,
        budget: budgets[0],
        excess: excesses[0],
    };
    let mut seat_1 = Desk {
        file: file_1,
        table: table_1,
        budget: budgets[1],
        excess: excesses[1],
    };
    let mut seat_2 = Desk {
        file: file_2,
        table: table_2,
        budget: budgets[2],
        excess: excesses[2],
    };
    let mut seat_3 = Desk {
        file: file_3,
        table: table_3,
        budget: budgets[3],
        excess: excesses[3],
    };
    let mut seat_4 = Desk {
        file: file_4,
        table: table_4,
        budget: budgets[4],
        excess: excesses[4],
    };
    let mut seat_5 = Desk {
        file: file_5,
        table: table_5,
        budget: budgets[5],
        excess: excesses[5],
    };
    let mut seat_6 = Desk {
        file: file_6,
        table: table_6,
        budget: budgets[6],
        excess: excesses[6],
    };
    let mut seat_7 = Desk {
        file: file_7,
        table: table_7,
        budget: budgets[7],
        excess: excesses[7],
    };
    let answered = desks::desks(
        &mut seat_0,
        &mut seat_1,
        &mut seat_2,
        &mut seat_3,
        &mut seat_4,
        &mut seat_5,
        &mut seat_6,
        &mut seat_7,
        count,
        allowance,
    );
    put_desks(answered, answer);
    answered.refusal
}

fn pass_numbers(passed: PassAnswer) -> [u64; 5]
    ensures { result ≡ pass_numbers passed }
{
    let outcome = passed.outcome;
    [
        outcome_number(outcome),
        passed.gap,
        passed.cost,
        passed.share as u64,
        passed.over as u64,
    ]
}

fn take_back_numbers(taken: TakeBackAnswer) -> [u64; 1]
    ensures { result ≡ take_back_numbers taken }
{
    [taken.share as u64]
}

fn run_numbers(ended: RunAnswer) -> [u64; 6]
    ensures { result ≡ run_numbers ended }
{
    let ending = ended.ending;
    [
        ending_number(ending),
        ended.judged as u64,
        ended.share as u64,
        ended.gap,
        ended.cost,
        ended.over as u64,
    ]
}

// The turns, and then the seats' numbers.
fn put_desks(answered: DesksAnswer, answer: &mut [u64; 57])
    ensures { answer.new ≡ desks_numbers answered }
{
    let seats = answered.seats;
    let rows = seats_numbers(seats);
    answer[0] = answered.turns as u64;
    answer[1..].copy_from_slice(rows.as_flattened());
}

fn seats_numbers(seats: [RunAnswer; 8]) -> [[u64; 7]; 8]
    ensures { result ≡ map seat_numbers seats }
{
    [
        seat_numbers(seats[0]),
        seat_numbers(seats[1]),
        seat_numbers(seats[2]),
        seat_numbers(seats[3]),
        seat_numbers(seats[4]),
        seat_numbers(seats[5]),
        seat_numbers(seats[6]),
        seat_numbers(seats[7]),
    ]
}

fn seat_numbers(ended: RunAnswer) -> [u64; 7]
    ensures { result ≡ seat_numbers ended }
{
    let ending = ended.ending;
    [
        ended.refusal as u64,
        ending_number(ending),
        ended.judged as u64,
        ended.share as u64,
        ended.gap,
        ended.cost,
        ended.over as u64,
    ]
}

fn audit_numbers(audited: AuditAnswer) -> [u64; 3]
    ensures { result ≡ audit_numbers audited }
{
    [audited.gap, audited.cost, audited.over as u64]
}

fn outcome_number(outcome: Outcome) -> u64
    ensures { result ≡ outcome_number outcome }
{
    match outcome {
        Outcome::Refused => 0,
        Outcome::Moved => 1,
        Outcome::Finest => 2,
    }
}

fn ending_number(ending: Ending) -> u64
    ensures { result ≡ ending_number ending }
{
    match ending {
        Ending::Refused => 0,
        Ending::Reached => 1,
        Ending::Finest => 2,
        Ending::Spent => 3,
        Ending::Waiting => 4,
    }
}
