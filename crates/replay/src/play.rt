// One recorded call: made, and its answer printed.
ghost use Rattle.std.specs.Prelude.{◌≡◌, length, OnErr};

use crate::call::{Call, Kind, Seats};
use crate::{digest, lines};
use std::io;

// The call of its kind, lent what is in use of each part of the memory. `output` is a pack's output or a page slice, and
// the seats are those of several desks.
pub fn play(
    rt: &impl Print,
    file: &[u8],
    output: &mut [u8],
    table: &mut [u32],
    note: &mut [u16],
    seats: &mut Seats,
    call: Call,
) -> io::Result<()>
    ensures { OnErr result ((length output.new ≡ length output.old) × (length table.new ≡ length table.old) × (length note.new ≡ length note.old)) }
{
    match call.kind {
        Kind::Check => check(rt, file),
        Kind::Pack => pack(rt, file, output),
        Kind::Start => start(rt, file, table),
        Kind::Pass => pass(rt, file, table, call.share, note),
        Kind::Run => run(rt, file, table, call.budget, call.excess),
        Kind::Audit => audit(rt, file, table, call.share),
        Kind::Page => page(rt, file, table, call.share, output),
        Kind::TakeBack => take_back(rt, file, table, call.share, note),
        Kind::Desks => desks(rt, seats, call.desks, call.allowance),
    }
}

fn check(rt: &impl Print, file: &[u8]) -> io::Result<()> {
    let refusal = interface::ilstrovan_check(file);
    lines::print(rt, "check", refusal, &[], digest::of_nothing())
}

fn pack(rt: &impl Print, file: &[u8], output: &mut [u8]) -> io::Result<()>
    ensures { OnErr result (length output.new ≡ length output.old) }
{
    let refusal = interface::ilstrovan_pack(file, output);
    lines::print(rt, "pack", refusal, &[], digest::of_bytes(output))
}

fn start(rt: &impl Print, file: &[u8], table: &mut [u32]) -> io::Result<()>
    ensures { OnErr result (length table.new ≡ length table.old) }
{
    let refusal = interface::ilstrovan_start(file, table);
    lines::print(rt, "start", refusal, &[], digest::of_numbers(table))
}

fn pass(
    rt: &impl Print,
    file: &[u8],
    table: &mut [u32],
    share: u32,
    note: &mut [u16],
) -> io::Result<()>
    ensures { OnErr result ((length table.new ≡ length table.old) × (length note.new ≡ length note.old)) }
{
    let mut answer = [0u64; 5];
    let refusal = interface::ilstrovan_pass(file, table, share, note, &mut answer);
    lines::print(rt, "pass", refusal, &answer, digest::of_noted(table, note))
}

fn run(rt: &impl Print, file: &[u8], table: &mut [u32], budget: u32, excess: u16) -> io::Result<()>
    ensures { OnErr result (length table.new ≡ length table.old) }
{
    let mut answer = [0u64; 6];
    let refusal = interface::ilstrovan_run(file, table, budget, excess, &mut answer);
    lines::print(rt, "run", refusal, &answer, digest::of_numbers(table))
}

fn audit(rt: &impl Print, file: &[u8], table: &[u32], share: u32) -> io::Result<()> {
    let mut answer = [0u64; 3];
    let refusal = interface::ilstrovan_audit(file, table, share, &mut answer);
    lines::print(rt, "audit", refusal, &answer, digest::of_numbers(table))
}

fn page(rt: &impl Print, file: &[u8], table: &[u32], share: u32, page: &mut [u8]) -> io::Result<()>
    ensures { OnErr result (length page.new ≡ length page.old) }
{
    let refusal = interface::ilstrovan_page(file, table, share, page);
    lines::print(rt, "page", refusal, &[], digest::of_bytes(page))
}

fn take_back(
    rt: &impl Print,
    file: &[u8],
    table: &mut [u32],
    share: u32,
    note: &[u16],
) -> io::Result<()>
    ensures { OnErr result (length table.new ≡ length table.old) }
{
    let mut answer = [0u64; 1];
    let refusal = interface::ilstrovan_take_back(file, table, share, note, &mut answer);
    lines::print(
        rt,
        "take_back",
        refusal,
        &answer,
        digest::of_noted(table, note),
    )
}

fn desks(rt: &impl Print, seats: &mut Seats, desks: u32, allowance: u32) -> io::Result<()> {
    let budgets = budgets(seats);
    let excesses = excesses(seats);
    let mut answer = [0u64; 57];
    let refusal = call_desks(seats, desks, allowance, &budgets, &excesses, &mut answer);
    lines::print(rt, "desks", refusal, &answer, digest::of_seats(seats))
}

fn budgets(seats: &Seats) -> [u32; 8] {
    [
        seats.seat_0.budget,
        seats.seat_1.budget,
        seats.seat_2.budget,
        seats.seat_3.budget,
        seats.seat_4.budget,
        seats.seat_5.budget,
        seats.seat_6.budget,
        seats.seat_7.budget,
    ]
}

fn excesses(seats: &Seats) -> [u16; 8] {
    [
        seats.seat_0.excess,
        seats.seat_1.excess,
        seats.seat_2.excess,
        seats.seat_3.excess,
        seats.seat_4.excess,
        seats.seat_5.excess,
        seats.seat_6.excess,
        seats.seat_7.excess,
    ]
}

fn call_desks(
    seats: &mut Seats,
    desks: u32,
    allowance: u32,
    budgets: &[u32; 8],
    excesses: &[u16; 8],
    answer: &mut [u64; 57],
) -> u8 {
    let Seats {
        seat_0,
        seat_1,
        seat_2,
        seat_3,
        seat_4,
        seat_5,
        seat_6,
        seat_7,
    } = seats;
    interface::ilstrovan_desks(
        seat_0.file.as_slice(),
        seat_0.table.as_mut_slice(),
        seat_1.file.as_slice(),
        seat_1.table.as_mut_slice(),
        seat_2.file.as_slice(),
        seat_2.table.as_mut_slice(),
        seat_3.file.as_slice(),
        seat_3.table.as_mut_slice(),
        seat_4.file.as_slice(),
        seat_4.table.as_mut_slice(),
        seat_5.file.as_slice(),
        seat_5.table.as_mut_slice(),
        seat_6.file.as_slice(),
        seat_6.table.as_mut_slice(),
        seat_7.file.as_slice(),
        seat_7.table.as_mut_slice(),
        desks,
        allowance,
        budgets,
        excesses,
        answer,
    )
}
