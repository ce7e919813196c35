// The calls, each with its numbers and its label from standard input. A call is lent what is in use of the file and
// of the table, so how much that is stays as it was.
ghost use Rattle.std.specs.Prelude.{◌≡◌, length, OnErr};

use crate::report;
use case_lines::{label, number, number_u16};
use std::io;

pub fn call(
    rt: &(impl Input + Print),
    word: u8,
    file: &[u8],
    table: &mut [u32],
    note: &mut [u16],
) -> io::Result<()>
    ensures { OnErr result ((length table.new ≡ length table.old) × (length note.new ≡ length note.old)) }
{
    match word {
        b's' => start(rt, file, table),
        b'a' => audit(rt, file, table),
        b'p' => pass(rt, file, table, note),
        b'b' => take_back(rt, file, table, note),
        _ => run(rt, file, table),
    }
}

fn start(rt: &(impl Input + Print), file: &[u8], table: &mut [u32]) -> io::Result<()>
    ensures { OnErr result (length table.new ≡ length table.old) }
{
    label(rt)?;
    report::start(rt, assignment::start(file, table))?;
    report::left(rt, table)
}

fn audit(rt: &(impl Input + Print), file: &[u8], table: &[u32]) -> io::Result<()> {
    let share = number(rt)?;
    label(rt)?;
    report::audit(rt, share, assignment::audit(file, table, share))?;
    report::left(rt, table)
}

fn pass(
    rt: &(impl Input + Print),
    file: &[u8],
    table: &mut [u32],
    note: &mut [u16],
) -> io::Result<()>
    ensures { OnErr result ((length table.new ≡ length table.old) × (length note.new ≡ length note.old)) }
{
    let share = number(rt)?;
    label(rt)?;
    report::pass(rt, share, passes::pass(file, table, share, note))?;
    report::noted(rt, note)?;
    report::left(rt, table)
}

fn take_back(
    rt: &(impl Input + Print),
    file: &[u8],
    table: &mut [u32],
    note: &[u16],
) -> io::Result<()>
    ensures { OnErr result (length table.new ≡ length table.old) }
{
    let share = number(rt)?;
    label(rt)?;
    report::take_back(rt, share, passes::take_back(file, table, share, note))?;
    report::noted(rt, note)?;
    report::left(rt, table)
}

fn run(rt: &(impl Input + Print), file: &[u8], table: &mut [u32]) -> io::Result<()>
    ensures { OnErr result (length table.new ≡ length table.old) }
{
    let budget = number(rt)?;
    let excess = number_u16(rt)?;
    label(rt)?;
    let answer = assignment::run(file, table, budget, excess);
    report::run(rt, budget, excess, answer)?;
    report::left(rt, table)
}
