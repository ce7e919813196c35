// Runs the calls that standard input lists, and prints a line for each: every number that it answers,
// and the note and the table that it leaves. The lines of the input (in the words of `case_lines`):
//
//     file STUDY                 the study of the calls that follow
//     table TABLE                the table of the next call, where not as the call before left it
//     note NUMBERS               the eight numbers of the next call's note, where not as it was left; 7 at first
//     start LABEL
//     audit SHARE LABEL
//     pass SHARE LABEL
//     back SHARE LABEL           a taking back
//     run BUDGET EXCESS LABEL
//
// Most tables and notes have more numbers than their study asks for, which no call may change.
#![tactic(auto)]

use case_lines::{Buffer, each_line, number_u16, read_study, read_table};
use std::io;

mod calling;
mod report;

// What the lines before have left.
#[derive(Drop)]
struct Cases {
    file: Buffer<u8, 96>,
    table: Buffer<u32, 5>,
    note: [u16; 8],
}

fn main(rt: HostRuntime) -> io::Result<()> {
    let mut cases = Cases {
        file: Buffer::new(0),
        table: Buffer::new(0),
        note: [7; 8],
    };
    each_line(&rt, |word| run_line(&rt, word, &mut cases))
}

fn run_line(rt: &(impl Input + Print), word: u8, cases: &mut Cases) -> io::Result<()> {
    match word {
        b'f' => read_file(rt, &mut cases.file),
        b't' => read_flows(rt, &mut cases.table),
        b'n' => read_note(rt, &mut cases.note),
        _ => calling::call(
            rt,
            word,
            cases.file.as_slice(),
            cases.table.as_mut_slice(),
            &mut cases.note,
        ),
    }
}

fn read_file(rt: &impl Input, file: &mut Buffer<u8, 96>) -> io::Result<()> {
    file.len = read_study(rt, &mut file.items)?;
    Ok(())
}

fn read_flows(rt: &impl Input, table: &mut Buffer<u32, 5>) -> io::Result<()> {
    table.len = read_table(rt, &mut table.items)?;
    Ok(())
}

fn read_note(rt: &impl Input, note: &mut [u16; 8]) -> io::Result<()> {
    for number in note {
        *number = number_u16(rt)?;
    }
    Ok(())
}
