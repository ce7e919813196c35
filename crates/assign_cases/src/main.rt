// Prints what `assign` and `page` print for the inputs that standard input lists: a heading for each,
// and the response. The lines of standard input (in the words of `case_lines`):
//
//     input BUDGET EXCESS STUDY    what the programs read
//     table TABLE                  the table that the run is lent
//     show SIZE LABEL              prints the response of `assign` to so many of the first bytes of the input
//     page SIZE LABEL              the same of `page`
#![tactic(auto)]

use case_lines::{Buffer, each_line, read_numbers, read_study, read_table};
use show::{Program, show};
use std::io;

mod show;

// What the lines before have left.
#[derive(Drop)]
struct Cases {
    input: [u8; 65541],
    table: Buffer<u32, 10>,
}

fn main(rt: HostRuntime) -> io::Result<()> {
    let mut cases = Cases {
        input: [0; 65541],
        table: Buffer::new(0),
    };
    each_line(&rt, |word| run_line(&rt, word, &mut cases))
}

fn run_line(rt: &(impl Input + Print), word: u8, cases: &mut Cases) -> io::Result<()> {
    match word {
        b'i' => read_input(rt, &mut cases.input),
        b't' => {
            cases.table.len = read_table(rt, &mut cases.table.items)?;
            Ok(())
        }
        b'p' => show(rt, Program::Page, &cases.input, cases.table.as_mut_slice()),
        _ => show(
            rt,
            Program::Assign,
            &cases.input,
            cases.table.as_mut_slice(),
        ),
    }
}

fn read_input(rt: &impl Input, input: &mut [u8; 65541]) -> io::Result<()> {
    read_numbers(rt, &mut input[..4], 2)?;
    read_study(rt, &mut input[4..])?;
    Ok(())
}
