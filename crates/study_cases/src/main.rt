// Runs the file layer on files at the limits of questions 1 to 5, and reads every field of small
// studies, as the lines of standard input say (in the words of `case_lines`):
//
//     file HEADER LABEL                    prints what is answered of a file
//     closed HEADER PAIR LABEL             the same of a file with a fourth pair, and its fields
//     lorries HEADER THREE-PAIRS LABEL     the same of a file with six pairs
//     study STUDY LABEL                    prints what is answered of a study, and its fields
//
// Lines that write past byte 32 come after those that rely on the marks there.
#![tactic(auto)]

use case_lines::{Buffer, each_line, read_header, read_numbers, read_study};
use std::io;

mod fields;
mod report;

type File = Buffer<u8, 65537>;

fn main(rt: HostRuntime) -> io::Result<()> {
    let mut file = File::new(0);
    mark(&mut file.items);
    each_line(&rt, |word| run_line(&rt, word, &mut file))
}

// Past the header each byte is its own place modulo 251, so that a part's bytes tell where it starts
// and ends.
fn mark(file: &mut [u8]) {
    for (at, byte) in file.iter_mut().enumerate().skip(32) {
        *byte = (at % 251) as u8;
    }
}

fn run_line(rt: &(impl Input + Print), word: u8, file: &mut File) -> io::Result<()> {
    read(rt, word, file)?;
    let study = file.as_slice();
    report::answers(rt, study)?;
    if word != b'f' {
        fields::all(rt, study)?;
    }
    Ok(())
}

// Reads a file up to its label.
fn read(rt: &impl Input, word: u8, file: &mut File) -> io::Result<()> {
    let space = &mut file.items;
    if word == b's' {
        file.len = read_study(rt, space)?;
        return Ok(());
    }
    file.len = read_header(rt, space)?;
    match word {
        b'c' => read_numbers(rt, &mut file.items[32..40], 4),
        b'l' => read_numbers(rt, &mut file.items[32..56], 4),
        _ => Ok(()),
    }
}
