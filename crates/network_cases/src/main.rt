// Runs check and pack on studies at the limits of questions 6 to 11, 17, 19 and 23, as the lines of standard
// input say (in the words of `case_lines`):
//
//     file STUDY            the file of the lines that follow
//     row HEADER            the same, with 128 nodes in a row behind the header
//     link L TAIL HEAD      other ends of a link in that file
//     trips K NODE COUNT    other trips in that file
//     pack SIZE LABEL       prints what check and pack answer, with an output of so many bytes
//     show LABEL            prints the output
//     again                 takes the output as the file
#![tactic(auto)]

use case_lines::{Buffer, each_line, read_study};
use std::io;

mod report;
mod row;

// Room for any file of the cases.
type Bytes = Buffer<u8, 23288>;

// What the lines before have left.
#[derive(Drop)]
struct Cases {
    file: Bytes,
    output: Bytes,
}

fn main(rt: HostRuntime) -> io::Result<()> {
    let mut cases = Cases {
        file: Buffer::new(0),
        output: Buffer::new(0),
    };
    each_line(&rt, |word| run_line(&rt, word, &mut cases))
}

fn run_line(rt: &(impl Input + Print), word: u8, cases: &mut Cases) -> io::Result<()> {
    match word {
        b'f' => read_file(rt, &mut cases.file),
        b'r' => row::read(rt, &mut cases.file),
        b'l' => row::read_link(rt, &mut cases.file.items),
        b'p' => report::pack(rt, cases.file.as_slice(), &mut cases.output),
        b's' => report::show(rt, cases.output.as_slice()),
        b'a' => {
            copy(&cases.output, &mut cases.file);
            Ok(())
        }
        _ => row::read_trips(rt, &mut cases.file.items),
    }
}

fn read_file(rt: &impl Input, file: &mut Bytes) -> io::Result<()> {
    file.len = read_study(rt, &mut file.items)?;
    Ok(())
}

fn copy(from: &Bytes, to: &mut Bytes) {
    to.len = from.len;
    to.as_mut_slice().copy_from_slice(from.as_slice());
}
