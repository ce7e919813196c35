// What the programs of cases read. A line of standard input is a word, of which the first
// letter counts, and what the program reads after it, each with one space before it:
//
//     HEADER    the length of a file, and its header: version, n, m, p, and three pairs of offset and
//               length
//     STUDY     a header, and numbers of two bytes up to the end of the file
//     TABLE     how many numbers a table has, and the numbers
//     LABEL     the rest of the line, which is printed
//
// A number is below 2³².
#![tactic(auto)]

mod bytes;
mod input;

pub use bytes::{put, read_header, read_numbers, read_study, read_table};
pub use input::{each_line, label, number, number_u16, number_within};
pub use streams::{Buffer, Response};
