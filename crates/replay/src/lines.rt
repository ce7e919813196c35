// A line of answers: the call's name, its numbers in decimal, and the digest in 16 hexadecimal
// digits, separated by single spaces. The refusal is the number that the exported calls answer.
use std::io;

pub fn print(
    rt: &impl Print,
    name: &str,
    refusal: u8,
    numbers: &[u64],
    digest: u64,
) -> io::Result<()> {
    print!(rt; "{name} {refusal}")?;
    for number in numbers {
        print!(rt; " {number}")?;
    }
    println!(rt; " {digest:016x}")
}
