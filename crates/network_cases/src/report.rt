// Lines of output.
ghost use Rattle.std.specs.Prelude.{◌<◌};

use crate::Bytes;
use case_lines::{label, number_within};
use std::io;

// Reads the size of the output and the label, and prints what check and pack answer of a file, and a
// digest of the output that pack was lent. Every byte of the output is 170 before that.
pub fn pack(rt: &(impl Input + Print), file: &[u8], output: &mut Bytes) -> io::Result<()> {
    output.len = number_within(rt, output.items.len())?;
    label(rt)?;
    let output = output.as_mut_slice();
    output.fill(170);
    let check = network::check(file);
    let pack = network::pack(file, output);
    println!(rt; ": check {check}, pack {pack}, output {}", digest(output))
}

// Reads the label of a line with every byte of the output.
pub fn show(rt: &(impl Input + Print), output: &[u8]) -> io::Result<()> {
    label(rt)?;
    for byte in output {
        print!(rt; " {byte}")?;
    }
    println!(rt; "")
}

fn digest(bytes: &[u8]) -> u32
    ensures { result < 1000003 }
{
    let mut sum = 0;
    for byte in bytes {
        sum = ((u64::from(sum) * 31 + u64::from(*byte) + 1) % 1000003) as u32;
    }
    sum
}
