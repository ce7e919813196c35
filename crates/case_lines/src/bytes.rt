// Memory filled from the numbers of a line. In bytes the lowest byte of a number stands first, and
// what lies past the end is left out.
ghost use Rattle.std.specs.Prelude.{◌≡◌, ◌≤◌, ◌<◌, ◌^◌, length, IfOk, OnErr};

use crate::input::{next_number, next_within};
use std::io;
use std::io::{Bytes, Read};

// Reads a study, and answers its length.
pub fn read_study(rt: &impl Input, file: &mut [u8]) -> io::Result<usize>
    ensures ok { IfOk result (λ size. size ≤ length file.old) }
    ensures err { OnErr result (length file.new ≡ length file.old) }
{
    let mut input = rt.reader().bytes();
    let size = next_header(&mut input, file)?;
    let end = file.len().min(size + size % 2);
    if let Some(sections) = file[..end].get_mut(32..) {
        next_numbers(&mut input, sections, 2)?;
    }
    Ok(size)
}

// Reads a header, and answers the length of the file.
pub fn read_header(rt: &impl Input, file: &mut [u8]) -> io::Result<usize>
    ensures ok { IfOk result (λ size. (size ≤ length file.old) × (size < 2 ^ 32)) }
    ensures err { OnErr result (length file.new ≡ length file.old) }
{
    next_header(&mut rt.reader().bytes(), file)
}

// What `read_header` reads, of an input that serves for more than the header.
fn next_header<R: Read + Drop>(input: &mut Bytes<R>, file: &mut [u8]) -> io::Result<usize>
    ensures ok { IfOk result (λ size. (size ≤ length file.old) × (size < 2 ^ 32)) }
    ensures err { OnErr result (length file.new ≡ length file.old) }
{
    let size = next_within(input, file.len())?;
    let mut counts = [0u8; 8];
    let mut pairs = [0u8; 24];
    next_numbers(input, &mut counts, 2)?;
    next_numbers(input, &mut pairs, 4)?;
    put(file, 0, &counts);
    put(file, 8, &pairs);
    Ok(size)
}

// Reads numbers of `width` bytes each up to the end of the bytes.
pub fn read_numbers(rt: &impl Input, bytes: &mut [u8], width: usize) -> io::Result<()>
    requires { (1 ≤ width) × (width ≤ 4) }
    ensures { OnErr result (length bytes.new ≡ length bytes.old) }
{
    next_numbers(&mut rt.reader().bytes(), bytes, width)
}

// The same for `read_numbers`.
fn next_numbers<R: Read + Drop>(
    input: &mut Bytes<R>,
    bytes: &mut [u8],
    width: usize,
) -> io::Result<()>
    requires { (1 ≤ width) × (width ≤ 4) }
    ensures { OnErr result (length bytes.new ≡ length bytes.old) }
{
    for place in bytes.chunks_mut(width) {
        put(place, 0, &next_number(input)?.to_le_bytes());
    }
    Ok(())
}

// Puts the values from `at` on.
pub fn put(bytes: &mut [u8], at: usize, values: &[u8]) {
    if let Some(bytes) = bytes.get_mut(at..) {
        for (byte, value) in bytes.iter_mut().zip(values) {
            *byte = *value;
        }
    }
}

// Reads a table, and answers how many numbers it has.
pub fn read_table(rt: &impl Input, table: &mut [u32]) -> io::Result<usize>
    ensures ok { IfOk result (λ count. count ≤ length table.old) }
    ensures err { OnErr result (length table.new ≡ length table.old) }
{
    let mut input = rt.reader().bytes();
    let count = next_within(&mut input, table.len())?;
    for flow in &mut table[..count] {
        *flow = next_number(&mut input)?;
    }
    Ok(count)
}
