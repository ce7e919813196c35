// Lines, words, numbers and labels on standard input. With a word or a number goes the byte behind it.
ghost use Rattle.std.specs.Prelude.{◌<◌, ◌≤◌, ◌^◌, IfOk};

use std::io;
use std::io::{Bytes, Read};

// There are fewer lines than this.
const MOST_LINES: usize = 1000;

// A word or a label has fewer bytes than this.
const MOST_BYTES: usize = 100;

// A number has fewer digits than this.
const MOST_DIGITS: usize = 11;

// Runs each line of the input, with the first letter of its word.
pub fn each_line<F: FnMut(u8) -> io::Result<()>>(rt: &impl Input, mut run: F) -> io::Result<()>
    requires { F.IsAlwaysCallable run }
{
    for _ in 0..MOST_LINES {
        let Some(word) = word(rt)? else {
            return Ok(());
        };
        run(word)?;
    }
    Ok(())
}

// The first letter of the next word, or none at the end of the input or at a byte 0.
fn word(rt: &impl Input) -> io::Result<Option<u8>> {
    let mut bytes = rt.reader().bytes();
    let first = bytes.next().transpose()?;
    if first.is_some_and(is_in_word) {
        for byte in bytes.take(MOST_BYTES) {
            if !is_in_word(byte?) {
                break;
            }
        }
    }
    Ok(first.filter(|byte| *byte != 0))
}

// Words end at a space or at the end of their line.
fn is_in_word(byte: u8) -> bool {
    byte > b' '
}

// The next number, taken modulo 2³². It is 0 where there is no digit.
pub fn number(rt: &impl Input) -> io::Result<u32> {
    next_number(&mut rt.reader().bytes())
}

// What `number` reads, of an input that serves for more than one number.
pub fn next_number<R: Read + Drop>(input: &mut Bytes<R>) -> io::Result<u32> {
    let mut value = 0u32;
    for byte in input.take(MOST_DIGITS) {
        let byte = byte?;
        if !byte.is_ascii_digit() {
            break;
        }
        value = value.wrapping_mul(10).wrapping_add(u32::from(byte - b'0'));
    }
    Ok(value)
}

// The next number, taken modulo 2¹⁶.
pub fn number_u16(rt: &impl Input) -> io::Result<u16> {
    Ok((number(rt)? % 65536) as u16)
}

// The next number, or `most` where that is less.
pub fn number_within(rt: &impl Input, most: usize) -> io::Result<usize>
    ensures { IfOk result (λ value. (value ≤ most) × (value < 2 ^ 32)) }
{
    next_within(&mut rt.reader().bytes(), most)
}

// The same for `number_within`.
pub fn next_within<R: Read + Drop>(input: &mut Bytes<R>, most: usize) -> io::Result<usize>
    ensures { IfOk result (λ value. (value ≤ most) × (value < 2 ^ 32)) }
{
    Ok(most.min(next_number(input)? as usize))
}

// Prints the rest of the line.
pub fn label(rt: &(impl Input + Print)) -> io::Result<()> {
    for byte in rt.reader().bytes().take(MOST_BYTES) {
        let byte = byte?;
        if byte == 0 || byte == b'\n' {
            break;
        }
        rt.write_all(&[byte])?;
    }
    Ok(())
}
