// The largest study: 128 nodes in a row, each link from a node to the next, 32 destinations. In this
// order of the links one sweep of a reach search marks few nodes.
ghost use Rattle.std.specs.Prelude.{◌≡◌, length, OnErr};

use crate::Bytes;
use case_lines::{number, number_u16, read_header};
use std::io;

// Reads the header.
pub fn read(rt: &impl Input, file: &mut Bytes) -> io::Result<()> {
    file.len = read_header(rt, &mut file.items)?;
    put_links(&mut file.items);
    put_rows(&mut file.items);
    Ok(())
}

// Reads a link, its tail and its head.
pub fn read_link(rt: &impl Input, file: &mut [u8]) -> io::Result<()>
    ensures { OnErr result (length file.new ≡ length file.old) }
{
    let link = number(rt)? as usize;
    let tail = number_u16(rt)?;
    let head = number_u16(rt)?;
    put(file, 32 + 10 * link, &[tail, head]);
    Ok(())
}

// Reads a destination, a node, and the trips from it.
pub fn read_trips(rt: &impl Input, file: &mut [u8]) -> io::Result<()>
    ensures { OnErr result (length file.new ≡ length file.old) }
{
    let k = number(rt)? as usize;
    let node = number(rt)? as usize;
    let trips = number_u16(rt)?;
    put(file, 5216 + 256 * k + 2 * node, &[trips]);
    Ok(())
}

// Link l leads from node l mod 127 to the next, with free time 1, rise 0 and capacity 1.
fn put_links(file: &mut [u8]) {
    for l in 0..512 {
        let tail = l % 127;
        put(file, 32 + 10 * usize::from(l), &[tail, tail + 1, 1, 0, 1]);
    }
}

// Destination k is node 4k + 3, and one trip goes to it from each node before it.
fn put_rows(file: &mut [u8]) {
    let ones = [1u16; 128];
    for k in 0..32 {
        let node = 4 * k + 3;
        put(file, 5152 + 2 * usize::from(k), &[node]);
        put(
            file,
            5216 + 256 * usize::from(k),
            &ones[..usize::from(node)],
        );
    }
}

// Puts numbers of two bytes from `at` on. What lies past the end is left out: whole numbers, since the place and the length of the memory are even.
fn put(file: &mut [u8], at: usize, numbers: &[u16]) {
    if let Some(bytes) = file.get_mut(at..) {
        let (places, _) = bytes.as_chunks_mut::<2>();
        for (place, number) in places.iter_mut().zip(numbers) {
            *place = number.to_le_bytes();
        }
    }
}
