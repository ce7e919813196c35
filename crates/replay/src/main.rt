// Runs a stream of recorded calls from standard input, and prints for each a line with every number
// that it answers and a digest of what it was lent, as the call left it. The stream, all numbers
// little-endian, holds for each call:
//
//     u8   kind: 1 check, 2 pack, 3 start, 4 pass, 5 run, 6 audit, 7 page, 8 take back, 9 several
//          desks; any other ends the stream
//     u32  length of the file, and its bytes
//     u32  length of what is lent, and its bytes (pack) or its numbers of 32 bits (start to take back)
//     u32  length of the page slice, and its bytes (page)
//     u32  length of the note, and its numbers of 16 bits (pass and take back)
//     u32  share, u32 budget, u16 excess; 0 where the call takes none
//
// and for several desks, after the kind, for each of the eight seats
//
//     u32  length of the file, and its bytes
//     u32  length of the table, and its numbers of 32 bits
//     u32  budget, u16 excess
//
// and then u32 desks and u32 allowance.
//
// A length of 2^32 - 1 has nothing after it: the file of the call before, the table as the call
// before left it, or the note as the last call that was lent one left it (empty before any). Each seat
// has a file and a table of its own, which the last call of several desks had and left. A file or
// a part of what is lent that is not whole, or does not fit, ends the stream (but for several desks
// the other parts of the call are read too); past its end a number is 0.
#![tactic(auto)]

use std::io;
use streams::Buffer;

mod call;
mod digest;
mod input;
mod lines;
mod play;

use call::{Lent, Seats};

// A stream has fewer calls than this.
const MOST_CALLS: usize = 1000000;

fn main(rt: HostRuntime) -> io::Result<()> {
    let mut lent = Lent {
        file: Buffer::new(0),
        table: Buffer::new(0),
        note: Buffer::new(0),
        output: Buffer::new(0),
        seats: Seats::new(),
    };
    let lent = &mut lent;
    for _ in 0..MOST_CALLS {
        let Some(call) = input::read_call(&rt, lent)? else {
            return Ok(());
        };
        play::play(
            &rt,
            lent.file.as_slice(),
            lent.output.as_mut_slice(),
            lent.table.as_mut_slice(),
            lent.note.as_mut_slice(),
            &mut lent.seats,
            call,
        )?;
    }
    Ok(())
}
