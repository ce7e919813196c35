// What a stream holds: little-endian numbers, and lengths with the numbers after them.
ghost use Rattle.std.specs.Prelude.{◌≡◌, ◌≤◌, ◌*◌, length, OnErr};
ghost use Rattle.std.proofs.Common.{lit≤};

use crate::call::{Call, Kind, Lent, Seat, Seats};
use std::io;
use streams::{Buffer, read_full};

// A length that stands for what was left.
const SAME: u32 = 4294967295;

// Where bytes are read that become numbers: the output's memory, which has room for those of any table and any note.
type Bytes = [u8; 131200];

// A number that a stream holds as SIZE bytes.
trait Encoded<const SIZE: usize>: Copy {
    fn decode(bytes: [u8; SIZE]) -> Self;

    // There are bytes, and an array of them fits memory.
    ghost has_bytes: { 1 ≤ SIZE };

    ghost is_short: { SIZE ≤ 8 };
}

impl Encoded<1> for u8 {
    ghost has_bytes = { lit≤ tt };

    ghost is_short = { lit≤ tt };

    fn decode(bytes: [u8; 1]) -> u8 {
        u8::from_le_bytes(bytes)
    }
}

impl Encoded<2> for u16 {
    ghost has_bytes = { lit≤ tt };

    ghost is_short = { lit≤ tt };

    fn decode(bytes: [u8; 2]) -> u16 {
        u16::from_le_bytes(bytes)
    }
}

impl Encoded<4> for u32 {
    ghost has_bytes = { lit≤ tt };

    ghost is_short = { lit≤ tt };

    fn decode(bytes: [u8; 4]) -> u32 {
        u32::from_le_bytes(bytes)
    }
}

// The next call of the stream, and what it is lent; none where the stream ends.
pub fn read_call(rt: &impl Input, lent: &mut Lent) -> io::Result<Option<Call>> {
    let byte = read_number::<u8, 1>(rt)?;
    let Ok(kind) = Kind::try_from(byte) else {
        return Ok(None);
    };
    if kind == Kind::Desks {
        return read_desks(rt, &mut lent.seats, &mut lent.output.items);
    }
    if read_lent(rt, kind, lent)? {
        Ok(Some(read_end(rt, kind)?))
    } else {
        Ok(None)
    }
}

// A call of several desks: what it is lent and handed for each seat, and then its own numbers.
fn read_desks(rt: &impl Input, seats: &mut Seats, bytes: &mut Bytes) -> io::Result<Option<Call>> {
    if !read_seats(rt, seats, bytes)? {
        return Ok(None);
    }
    let desks = read_number::<u32, 4>(rt)?;
    let allowance = read_number::<u32, 4>(rt)?;
    Ok(Some(Call {
        kind: Kind::Desks,
        share: 0,
        budget: 0,
        excess: 0,
        desks,
        allowance,
    }))
}

// Answers whether the stream has all seats whole. Past the first that is not, nothing is read.
fn read_seats(rt: &impl Input, seats: &mut Seats, bytes: &mut Bytes) -> io::Result<bool> {
    Ok(
        read_seat(rt, &mut seats.seat_0, bytes)?
            && read_seat(rt, &mut seats.seat_1, bytes)?
            && read_seat(rt, &mut seats.seat_2, bytes)?
            && read_seat(rt, &mut seats.seat_3, bytes)?
            && read_seat(rt, &mut seats.seat_4, bytes)?
            && read_seat(rt, &mut seats.seat_5, bytes)?
            && read_seat(rt, &mut seats.seat_6, bytes)?
            && read_seat(rt, &mut seats.seat_7, bytes)?,
    )
}

fn read_seat(rt: &impl Input, seat: &mut Seat, bytes: &mut Bytes) -> io::Result<bool> {
    if !read_bytes(rt, &mut seat.file)? || !read_numbers(rt, &mut seat.table, bytes)? {
        return Ok(false);
    }
    seat.budget = read_number::<u32, 4>(rt)?;
    seat.excess = read_number::<u16, 2>(rt)?;
    Ok(true)
}

// Reads what a call of this kind is lent, each part whether or not those before it are whole. Answers whether the
// stream has all of it whole.
fn read_lent(rt: &impl Input, kind: Kind, lent: &mut Lent) -> io::Result<bool> {
    let bytes = &mut lent.output.items;
    let file = read_bytes(rt, &mut lent.file)?;
    let table = !kind.takes_table() || read_numbers(rt, &mut lent.table, bytes)?;
    let note = !kind.takes_note() || read_numbers(rt, &mut lent.note, bytes)?;
    lent.output.len = 0;
    let output = !kind.takes_output() || read_bytes(rt, &mut lent.output)?;
    Ok(file && table && note && output)
}

// The numbers at a call's end.
fn read_end(rt: &impl Input, kind: Kind) -> io::Result<Call> {
    let share = read_number::<u32, 4>(rt)?;
    let budget = read_number::<u32, 4>(rt)?;
    let excess = read_number::<u16, 2>(rt)?;
    Ok(Call {
        kind,
        share,
        budget,
        excess,
        desks: 0,
        allowance: 0,
    })
}

// A length and its bytes. Answers whether the stream has them all, and they fit.
fn read_bytes<const N: usize>(rt: &impl Input, part: &mut Buffer<u8, N>) -> io::Result<bool>
    ensures { OnErr result (part.new.len ≡ part.old.len) }
{
    match read_number::<u32, 4>(rt)? {
        SAME => Ok(true),
        len if len as usize <= N => {
            let whole = fill(rt, &mut part.items[..len as usize])?;
            part.len = len as usize;
            Ok(whole)
        }
        _ => Ok(false),
    }
}

// A length and its numbers, each made of SIZE bytes, all of which are read into `bytes` before the part changes.
// Answers whether the stream has them all, and they fit.
fn read_numbers<T: Encoded<SIZE>, const N: usize, const SIZE: usize>(
    rt: &impl Input,
    part: &mut Buffer<T, N>,
    bytes: &mut [u8],
) -> io::Result<bool>
    requires { N * SIZE ≤ length bytes.old }
    ensures { OnErr result ((part.new ≡ part.old) × (length bytes.new ≡ length bytes.old)) }
{
    match read_number::<u32, 4>(rt)? {
        SAME => Ok(true),
        len if len as usize <= N => {
            let bytes = &mut bytes[..len as usize * SIZE];
            let whole = fill(rt, bytes)?;
            part.len = len as usize;
            decode(bytes, part.as_mut_slice());
            Ok(whole)
        }
        _ => Ok(false),
    }
}

// Reads up to the end of the bytes. Answers whether the stream has as many.
fn fill(rt: &impl Input, bytes: &mut [u8]) -> io::Result<bool>
    ensures { OnErr result (length bytes.new ≡ length bytes.old) }
{
    Ok(read_full(rt, bytes)? == bytes.len())
}

// The numbers that the bytes hold.
fn decode<T: Encoded<SIZE>, const SIZE: usize>(bytes: &[u8], numbers: &mut [T]) {
    let (encoded, _) = bytes.as_chunks::<SIZE>();
    for (number, bytes) in numbers.iter_mut().zip(encoded) {
        *number = T::decode(*bytes);
    }
}

// The next number, of SIZE bytes. Where the stream ends before that, the bytes that are not there are 0.
fn read_number<T: Encoded<SIZE>, const SIZE: usize>(rt: &impl Input) -> io::Result<T> {
    let mut bytes = [0u8; SIZE];
    read_full(rt, &mut bytes)?;
    Ok(T::decode(bytes))
}
