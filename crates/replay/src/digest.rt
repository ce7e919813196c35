// The 64-bit FNV-1a digest of lent memory, numbers as little-endian bytes.

use crate::call::Seats;

const EMPTY: u64 = 0xcbf29ce484222325;

const PRIME: u64 = 0x100000001b3;

pub fn of_nothing() -> u64 {
    EMPTY
}

pub fn of_bytes(bytes: &[u8]) -> u64 {
    with_bytes(EMPTY, bytes)
}

pub fn of_numbers(numbers: &[u32]) -> u64 {
    with_numbers(EMPTY, numbers)
}

// A table, and its note after it.
pub fn of_noted(table: &[u32], note: &[u16]) -> u64 {
    note.iter().fold(of_numbers(table), |digest, number| {
        with_bytes(digest, &number.to_le_bytes())
    })
}

// The tables of all seats.
pub fn of_seats(seats: &Seats) -> u64 {
    let digest = of_numbers(seats.seat_0.table.as_slice());
    let digest = with_numbers(digest, seats.seat_1.table.as_slice());
    let digest = with_numbers(digest, seats.seat_2.table.as_slice());
    let digest = with_numbers(digest, seats.seat_3.table.as_slice());
    let digest = with_numbers(digest, seats.seat_4.table.as_slice());
    let digest = with_numbers(digest, seats.seat_5.table.as_slice());
    let digest = with_numbers(digest, seats.seat_6.table.as_slice());
    with_numbers(digest, seats.seat_7.table.as_slice())
}

fn with_numbers(digest: u64, numbers: &[u32]) -> u64 {
    numbers.iter().fold(digest, |digest, number| {
        with_bytes(digest, &number.to_le_bytes())
    })
}

fn with_bytes(digest: u64, bytes: &[u8]) -> u64 {
    bytes.iter().fold(digest, |digest, byte| {
        (digest ^ u64::from(*byte)).wrapping_mul(PRIME)
    })
}
