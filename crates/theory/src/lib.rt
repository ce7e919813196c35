// Definitions and laws, in specs/. Of code the crate has only the names of a link's columns and how a commodity is kept: a study's links are rows of
// six numbers and its commodities are numbers, as specs/Study.antt has them.
#![tactic(auto)]

ghost use Rattle.std.specs.Prelude.{◌≡◌, ◌≤◌, length};
ghost use Rattle.theory.specs.Study.{node_of, of_lorries};
ghost use Rattle.theory.specs.Classes.{car_count};

mod access;

pub use access::{barred_to, may_use};

pub const TAIL: usize = 0;

pub const HEAD: usize = 1;
// free time a
pub const FREE_TIME: usize = 2;
// rise b
pub const RISE: usize = 3;
// capacity c
pub const CAPACITY: usize = 4;
// two bytes: the higher is the power q; of the lower the lowest bit is 1 where the link's head is closed, and the next where lorries are barred
pub const ACCESS_POWER: usize = 5;

// No link, where link numbers are kept.
pub const NO_LINK: u16 = 65535;

// What a commodity of lorries is more than the node of its destination.
pub const LORRIES: u16 = 128;

// The node of a commodity's destination.
pub fn node_of(commodity: u16) -> usize
    ensures { result ≡ node_of commodity }
{
    commodity as usize % 128
}

pub fn of_lorries(commodity: u16) -> bool
    ensures { result ≡ of_lorries commodity }
{
    LORRIES <= commodity
}

// How many of the commodities are of cars.
pub fn car_count(commodities: &[u16]) -> usize
    ensures { (result ≡ car_count commodities.now) × (result ≤ length commodities.now) }
{
    let count = commodities.len();
    if count == 0 {
        return 0;
    }
    if of_lorries(commodities[count - 1]) {
        return count / 2;
    }
    count
}
