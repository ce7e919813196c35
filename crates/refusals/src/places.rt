// How large the places are that a call lends for its work.
ghost use Rattle.std.specs.Prelude.{◌≡◌};
ghost use Rattle.refusals.specs.Places.{curve_places, is_small};

use network::SHORT;
use travel::{ALL_LISTS, ONE_LIST};

// Rows for so many commodities are enough for a small study: places that are not made need not be emptied.
pub const FEW_COMMODITIES: usize = 8;

// How many numbers the curves of a file's links need: one list of powers where its version has none of its own, and else all four.
pub fn curve_places(file: &[u8]) -> usize
    ensures { result ≡ curve_places file.now }
{
    if file.len() < 32 {
        return ONE_LIST;
    }
    if study::version(file) < 3 {
        return ONE_LIST;
    }
    ALL_LISTS
}

// Whether the smaller places are enough for a file: it is short, and one list of powers is.
pub fn is_small(file: &[u8]) -> bool
    ensures { result ≡ is_small file.now }
{
    file.len() <= SHORT && curve_places(file) == ONE_LIST
}
