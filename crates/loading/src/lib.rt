// The loading of one destination: each node hands all its trips on to the head of its next link. The trips that leave each node are its
// volume, and volumes are added to a row of link flows, each at its node's next link.
#![tactic(auto)]

ghost use Rattle.std.specs.Prelude.{◌≡◌};

mod adding;
mod sending;

pub use adding::add_volumes;
pub use sending::{any_trips, volumes};

// A number of 16 bits, as an index.
pub fn index(x: u16) -> usize
    ensures { result ≡ x }
{
    usize::from(x)
}
