// What the row of a link says of who may use it.
ghost use Rattle.std.specs.Prelude.{[], ◌∷◌, ◌≡◌};
ghost use Rattle.theory.specs.Study.{barred_to, may_use};

use crate::{ACCESS_POWER, HEAD, node_of, of_lorries};

// Whether a class is barred from a link (A.7): no link is barred to cars.
pub fn barred_to(link: [u16; 6], lorries: bool) -> bool
    ensures { result ≡ barred_to (link ∷ []) lorries 0 }
{
    let barred = link[ACCESS_POWER] / 2 % 2 == 1;
    if lorries {
        return barred;
    }
    false
}

// Whether a link may carry a commodity: where its head is closed (A.2), only one to that head.
pub fn may_use(link: [u16; 6], commodity: u16) -> bool
    ensures { result ≡ may_use (link ∷ []) commodity 0 }
{
    if barred_to(link, of_lorries(commodity)) {
        return false;
    }
    let own = usize::from(link[HEAD]) == node_of(commodity);
    if link[ACCESS_POWER] % 2 == 1 {
        return own;
    }
    true
}
