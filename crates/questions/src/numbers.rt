// A decoded field as a number of the code.
ghost use Rattle.std.specs.Prelude.{◌<◌, ◌≡◌};

pub fn node(field: u16) -> usize
    ensures { result ≡ field }
{
    field as usize
}

pub fn amount(field: u16) -> u32
    ensures { (result ≡ field) × (result < 65536) }
{
    field as u32
}
