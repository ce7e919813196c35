// A number of a narrow type, read as a wider one.
ghost use Rattle.std.specs.Prelude.{◌≡◌};

pub fn wide(x: u32) -> u64
    ensures { result ≡ x }
{
    x as u64
}
