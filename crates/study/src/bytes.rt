// Unsigned numbers of two and four bytes, the lowest byte first.
ghost use Rattle.std.specs.Prelude.{◌+◌, ◌<◌, ◌≤◌, ◌^◌, ◌≡◌, length};
ghost use Rattle.study.specs.Bytes.{u16 as u16Of, u32 as u32Of};

pub fn wide(x: u8) -> u16
    ensures { (result ≡ x) × (result < 256) }
{
    x as u16
}

pub fn u16_at(bytes: &[u8], at: usize) -> u16
    requires { at + 2 ≤ length bytes.now }
    ensures { result ≡ u16Of bytes.now at }
{
    let low = wide(bytes[at]);
    let high = wide(bytes[at + 1]);
    low + 256 * high
}

pub fn u32_at(bytes: &[u8], at: usize) -> u64
    requires { at + 4 ≤ length bytes.now }
    ensures { (result ≡ u32Of bytes.now at) × (result < 2 ^ 32) }
{
    let low = u16_at(bytes, at) as u64;
    let high = u16_at(bytes, at + 2) as u64;
    low + 65536 * high
}
