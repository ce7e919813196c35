// The fields of a section, read from the section's own bytes.
ghost use Rattle.std.specs.Prelude.{◌+◌, ◌*◌, ◌≤◌, ◌≡◌};
ghost use Rattle.study.specs.Bytes.{u16 as u16Of};
ghost use Rattle.study.specs.Fields.{HasLink, HasDestination, HasTrips, free_time};
ghost use Rattle.study.specs.Fields.{tail as tailOf, head as head_of, rise as rise_of, capacity as capacityOf, power as power_of};
ghost use Rattle.study.specs.Fields.{destination as destinationOf, trips as trips_of, mark_byte};

use crate::bytes::u16_at;

pub fn tail(links: &[u8], size: usize, link: usize) -> u16
    requires { HasLink links.now size link }
    ensures { result ≡ tailOf links.now size link }
{
    link_field(links, size, link, 0)
}

pub fn head(links: &[u8], size: usize, link: usize) -> u16
    requires { HasLink links.now size link }
    ensures { result ≡ head_of links.now size link }
{
    link_field(links, size, link, 2)
}

pub fn free_time(links: &[u8], size: usize, link: usize) -> u16
    requires { HasLink links.now size link }
    ensures { result ≡ free_time links.now size link }
{
    link_field(links, size, link, 4)
}

pub fn rise(links: &[u8], size: usize, link: usize) -> u16
    requires { HasLink links.now size link }
    ensures { result ≡ rise_of links.now size link }
{
    link_field(links, size, link, 6)
}

pub fn capacity(links: &[u8], size: usize, link: usize) -> u16
    requires { HasLink links.now size link }
    ensures { result ≡ capacityOf links.now size link }
{
    link_field(links, size, link, 8)
}

// The power is the sixth number of a link of 12 bytes. A link of 10 has none, and power 4.
pub fn power(links: &[u8], size: usize, link: usize) -> u16
    requires { HasLink links.now size link }
    ensures { result ≡ power_of links.now size link }
{
    if size < 12 {
        return 4;
    }
    u16_at(links, size * link + 10)
}

pub fn destination(destinations: &[u8], k: usize) -> u16
    requires { HasDestination destinations.now k }
    ensures { result ≡ destinationOf destinations.now k }
{
    u16_at(destinations, 2 * k)
}

// The trips from a node to destination k, in a study of n nodes.
pub fn trips_from(trips: &[u8], n: usize, k: usize, node: usize) -> u16
    requires { HasTrips trips.now n k node }
    ensures { result ≡ trips_of trips.now n k node }
{
    u16_at(trips, 2 * (k * n + node))
}

// The closed byte of a node, or the barred byte of a link, or 0 where there is none.
pub fn mark_byte(bytes: &[u8], number: usize) -> u8
    ensures { result ≡ mark_byte bytes.now number }
{
    if bytes.len() <= number {
        return 0;
    }
    bytes[number]
}

// The field that stands `place` bytes on in a link's first ten.
fn link_field(links: &[u8], size: usize, link: usize, place: usize) -> u16
    requires { (HasLink links.now size link) × (place ≤ 8) }
    ensures { result ≡ u16Of links.now (size * link + place) }
{
    u16_at(links, size * link + place)
}
