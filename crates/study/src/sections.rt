// What an accepted file holds: n, m and p, and each section as a part of the bytes, never a copy.
// Of a refused file the counts are 0 and the parts are empty.
ghost use Rattle.std.specs.Prelude.{◌+◌, ◌*◌, ◌<◌, ◌≡◌};
ghost use Rattle.study.specs.Bytes.{u16 as u16Of};
ghost use Rattle.study.specs.Questions.{refusal as refusalOf};
ghost use Rattle.study.specs.Sections.{if_accepted, nodes, link_size, part, link_part, destination_part, trip_part, closed_part, lorry_part, barred_part};
ghost use Rattle.study.specs.Sections.{links as linksOf, destinations as destinationsOf};

use crate::bytes::u16_at;
use crate::header::{offset, section_end, version};
use crate::questions::refusal;
use crate::versions::form_of;

// n of document 01.
pub fn node_count(file: &[u8]) -> usize
    ensures { result ≡ nodes file.now }
{
    count(file, 0)
}

// m of document 01.
pub fn link_count(file: &[u8]) -> usize
    ensures { result ≡ linksOf file.now }
{
    count(file, 1)
}

// p of document 01.
pub fn destination_count(file: &[u8]) -> usize
    ensures { result ≡ destinationsOf file.now }
{
    count(file, 2)
}

// The numbers of the sections.
pub const LINKS: usize = 0;

pub const DESTINATIONS: usize = 1;

pub const TRIPS: usize = 2;

pub const CLOSED: usize = 3;

pub const LORRY_TRIPS: usize = 4;

pub const BARRED: usize = 5;

pub fn links(file: &[u8]) -> &[u8]
    ensures { result.now ≡ link_part file.now }
{
    section(file, LINKS)
}

pub fn destinations(file: &[u8]) -> &[u8]
    ensures { result.now ≡ destination_part file.now }
{
    section(file, DESTINATIONS)
}

pub fn trips(file: &[u8]) -> &[u8]
    ensures { result.now ≡ trip_part file.now }
{
    section(file, TRIPS)
}

// A byte for each node. Of a version 1 file this part is empty.
pub fn closed(file: &[u8]) -> &[u8]
    ensures { result.now ≡ closed_part file.now }
{
    section(file, CLOSED)
}

// Laid out as the trips. Of a file of versions 1 to 3 this part and the next are empty.
pub fn lorry_trips(file: &[u8]) -> &[u8]
    ensures { result.now ≡ lorry_part file.now }
{
    section(file, LORRY_TRIPS)
}

// A byte for each link.
pub fn barred(file: &[u8]) -> &[u8]
    ensures { result.now ≡ barred_part file.now }
{
    section(file, BARRED)
}

// n, m and p stand one after the other in the header, from byte 2 on.
fn count(file: &[u8], number: usize) -> usize
    requires { number < 3 }
    ensures { result ≡ if_accepted file.now (u16Of file.now (2 + 2 * number)) 0 }
{
    if refusal(file) != 0 {
        return 0;
    }
    u16_at(file, 2 + 2 * number) as usize
}

fn section(file: &[u8], number: usize) -> &[u8]
    requires { number < 6 }
    ensures { result.now ≡ part file.now number }
{
    if refusal(file) != 0 {
        return &file[..0];
    }
    accepted_section(file, number)
}

// The bytes of a link in the version of a file that is known to be accepted.
pub fn link_size(file: &[u8]) -> usize
    requires { refusalOf file.now ≡ 0 }
    ensures { result ≡ link_size file.now }
{
    form_of(version(file)).link as usize
}

// The bytes from the section's offset on, as many as its length says, of a file that is known to be accepted: a caller that has put the
// questions itself does not put them again for each part.
pub fn accepted_section(file: &[u8], number: usize) -> &[u8]
    requires { (refusalOf file.now ≡ 0) × (number < 6) }
    ensures { result.now ≡ part file.now number }
{
    let start = offset(file, number) as usize;
    let end = section_end(file, number) as usize;
    &file[start..end]
}
