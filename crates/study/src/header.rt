// The header's fields, of a file that has it. Counts, offsets and lengths are u64, in which
// the sum of an offset and a length, and the product 2pn, cannot wrap.
ghost use Rattle.std.specs.Prelude.{◌+◌, ◌<◌, ◌≤◌, ◌^◌, ◌≡◌, length};
ghost use Rattle.study.specs.Header.{version as versionOf, node_field, link_field, destination_field};
ghost use Rattle.study.specs.Header.{offset as offset_of, size as size_of, Headed, has_section};
ghost use Rattle.study.specs.Questions.{section_end};

use crate::bytes::{u16_at, u32_at};
use crate::versions::form_of;

pub fn version(file: &[u8]) -> u16
    requires { 32 ≤ length file.now }
    ensures { result ≡ versionOf file.now }
{
    u16_at(file, 0)
}

pub fn node_field(file: &[u8]) -> u64
    requires { 32 ≤ length file.now }
    ensures { (result ≡ node_field file.now) × (result < 65536) }
{
    u16_at(file, 2) as u64
}

pub fn link_field(file: &[u8]) -> u64
    requires { 32 ≤ length file.now }
    ensures { (result ≡ link_field file.now) × (result < 65536) }
{
    u16_at(file, 4) as u64
}

pub fn destination_field(file: &[u8]) -> u64
    requires { 32 ≤ length file.now }
    ensures { (result ≡ destination_field file.now) × (result < 65536) }
{
    u16_at(file, 6) as u64
}

// Whether the file's version has the section.
fn has_section(file: &[u8], section: usize) -> bool
    requires { Headed file.now }
    ensures { result ≡ has_section file.now section }
{
    section < form_of(version(file)).sections
}

// Sections are numbered in the order of their pairs: 0 links, 1 destinations, 2 trips, 3 closed, 4 lorry trips, 5 barred. A section that the
// file's version does not have is empty, at the end of the file.
pub fn offset(file: &[u8], section: usize) -> u64
    requires { Headed file.now × (section < 7) }
    ensures { (result ≡ offset_of file.now section) × (result < 2 ^ 32) }
{
    if !has_section(file, section) {
        return file.len() as u64;
    }
    u32_at(file, 8 + 8 * section)
}

pub fn size(file: &[u8], section: usize) -> u64
    requires { Headed file.now × (section < 7) }
    ensures { (result ≡ size_of file.now section) × (result < 2 ^ 32) }
{
    if !has_section(file, section) {
        return 0;
    }
    u32_at(file, 12 + 8 * section)
}

// Where a section ends, which may be past 2³².
pub fn section_end(file: &[u8], section: usize) -> u64
    requires { Headed file.now × (section < 7) }
    ensures { result ≡ section_end file.now section }
{
    offset(file, section) + size(file, section)
}
