// Document 01, 'The questions, in order': questions 1 to 5, one function each.
ghost use Rattle.std.specs.Prelude.{◌≤◌, true, ◌≡◌, length};
ghost use Rattle.study.specs.Header.{Headed};
ghost use Rattle.study.specs.Questions.{length_fits, version_known, counts_fit, sections_apart, sections_in_order, sizes_fit};
ghost use Rattle.study.specs.Questions.{within as withinOf, refusal as refusalOf};

use crate::header::{
    destination_field, link_field, node_field, offset, section_end, size, version,
};
use crate::versions::{LATEST, form_of, section_size};

// The number of the first of questions 1 to 5 that refuses the file, or 0.
pub fn refusal(file: &[u8]) -> u8
    ensures { result ≡ refusalOf file.now }
{
    if !length_fits(file) {
        return 1;
    }
    if !version_known(file) {
        return 2;
    }
    if !counts_fit(file) {
        return 3;
    }
    if !sections_in_order(file) {
        return 4;
    }
    if !sizes_fit(file) {
        return 5;
    }
    0
}

// 1. Is the file 32 to 65,536 bytes long?
fn length_fits(file: &[u8]) -> bool
    ensures { result ≡ length_fits file.now }
{
    within(32, 65536, file.len() as u64)
}

// 2. Is the version one that there is?
fn version_known(file: &[u8]) -> bool
    requires { 32 ≤ length file.now }
    ensures { result ≡ version_known file.now }
{
    within(1, LATEST, version(file) as u64)
}

// 3. Is n 2 to 128, m 1 to 512, p 1 to 32, and p at most n?
fn counts_fit(file: &[u8]) -> bool
    requires { 32 ≤ length file.now }
    ensures { result ≡ counts_fit file.now }
{
    let n = node_field(file);
    let m = link_field(file);
    let p = destination_field(file);
    let nodes = within(2, 128, n);
    let links = within(1, 512, m);
    let destinations = within(1, 32, p);
    nodes && links && destinations && p <= n
}

// 4. Has the file its version's header, is the first offset at least the header's size, does each section end at or
// before the next offset, and the last within the file?
fn sections_in_order(file: &[u8]) -> bool
    requires { (length_fits file.now ≡ true) × (version_known file.now ≡ true) }
    ensures { result ≡ sections_in_order file.now }
{
    let header = form_of(version(file)).header;
    if (file.len() as u64) < header {
        return false;
    }
    header <= offset(file, 0) && sections_apart(file)
}

// Does each section of the version end at or before the next offset, and the last within the file?
fn sections_apart(file: &[u8]) -> bool
    requires { Headed file.now }
    ensures { result ≡ sections_apart file.now }
{
    let sections = form_of(version(file)).sections;
    let mut section = 0;
    while section < sections {
        if offset(file, section + 1) < section_end(file, section) {
            return false;
        }
        section += 1;
    }
    true
}

// 5. Is each section's length that of the version?
fn sizes_fit(file: &[u8]) -> bool
    requires { Headed file.now }
    ensures { result ≡ sizes_fit file.now }
{
    let n = node_field(file);
    let m = link_field(file);
    let p = destination_field(file);
    let sections = form_of(version(file)).sections;
    let mut section = 0;
    while section < sections {
        if size(file, section) != section_size(version(file), n, m, p, section) {
            return false;
        }
        section += 1;
    }
    true
}

fn within(least: u64, most: u64, x: u64) -> bool
    ensures { result ≡ withinOf least most x }
{
    least <= x && x <= most
}
