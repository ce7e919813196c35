// Document 01's pack: an accepted study in its own version with no gaps, sections in order from the header's end on.
ghost use Rattle.std.specs.Prelude.{◌+◌, ◌≤◌, ◌++◌, ◌≡◌, length};
ghost use Rattle.study.specs.Versions.{form_of, section_size};
ghost use Rattle.study.specs.Header.{version};
ghost use Rattle.study.specs.Questions.{refusal};
ghost use Rattle.study.specs.Laws.{Known};
ghost use Rattle.calls.specs.Pack.{bytes16, bytes32, section_place, packed_header, packed};
ghost use Rattle.calls.specs.Calls.{overwritten, pack_number, pack_output};
ghost use Rattle.calls.specs.Questions.{packed_size};
ghost use Rattle.network.specs.Decoded.{Counts};
ghost use Rattle.network.specs.Written.{written, pair_bytes, section_bytes};

use crate::checking::check;

// Pack returns only the refusal number or 0. A refusal leaves the output as it was, and so are the
// bytes after the packed study.
pub fn pack(file: &[u8], output: &mut [u8]) -> u8
    ensures { (result ≡ pack_number file.now output.old) × (output.new ≡ pack_output file.now output.old) }
{
    let refusal = check(file);
    if refusal != 0 {
        return refusal;
    }
    let n = study::node_field(file) as usize;
    let m = study::link_field(file) as usize;
    let p = study::destination_field(file) as usize;
    if output.len() < packed_end(study::version(file), n, m, p) {
        return 17;
    }
    write_study(file, n, m, p, output);
    0
}

// Where a packed study of a version ends: after its header and the version's sections.
fn packed_end(version: u16, n: usize, m: usize, p: usize) -> usize
    requires { Known version × ((n ≤ 128) × (m ≤ 512) × (p ≤ 32)) }
    ensures { result ≡ section_place version n m p (form_of version).sections }
{
    let form = study::form_of(version);
    let sections = form.sections;
    let mut place = form.header as usize;
    let mut section = 0;
    while section < sections {
        place += section_size(version, n, m, p, section);
        section += 1;
    }
    place
}

// The length of a section in a version.
fn section_size(version: u16, n: usize, m: usize, p: usize, section: usize) -> usize
    requires { Known version × ((n ≤ 128) × (m ≤ 512) × (p ≤ 32)) }
    ensures { (result ≡ section_size version n m p section) × (result ≤ 8192) }
{
    study::section_size(version, n as u64, m as u64, p as u64, section) as usize
}

fn write_study(file: &[u8], n: usize, m: usize, p: usize, output: &mut [u8])
    requires counts { Counts file.now n m p × (refusal file.now ≡ 0) }
    requires file_in_bounds { packed_size file.now ≤ length output.old }
    ensures { output.new ≡ overwritten (packed file.now) output.old }
{
    write_header(output, study::version(file), n, m, p);
    write_sections(file, output);
}

// The sections of the version, one after the other from the header's end on.
fn write_sections(file: &[u8], output: &mut [u8])
    requires { (refusal file.now ≡ 0) × (packed_size file.now ≤ length output.old) }
    ensures { output.new ≡ written (form_of (version file.now)).header (section_bytes file.now) output.old }
{
    let form = study::form_of(study::version(file));
    let sections = form.sections;
    let mut place = form.header as usize;
    let mut section = 0;
    while section < sections {
        let bytes = study::accepted_section(file, section);
        write_bytes(output, place, bytes);
        place += bytes.len();
        section += 1;
    }
}

fn write_header(output: &mut [u8], version: u16, n: usize, m: usize, p: usize)
    requires { Known version × ((form_of version).header ≤ length output.old) × ((n ≤ 128) × (m ≤ 512) × (p ≤ 32)) }
    ensures { output.new ≡ overwritten (packed_header version n m p) output.old }
{
    write_counts(output, version as usize, n, m, p);
    write_pairs(output, version, n, m, p);
}

// The pair of each section of the version, after the counts.
fn write_pairs(output: &mut [u8], version: u16, n: usize, m: usize, p: usize)
    requires { Known version × ((form_of version).header ≤ length output.old) × ((n ≤ 128) × (m ≤ 512) × (p ≤ 32)) }
    ensures { output.new ≡ written 8 (pair_bytes version n m p) output.old }
{
    let form = study::form_of(version);
    let sections = form.sections;
    let mut place = form.header as usize;
    let mut section = 0;
    while section < sections {
        let size = section_size(version, n, m, p, section);
        write_pair(output, 8 + 8 * section, place, size);
        place += size;
        section += 1;
    }
}

// The version and the counts.
fn write_counts(output: &mut [u8], version: usize, n: usize, m: usize, p: usize)
    requires { 8 ≤ length output.old }
    ensures { output.new ≡ overwritten (bytes16 version ++ bytes16 n ++ bytes16 m ++ bytes16 p) output.old }
{
    write_u16(output, 0, version);
    write_u16(output, 2, n);
    write_u16(output, 4, m);
    write_u16(output, 6, p);
}

// The offset and the length of a section.
fn write_pair(output: &mut [u8], at: usize, offset: usize, size: usize)
    requires { at + 8 ≤ length output.old }
    ensures { output.new ≡ written at (bytes32 offset ++ bytes32 size) output.old }
{
    write_u32(output, at, offset);
    write_u32(output, at + 4, size);
}

fn write_u32(output: &mut [u8], at: usize, x: usize)
    requires { at + 4 ≤ length output.old }
    ensures { output.new ≡ written at (bytes32 x) output.old }
{
    write_u16(output, at, x % 65536);
    write_u16(output, at + 2, x / 65536);
}

// The lowest byte first.
fn write_u16(output: &mut [u8], at: usize, x: usize)
    requires { at + 2 ≤ length output.old }
    ensures { output.new ≡ written at (bytes16 x) output.old }
{
    output[at] = (x % 256) as u8;
    output[at + 1] = (x / 256 % 256) as u8;
}

fn write_bytes(output: &mut [u8], at: usize, bytes: &[u8])
    requires { at + length bytes.now ≤ length output.old }
    ensures { output.new ≡ written at bytes.now output.old }
{
    let mut i = 0;
    while i < bytes.len() {
        output[at + i] = bytes[i];
        i += 1;
    }
}
