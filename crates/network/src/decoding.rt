// The fields of a study, read once, into rows that the caller lends.
ghost use Rattle.std.specs.Prelude.{◌+◌, ◌*◌, ◌≤◌, ◌≡◌, [], ◌++◌, length, get_or, set};
ghost use Rattle.study.specs.Fields.{mark_byte};
ghost use Rattle.study.specs.Questions.{refusal as refusalOf};
ghost use Rattle.study.specs.Sections.{nodes as nodesOf, links as linksOf, destinations as destinationsOf, lorry_destinations};
ghost use Rattle.calls.specs.Study.{as_byte, as_mark, link_rows, commodities as commoditiesOf, trip_entries};
ghost use Rattle.network.specs.Decoded.{has_lorries, Room, Decoded, Holds, Changed, Markable, closed_marked, barred_marked, link_rows_in, nodes_in, lorries_in, entries_in, HasLinks, HasDestinations, HasEntries};

use theory::{ACCESS_POWER, HEAD, LORRIES};

// A file is short that has at most so many bytes. It has at most so many links, of ten bytes or more, and entries of trips, of two: fewer places
// are lent for it, since they are cleared first.
pub const SHORT: usize = 2048;

pub const SHORT_LINKS: usize = 204;

pub const SHORT_ENTRIES: usize = 1024;

// The most entries of trips that a file has: of cars alone, and with as many of lorries.
pub const CAR_ENTRIES: usize = 4096;

pub const ALL_ENTRIES: usize = 8192;

// Whether a file's version has lorries (A.7), for any bytes.
pub fn has_lorries(file: &[u8]) -> bool
    ensures { result ≡ has_lorries file.now }
{
    if file.len() < 32 {
        return false;
    }
    3 < study::version(file)
}

// The number of the first of questions 1 to 5 that refuses a file, or 0, and how many nodes, links, destinations and commodities an accepted one
// has: a commodity for each destination, and in version 4 (A.7) two.
#[derive(Clone, Copy)]
pub struct Opening {
    pub refusal: u8,
    pub nodes: usize,
    pub links: usize,
    pub destinations: usize,
    pub commodities: usize,
}

// Reads the fields of a file into the first links, commodities and trips of what it is lent, which has room for them. Of a file that one of
// questions 1 to 5 refuses every count is 0.
pub fn decode(
    file: &[u8],
    links: &mut [[u16; 6]],
    commodities: &mut [u16; 64],
    trips: &mut [u16],
) -> Opening
    requires { Room file.now (length links.old) (length trips.old) × (length commodities.old ≡ 64) }
    ensures { Decoded file.now result links.new commodities.new trips.new }
{
    let refusal = study::refusal(file);
    if refusal != 0 {
        return Opening {
            refusal,
            nodes: 0,
            links: 0,
            destinations: 0,
            commodities: 0,
        };
    }
    let n = study::node_field(file) as usize;
    let m = study::link_field(file) as usize;
    let p = study::destination_field(file) as usize;
    let lorries = lorry_destinations(file, p);
    decode_rows(file, m, links);
    decode_commodities(file, p, lorries, commodities);
    decode_entries(file, n, p, lorries, trips);
    Opening {
        refusal,
        nodes: n,
        links: m,
        destinations: p,
        commodities: p + lorries,
    }
}

// How many of an accepted file's p destinations have lorry trips (A.7): all, or none in a version without them.
fn lorry_destinations(file: &[u8], p: usize) -> usize
    requires { (refusalOf file.now ≡ 0) × (p ≡ destinationsOf file.now) }
    ensures { result ≡ lorry_destinations file.now }
{
    let version = study::version(file);
    if study::LORRY_TRIPS < study::form_of(version).sections {
        return p;
    }
    0
}

// The rows of an accepted file's links: their fields, and marks of the closed bytes of their heads and of their barred bytes.
fn decode_rows(file: &[u8], m: usize, links: &mut [[u16; 6]])
    requires { (refusalOf file.now ≡ 0) × (m ≡ linksOf file.now) × (m ≤ length links.old) }
    ensures { Holds (length links.old) (link_rows file.now) links.new }
{
    let bytes = study::accepted_section(file, study::LINKS);
    let closed = study::accepted_section(file, study::CLOSED);
    let barred = study::accepted_section(file, study::BARRED);
    let size = study::link_size(file);
    decode_links(bytes, size, m, links);
    mark_closed(closed, m, links);
    mark_barred(barred, m, links);
}

// The fields of the links, as if every node were open and no link barred.
fn decode_links(bytes: &[u8], size: usize, m: usize, links: &mut [[u16; 6]])
    requires { (m ≤ length links.old) × HasLinks bytes.now size m }
    ensures { Holds (length links.old) (link_rows_in bytes.now size [] [] m) links.new }
{
    let mut l = 0;
    while l < m {
        links[l] = [
            study::tail(bytes, size, l),
            study::head(bytes, size, l),
            study::free_time(bytes, size, l),
            study::rise(bytes, size, l),
            study::capacity(bytes, size, l),
            256 * power_byte(study::power(bytes, size, l)),
        ];
        l += 1;
    }
}

// A power as a byte: 255 stands for every number that is too large for one.
fn power_byte(power: u16) -> u16
    ensures { result ≡ as_byte power }
{
    if power < 255 {
        return power;
    }
    255
}

// Joins a mark of the closed byte of its head to the last number of each row, where there are closed bytes.
fn mark_closed(closed: &[u8], m: usize, links: &mut [[u16; 6]])
    requires { (m ≤ length links.old) × Markable m links.old }
    ensures { Changed (closed_marked closed.now) m links.old links.new }
{
    if closed.len() == 0 {
        return;
    }
    let mut l = 0;
    while l < m {
        let row = links[l];
        links[l] = with_mark(row, head_mark(row, closed));
        l += 1;
    }
}

// Joins a mark of its barred byte to the last number of each row, where there are barred bytes. A pass of its own: files that have closed bytes
// and no barred ones take no longer.
fn mark_barred(barred: &[u8], m: usize, links: &mut [[u16; 6]])
    requires { (m ≤ length links.old) × Markable m links.old }
    ensures { Changed (barred_marked barred.now) m links.old links.new }
{
    if barred.len() == 0 {
        return;
    }
    let mut l = 0;
    while l < m {
        links[l] = with_mark(links[l], 2 * mark(study::mark_byte(barred, l)));
        l += 1;
    }
}

// A mark of the closed byte of a link's head.
fn head_mark(row: [u16; 6], closed: &[u8]) -> u16
    ensures { (result ≡ as_mark (mark_byte closed.now (get_or row 1 0))) × (result ≤ 1) }
{
    mark(study::mark_byte(closed, row[HEAD] as usize))
}

// A row with a mark joined to its last number.
fn with_mark(row: [u16; 6], mark: u16) -> [u16; 6]
    requires { (get_or row 5 0 ≤ 65532) × (mark ≤ 2) }
    ensures { result ≡ set row 5 (get_or row 5 0 + mark) }
{
    let mut link = row;
    link[ACCESS_POWER] = row[ACCESS_POWER] + mark;
    link
}

// A closed or a barred byte as a mark: 1 where the byte is 1, and else 0.
fn mark(byte: u8) -> u16
    ensures { (result ≡ as_mark byte) × (result ≤ 1) }
{
    if byte == 1 {
        return 1;
    }
    0
}

// The commodities of an accepted file: its destinations for cars, and those for lorries after them.
fn decode_commodities(file: &[u8], p: usize, lorries: usize, commodities: &mut [u16; 64])
    requires file_value { (refusalOf file.now ≡ 0) × (p ≡ destinationsOf file.now) × (lorries ≡ lorry_destinations file.now) }
    requires commodities_len { length commodities.old ≡ 64 }
    ensures { Holds 64 (commoditiesOf file.now) commodities.new }
{
    let bytes = study::accepted_section(file, study::DESTINATIONS);
    decode_destinations(bytes, p, commodities);
    decode_lorries(bytes, p, lorries, commodities);
}

fn decode_destinations(bytes: &[u8], p: usize, commodities: &mut [u16; 64])
    requires { (p ≤ 64) × HasDestinations bytes.now p × (length commodities.old ≡ 64) }
    ensures { Holds 64 (nodes_in bytes.now p) commodities.new }
{
    let mut k = 0;
    while k < p {
        commodities[k] = study::destination(bytes, k);
        k += 1;
    }
}

// The commodities of lorries, after those of cars.
fn decode_lorries(bytes: &[u8], p: usize, lorries: usize, commodities: &mut [u16; 64])
    requires { (p + lorries ≤ 64) × HasDestinations bytes.now lorries × Holds 64 (nodes_in bytes.now p) commodities.old }
    ensures { Holds 64 (nodes_in bytes.now p ++ lorries_in bytes.now lorries) commodities.new }
{
    let mut k = 0;
    while k < lorries {
        commodities[p + k] = LORRIES + study::destination(bytes, k) % LORRIES;
        k += 1;
    }
}

// The trips of an accepted file: those of cars, and those of lorries after them.
fn decode_entries(file: &[u8], n: usize, p: usize, lorries: usize, trips: &mut [u16])
    requires file_value { (refusalOf file.now ≡ 0) × (n ≡ nodesOf file.now) × (p ≡ destinationsOf file.now) × (lorries ≡ lorry_destinations file.now) }
    requires n_in_bounds { (p + lorries) * n ≤ length trips.old }
    ensures { Holds (length trips.old) (trip_entries file.now) trips.new }
{
    let cars = p * n;
    decode_trips(study::accepted_section(file, study::TRIPS), cars, trips);
    let lorry_bytes = study::accepted_section(file, study::LORRY_TRIPS);
    decode_trips(lorry_bytes, lorries * n, &mut trips[cars..]);
}

// The entries of the trips, as they stand: the trips from node j to destination k are entry k * n + j.
fn decode_trips(bytes: &[u8], entries: usize, trips: &mut [u16])
    requires { (entries ≤ length trips.old) × HasEntries bytes.now entries }
    ensures { Holds (length trips.old) (entries_in bytes.now entries) trips.new }
{
    let mut i = 0;
    while i < entries {
        trips[i] = study::trips_from(bytes, entries, 0, i);
        i += 1;
    }
}
