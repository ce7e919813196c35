// The lines of a page.
ghost use Rattle.std.specs.Prelude.{◌+◌, ◌*◌, ◌≤◌, ◌<◌, ◌≡◌, length};
ghost use Rattle.text.specs.Put.{Put};
ghost use Rattle.travel.specs.Ranges.{LinkPowers, most_flow};
ghost use Rattle.calls.specs.Page.{volume, page_line};
ghost use Rattle.calls.specs.Laws.Page.{LineRange};
ghost use Rattle.pages.specs.Lines.{ends, row_lines, Printable};

use text::{put_aligned, put_byte, put_hundredths};
use theory::{ACCESS_POWER, HEAD, TAIL};

// Writes a line for each link, by its total flow and at a share, at the start of the page slice.
pub fn put_lines(
    links: &[[u16; 6]],
    flows: &[u64; 512],
    share: u32,
    curves: &[u64],
    page: &mut [u8],
) -> usize
    requires { Printable links.now share flows.now × LinkPowers links.now curves.now × (30 * length links.now ≤ length page.old) }
    ensures { Put page.old 0 (row_lines links.now share flows.now) page.new result }
{
    let mut at = 0;
    let mut l = 0;
    while l < links.len() {
        let link = links[l];
        let flow = flows[l];
        let volume = volume_of(share, flow);
        let list = travel::list_start(link[ACCESS_POWER] / 256, travel::ALL_LISTS);
        let timed = travel::link_time(link, list, share, flow, curves);
        let time = timed.time as u32;
        at = put_line(page, at, l, link[TAIL], link[HEAD], volume, time);
        l += 1;
    }
    at
}

// Volume: floor(100·S / W).
fn volume_of(share: u32, flow: u64) -> u32
    requires { (1 ≤ share) × (flow ≤ most_flow) × (volume share flow ≤ 6553500) }
    ensures { result ≡ volume share flow }
{
    (100 * flow / share as u64) as u32
}

// The line of a link: 30 bytes.
fn put_line(
    out: &mut [u8],
    at: usize,
    link: usize,
    tail: u16,
    head: u16,
    volume: u32,
    time: u32,
) -> usize
    requires { LineRange link tail head volume time × (at + 30 ≤ length out.old) }
    ensures put { Put out.old at (page_line link tail head volume time) out.new result }
    ensures value { result ≡ at + 30 }
{
    let at = put_ends(out, at, link, tail, head);
    let at = put_hundredths(out, at, 5, volume as u64);
    let at = put_byte(out, at, b' ');
    let at = put_hundredths(out, at, 5, time as u64);
    put_byte(out, at, b'\n')
}

// The first 12 bytes of it: the link and its ends.
fn put_ends(out: &mut [u8], at: usize, link: usize, tail: u16, head: u16) -> usize
    requires { (link < 1000) × (tail < 1000) × (head < 1000) × (at + 12 ≤ length out.old) }
    ensures put { Put out.old at (ends link tail head) out.new result }
    ensures value { result ≡ at + 12 }
{
    let at = put_aligned(out, at, 3, link as u64);
    let at = put_byte(out, at, b' ');
    let at = put_aligned(out, at, 3, tail as u64);
    let at = put_byte(out, at, b' ');
    let at = put_aligned(out, at, 3, head as u64);
    put_byte(out, at, b' ')
}
