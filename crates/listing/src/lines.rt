// The lines of a listing. A number of 64 bits has at most 20 digits and one of 32 bits at most 10, so
// each line has room within the bytes that its function requires.
ghost use Rattle.std.specs.Prelude.{◌+◌, ◌*◌, ◌≤◌, ◌≡◌, ◌++◌, length, drop};
ghost use Rattle.text.specs.Decimal.{newline};
ghost use Rattle.text.specs.Put.{Put};
ghost use Rattle.listing.specs.Listing.{ending_word, number_line, link_line};
ghost use Rattle.listing.specs.Lines.{answer_lines, link_lines, listing_of};

use calls::{Ending, RunAnswer};
use text::{put_byte, put_decimal, put_text};

// Writes the listing of an answer and of the total flow and the time of each of m links, and
// answers how many bytes it has. What stands behind them stays as it was.
pub fn write_listing(
    answer: RunAnswer,
    m: usize,
    flows: &[u64; 512],
    times: &[u32; 512],
    out: &mut [u8],
) -> usize
    requires m_bound { m ≤ 512 }
    requires in_bounds { 32768 ≤ length out.old }
    ensures value { result ≡ length (listing_of answer m flows.now times.now) }
    ensures out_after { out.new ≡ listing_of answer m flows.now times.now ++ drop result out.old }
{
    let refusal = answer.refusal;
    if refusal != 0 {
        return put_number_line(out, 0, b"refused", refusal as u64);
    }
    let at = put_answer_lines(out, answer);
    put_link_lines(out, at, m, flows, times)
}

// The lines before those of the links.
fn put_answer_lines(out: &mut [u8], answer: RunAnswer) -> usize
    requires { 140 ≤ length out.old }
    ensures put { Put out.old 0 (answer_lines answer) out.new result }
    ensures upper_bound { result ≤ 140 }
{
    let ending = answer.ending;
    let over = answer.over as u64;
    let at = put_ending_line(out, 0, ending);
    let at = put_number_line(out, at, b"judged", answer.judged as u64);
    let at = put_number_line(out, at, b"share", answer.share as u64);
    let at = put_number_line(out, at, b"gap", answer.gap);
    let at = put_number_line(out, at, b"cost", answer.cost);
    put_number_line(out, at, b"over", over)
}

fn put_ending_line(out: &mut [u8], at: usize, ending: Ending) -> usize
    requires { at + 8 ≤ length out.old }
    ensures put { Put out.old at (ending_word ending ++ newline) out.new result }
    ensures upper_bound { result ≤ at + 8 }
{
    let end = put_ending(out, at, ending);
    put_byte(out, end, b'\n')
}

fn put_ending(out: &mut [u8], at: usize, ending: Ending) -> usize
    requires { at + 7 ≤ length out.old }
    ensures put { Put out.old at (ending_word ending) out.new result }
    ensures upper_bound { result ≤ at + 7 }
{
    match ending {
        Ending::Reached => put_text(out, at, b"reached"),
        Ending::Finest => put_text(out, at, b"finest"),
        Ending::Spent => put_text(out, at, b"spent"),
        Ending::Waiting => put_text(out, at, b"waiting"),
        Ending::Refused => put_text(out, at, b"refused"),
    }
}

fn put_number_line(out: &mut [u8], at: usize, word: &[u8], x: u64) -> usize
    requires { at + length word.now + 22 ≤ length out.old }
    ensures put { Put out.old at (number_line word.now x) out.new result }
    ensures upper_bound { result ≤ at + length word.now + 22 }
{
    let at = put_text(out, at, word);
    let at = put_byte(out, at, b' ');
    let at = put_decimal(out, at, x);
    put_byte(out, at, b'\n')
}

// The lines of the first m links.
fn put_link_lines(
    out: &mut [u8],
    at: usize,
    m: usize,
    flows: &[u64; 512],
    times: &[u32; 512],
) -> usize
    requires m_bound { m ≤ 512 }
    requires m_in_bounds { at + 58 * m ≤ length out.old }
    ensures put { Put out.old at (link_lines m flows.now times.now) out.new result }
    ensures upper_bound { result ≤ at + 58 * m }
{
    let mut next = at;
    let mut l = 0;
    while l < m {
        next = put_link_line(out, next, l, flows[l], times[l]);
        l += 1;
    }
    next
}

fn put_link_line(out: &mut [u8], at: usize, l: usize, flow: u64, time: u32) -> usize
    requires { at + 58 ≤ length out.old }
    ensures put { Put out.old at (link_line l flow time) out.new result }
    ensures upper_bound { result ≤ at + 58 }
{
    let at = put_text(out, at, b"link ");
    let at = put_decimal(out, at, l as u64);
    let at = put_byte(out, at, b' ');
    let at = put_decimal(out, at, flow);
    let at = put_byte(out, at, b' ');
    let at = put_decimal(out, at, time as u64);
    put_byte(out, at, b'\n')
}
