// The note of a move.
ghost use Rattle.std.specs.Prelude.{◌≡◌, ◌∷◌, ◌+◌, ◌*◌, ◌≤◌, ◌<◌, length, take, replicate};
ghost use Rattle.theory.specs.Study.{no_link};
ghost use Rattle.text.specs.Put.{Put};
ghost use Rattle.calls.specs.Calls.{overwritten};
ghost use Rattle.notes.specs.Written.{link_rows, Writable};

use theory::NO_LINK;

// Writes the note of a move that adds j·Y: j, then the next links, a commodity's row at a time.
pub fn put_links(note: &mut [u16], nodes: usize, p: usize, next: &[[u16; 128]], j: u16)
    requires { Writable nodes p next.now × (p * nodes < length note.old) }
    ensures { note.new ≡ overwritten (j ∷ link_rows nodes p next.now) note.old }
{
    note[0] = j;
    let mut at: usize = 1;
    let mut k: usize = 0;
    while k < p {
        at = put_row(note, at, nodes, &next[k]);
        k += 1;
    }
}

// Writes the next links of one commodity at a place, and answers the place behind them.
fn put_row(note: &mut [u16], at: usize, nodes: usize, next: &[u16; 128]) -> usize
    requires { (nodes ≤ 128) × (nodes ≤ length next.now) × (at + nodes ≤ length note.old) }
    ensures { Put note.old at (take nodes next.now) note.new result }
{
    let mut j: usize = 0;
    while j < nodes {
        note[at + j] = next[j];
        j += 1;
    }
    at + nodes
}

// Writes the note of a doubling: 0, then no link throughout.
pub fn put_no_links(note: &mut [u16], count: usize)
    requires { count < length note.old }
    ensures { note.new ≡ overwritten (0 ∷ replicate count no_link) note.old }
{
    note[0] = 0;
    let mut i: usize = 0;
    while i < count {
        note[1 + i] = NO_LINK;
        i += 1;
    }
}
