// The note of a pass.
ghost use Rattle.std.specs.Prelude.{◌≡◌};
ghost use Rattle.theory.specs.Study.{network};
ghost use Rattle.judging.specs.Study.{study_of};
ghost use Rattle.judging.specs.Classes.{ClassChains};
ghost use Rattle.judging.specs.Noted.{Notable, note_by};

use crate::classes::complete_next_links;

// Fills the note of a pass that chose j, where it moves the table: with j and the next links of all nodes to all commodities at the judged
// times, or, where it doubles the table and its share, with 0 and no links.
pub fn put_note(
    nodes: usize,
    links: &[[u16; 6]],
    commodities: &[u16],
    trips: &[u16],
    chains: &[[u16; 896]],
    times: &[u32; 512],
    next: &mut [[u16; 128]],
    j: u32,
    doubled: u32,
    note: &mut [u16],
)
    requires { Notable (study_of nodes links.now commodities.now trips.now) times.now next.old j note.old × ClassChains (study_of nodes links.now commodities.now trips.now) chains.now }
    ensures { note.new ≡ note_by (network nodes links.now commodities.now trips.now) times.now j doubled note.old }
{
    if 0 < j {
        complete_next_links(nodes, links, commodities, trips, times, chains, next);
        notes::put_links(note, nodes, commodities.len(), next, j as u16);
        return;
    }
    if doubled <= 1024 {
        notes::put_no_links(note, commodities.len() * nodes);
    }
}
