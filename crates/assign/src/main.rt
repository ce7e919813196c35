// Document 01, the program `assign`: it reads u16 budget, u16 excess and a study from standard input,
// and prints the listing of a run.
#![tactic(auto)]

use std::io;

fn main(rt: HostRuntime) -> io::Result<()> {
    streams::run(&rt, |input, table, listing| {
        listing.len = report::respond(input, table, &mut listing.items);
    })
}
