// Document 02, A.1, the program `page`: it reads what `assign` reads, and prints the page of the table that the run judged last.
#![tactic(auto)]

use std::io;

fn main(rt: HostRuntime) -> io::Result<()> {
    streams::run(&rt, |input, table, page| {
        page.len = report::respond_page(input, table, &mut page.items);
    })
}
