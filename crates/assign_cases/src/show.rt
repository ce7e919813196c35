// A heading and the response to an input.
ghost use Rattle.std.specs.Prelude.{◌≡◌, length, OnErr};

use case_lines::{Response, label, number_within};
use std::io;

// Which program responds.
#[derive(Clone, Copy)]
pub enum Program {
    Assign,
    Page,
}

// Reads how much of the input counts, and the label.
pub fn show(
    rt: &(impl Input + Print),
    program: Program,
    input: &[u8],
    table: &mut [u32],
) -> io::Result<()>
    ensures { OnErr result (length table.new ≡ length table.old) }
{
    let size = number_within(rt, input.len())?;
    label(rt)?;
    println!(rt; "")?;
    let input = &input[..size];
    let mut response = Response::new(0);
    response.len = match program {
        Program::Assign => report::respond(input, table, &mut response.items),
        Program::Page => report::respond_page(input, table, &mut response.items),
    };
    rt.write_all(response.as_slice())
}
