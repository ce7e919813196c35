// What the file layer answers of a file, in one line.
use case_lines::label;
use std::io;

// Reads the label of the line.
pub fn answers(rt: &(impl Input + Print), file: &[u8]) -> io::Result<()> {
    label(rt)?;
    match study::refusal(file) {
        0 => print!(rt; ": accepted")?,
        refusal => print!(rt; ": refused {refusal}")?,
    }
    let n = study::node_count(file);
    let m = study::link_count(file);
    let p = study::destination_count(file);
    print!(rt; ", n {n}, m {m}, p {p}")?;
    sections(rt, file)?;
    println!(rt; "")
}

fn sections(rt: &impl Print, file: &[u8]) -> io::Result<()> {
    section(rt, "links", study::links(file))?;
    section(rt, "destinations", study::destinations(file))?;
    section(rt, "trips", study::trips(file))?;
    section(rt, "closed", study::closed(file))?;
    section(rt, "lorry trips", study::lorry_trips(file))?;
    section(rt, "barred", study::barred(file))
}

// A section's length, and its first and last byte if it has any.
fn section(rt: &impl Print, name: &str, bytes: &[u8]) -> io::Result<()> {
    print!(rt; ", {name} {} bytes", bytes.len())?;
    if let (Some(first), Some(last)) = (bytes.first(), bytes.last()) {
        print!(rt; " (first {first}, last {last})")?;
    }
    Ok(())
}
