// The fields of a study of two links, one destination and two nodes.
ghost use Rattle.study.specs.Fields.{HasLink};

use std::io;

pub fn all(rt: &impl Print, file: &[u8]) -> io::Result<()> {
    for number in 0..2 {
        link(rt, file, number)?;
    }
    destination(rt, file, 0)?;
    for node in 0..2 {
        trips(rt, file, 0, node)?;
    }
    for number in 0..2 {
        marks(rt, file, number)?;
    }
    Ok(())
}

// Where the counts say that a link, a destination or an entry is there, its bytes are.
fn link(rt: &impl Print, file: &[u8], number: usize) -> io::Result<()> {
    if study::refusal(file) != 0 {
        return Ok(());
    }
    if number < study::link_count(file) {
        link_fields(rt, study::links(file), study::link_size(file), number)?;
    }
    Ok(())
}

fn link_fields(rt: &impl Print, links: &[u8], size: usize, number: usize) -> io::Result<()>
    requires { HasLink links.now size number }
{
    let tail = study::tail(links, size, number);
    let head = study::head(links, size, number);
    let free_time = study::free_time(links, size, number);
    let rise = study::rise(links, size, number);
    let capacity = study::capacity(links, size, number);
    let power = study::power(links, size, number);
    print!(rt; "link {number}: tail {tail}, head {head}, free time {free_time}")?;
    println!(rt; ", rise {rise}, capacity {capacity}, power {power}")
}

fn destination(rt: &impl Print, file: &[u8], k: usize) -> io::Result<()> {
    if k < study::destination_count(file) {
        let node = study::destination(study::destinations(file), k);
        println!(rt; "destination {k}: node {node}")?;
    }
    Ok(())
}

fn trips(rt: &impl Print, file: &[u8], k: usize, node: usize) -> io::Result<()> {
    let n = study::node_count(file);
    if node < n {
        if k < study::destination_count(file) {
            let trips = study::trips_from(study::trips(file), n, k, node);
            println!(rt; "trips from node {node} to destination {k}: {trips}")?;
        }
    }
    Ok(())
}

// Where a version has no closed or barred bytes, 0 is read of every node and of every link.
fn marks(rt: &impl Print, file: &[u8], number: usize) -> io::Result<()> {
    if number < study::node_count(file) {
        let byte = study::mark_byte(study::closed(file), number);
        println!(rt; "closed byte of node {number}: {byte}")?;
    }
    if number < study::link_count(file) {
        let byte = study::mark_byte(study::barred(file), number);
        println!(rt; "barred byte of link {number}: {byte}")?;
    }
    Ok(())
}
