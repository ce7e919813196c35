// Document 01, 'The questions, in order': questions 6 to 10, one function each, and 19 and 23 of document 02. Question 11 is the reach search.
ghost use Rattle.std.specs.Prelude.{◌*◌, ◌≤◌, ◌&&◌, not, true, [], ◌≡◌, eqb, leb, ltb, length, get_or};
ghost use Rattle.study.specs.Questions.{within as withinOf};
ghost use Rattle.theory.specs.Finite.{sum};
ghost use Rattle.theory.specs.Study.{AllFourth, network};
ghost use Rattle.calls.specs.Questions.{ends_fit, times_fit, destinations_fit, marks_fit, no_trips_within};
ghost use Rattle.questions.specs.Fields.{roads_fit, powers_fit};
ghost use Rattle.questions.specs.Sized.{ToNodes};
ghost use Rattle.questions.specs.Destinations.{all_nodes, all_ascending};

use crate::numbers::{amount, node};
use theory::{ACCESS_POWER, CAPACITY, FREE_TIME, HEAD, RISE, TAIL};

// 6. Are each link's tail and head below n and different?
pub fn ends_fit(nodes: usize, links: &[[u16; 6]]) -> bool
    ensures { result ≡ ends_fit (network nodes links.now [] []) }
{
    let mut l = 0;
    while l < links.len() {
        if !link_ends_fit(nodes, node(links[l][TAIL]), node(links[l][HEAD])) {
            return false;
        }
        l += 1;
    }
    true
}

fn link_ends_fit(n: usize, tail: usize, head: usize) -> bool
    ensures { result ≡ (ltb tail n && ltb head n && not (eqb tail head)) }
{
    tail < n && head < n && tail != head
}

// 7. Are a 1 to 16,383, b 0 to 16,383, c at least 1 and q 1 to 4 on every link? `all_fourth` may be true where every power is 4: none is then
// looked at.
pub fn times_fit(links: &[[u16; 6]], all_fourth: bool) -> bool
    requires { all_fourth ≡ true → AllFourth links.now }
    ensures { result ≡ times_fit links.now }
{
    if !roads_fit(links) {
        return false;
    }
    if all_fourth {
        return true;
    }
    powers_fit(links)
}

// Question 7 of the powers.
fn powers_fit(links: &[[u16; 6]]) -> bool
    ensures { result ≡ powers_fit links.now }
{
    let mut l = 0;
    while l < links.len() {
        if !within(1, 4, links[l][ACCESS_POWER] / 256) {
            return false;
        }
        l += 1;
    }
    true
}

// Question 7 of the other fields.
fn roads_fit(links: &[[u16; 6]]) -> bool
    ensures { result ≡ roads_fit links.now }
{
    let mut l = 0;
    while l < links.len() {
        if !road_fits(links[l][FREE_TIME], links[l][RISE], links[l][CAPACITY]) {
            return false;
        }
        l += 1;
    }
    true
}

fn road_fits(free_time: u16, rise: u16, capacity: u16) -> bool
    ensures { result ≡ (withinOf 1 16383 free_time && withinOf 0 16383 rise && leb 1 capacity) }
{
    let a = within(1, 16383, free_time);
    let b = within(0, 16383, rise);
    a && b && 1 <= capacity
}

fn within(least: u16, most: u16, x: u16) -> bool
    ensures { result ≡ withinOf least most x }
{
    least <= x && x <= most
}

// 8. Are the destinations below n and strictly ascending?
pub fn destinations_fit(nodes: usize, destinations: &[u16]) -> bool
    ensures { result ≡ destinations_fit nodes destinations.now }
{
    if !destinations_are_nodes(nodes, destinations) {
        return false;
    }
    destinations_ascend(destinations)
}

fn destinations_are_nodes(nodes: usize, destinations: &[u16]) -> bool
    ensures { result ≡ all_nodes nodes destinations.now }
{
    let mut k = 0;
    while k < destinations.len() {
        if nodes <= node(destinations[k]) {
            return false;
        }
        k += 1;
    }
    true
}

fn destinations_ascend(destinations: &[u16]) -> bool
    ensures { result ≡ all_ascending destinations.now }
{
    let mut k = 0;
    while k + 1 < destinations.len() {
        if destinations[k + 1] <= destinations[k] {
            return false;
        }
        k += 1;
    }
    true
}

// 19 (A.2). Is every closed byte 0 or 1? 23 (A.7). Is every barred byte?
pub fn marks_fit(bytes: &[u8]) -> bool
    ensures { result ≡ marks_fit bytes.now }
{
    let mut i = 0;
    while i < bytes.len() {
        if 1 < bytes[i] {
            return false;
        }
        i += 1;
    }
    true
}

// 9. Is D(s,s) zero for every destination, of cars and of lorries?
pub fn no_trips_within(nodes: usize, commodities: &[u16], trips: &[u16]) -> bool
    requires trips_len { length trips.now ≡ length commodities.now * nodes }
    requires to_nodes { ToNodes nodes commodities.now }
    ensures { result ≡ no_trips_within (network nodes [] commodities.now trips.now) }
{
    let mut k = 0;
    while k < commodities.len() {
        let s = theory::node_of(commodities[k]);
        if trips[k * nodes + s] != 0 {
            return false;
        }
        k += 1;
    }
    true
}

// T of document 01: the sum of the trips of all nodes to all destinations, of cars and of lorries. It is added up in 32 bits: the compiler
// adds more of these at once than of 64.
pub fn total_trips(trips: &[u16]) -> u64
    requires { length trips.now ≤ 8192 }
    ensures { result ≡ sum (length trips.now) (λ i. get_or trips.now i 0) }
{
    let mut total: u32 = 0;
    let mut i = 0;
    while i < trips.len() {
        total += amount(trips[i]);
        i += 1;
    }
    total as u64
}

// 10. Is the total of trips, T, at most 65,535?
pub fn total_fits(trips: &[u16]) -> bool
    requires { length trips.now ≤ 8192 }
    ensures { result ≡ leb (sum (length trips.now) (λ i. get_or trips.now i 0)) 65535 }
{
    total_trips(trips) <= 65535
}
