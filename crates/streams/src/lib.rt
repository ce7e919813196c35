// What the programs read and print, in memory of fixed size.
#![tactic(auto)]

ghost use Rattle.std.specs.Prelude.{◌≡◌, ◌≤◌, length, IfOk, OnErr, replicate, take};

use std::io;
use std::io::Read;

// Memory of N items, of which the first are in use.
#[derive(Drop)]
pub struct Buffer<T, const N: usize> {
    pub items: [T; N],
    pub len: usize,
    pub ghost within: { len ≤ N },
}

impl<T: Copy, const N: usize> Buffer<T, N> {
    // No item is in use, and each is `item`.
    pub fn new(item: T) -> Self
        ensures none_used { result.len ≡ 0 }
        ensures all_alike { result.items ≡ replicate N item }
    {
        Buffer {
            items: [item; N],
            len: 0,
        }
    }

    pub fn as_slice(&self) -> &[T]
        ensures { result.now ≡ take self.now.len self.now.items }
    {
        &self.items[..self.len]
    }

    pub fn as_mut_slice(&mut self) -> &mut [T]
        ensures { result.now ≡ take self.old.len self.old.items }
    {
        let len = self.len;
        let items = &mut self.items;
        &mut items[..len]
    }
}

// What `assign` or `page` prints: the memory holds any listing and any page.
pub type Response = Buffer<u8, 32768>;

// Reads the whole input of `assign` or `page`, and prints the response to it. One byte more is read than the
// longest input that holds a study, so that a longer one is refused, however long it is. The table has 2·p·m
// numbers for the largest p and m.
pub fn run<F: FnOnce(&[u8], &mut [u32], &mut Response)>(
    rt: &(impl Input + Print),
    respond: F,
) -> io::Result<()>
    requires { F.IsAlwaysCallable respond }
{
    let mut input = [0u8; 65541];
    let mut table = [0u32; 32768];
    let mut response = Response::new(0);
    let size = read_full(rt, &mut input)?;
    respond(&input[..size], &mut table, &mut response);
    rt.write_all(response.as_slice())
}

// Reads until `bytes` is full or the input ends, and answers how many bytes it put at the start.
pub fn read_full(rt: &impl Input, bytes: &mut [u8]) -> io::Result<usize>
    ensures ok { IfOk result (λ size. size ≤ length bytes.old) }
    ensures err { OnErr result (length bytes.new ≡ length bytes.old) }
{
    let mut input = rt.reader();
    let mut done = 0;
    // No `for`: a read puts any number of bytes.
    while done < bytes.len() {
        let size = input.read(&mut bytes[done..])?;
        if size == 0 {
            break;
        }
        done += size;
    }
    Ok(done)
}
