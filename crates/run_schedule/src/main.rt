// Reads a schedule on standard input and prints its listing.
#![tactic(auto)]

ghost use Rattle.std.specs.Prelude.{◌≤◌, IfOk, length};

use schedule::Schedule;
use std::io;
use std::io::{Read, Write};

// Reads until the room is full or the input ends, and answers how many bytes it put at the start.
// A short input is an error to `read_exact`, and `read_to_end` takes a heap.
fn read_full<R: Read>(input: &mut R, room: &mut [u8]) -> io::Result<usize>
    ensures { IfOk result (λ n. n ≤ length room.new) }
{
    let mut done = 0;
    while done < room.len() {
        match input.read(&mut room[done..])? {
            0 => break,
            n => done += n,
        }
    }
    Ok(done)
}

// Apart from `main`, or the room for the listing is filled with zeros once more before the input is read.
fn print_listing(rt: HostRuntime, input: &[u8]) -> io::Result<()> {
    let mut out: [u8; Schedule::LISTING] = schedule::room();
    let end = schedule::write_listing(input, &mut out);
    rt.stdout().write_all(&out[..end])
}

fn main(rt: HostRuntime) -> io::Result<()> {
    let mut input: [u8; Schedule::INPUT] = schedule::room();
    let n = read_full(&mut rt.stdin(), &mut input)?;
    print_listing(rt, &input[..n])
}
