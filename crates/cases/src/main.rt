// Document 01's cases that are not starred, and case 13. Each answer is a line: the case, then the answer's five numbers.
#![tactic(auto)]

use answers::{Answer, Engine};
use layout::Table;
use rows::Ranked;
use schedule::Schedule;
use std::io;
use std::io::Write;

#[cfg(test)]
mod tests;

fn say(rt: HostRuntime, case: u32, a: Answer) -> io::Result<()> {
    let mut text = [0u8; Schedule::LINE];
    let end = schedule::write_answer(&mut text, case, a);
    rt.stdout().write_all(&text[..end])
}

// A call that leads up to a case's own.
fn served(a: Answer) -> io::Result<()> {
    a.map(|_| ()).map_err(|_| io::Error::other("a call that leads up to a case is not served"))
}

// 2: (8, 64) is accepted; (0, 1), (9, 1) and (1, 65) answer 3.
fn counts(rt: HostRuntime, t: &mut [u8]) -> io::Result<()> {
    say(rt, 2, table::open(t, 8, 64))?;
    say(rt, 2, table::open(t, 0, 1))?;
    say(rt, 2, table::open(t, 9, 1))?;
    say(rt, 2, table::open(t, 1, 65))
}

// 8: with one site, 17 puts in a row are accepted.
fn alone(rt: HostRuntime, t: &mut [u8]) -> io::Result<()> {
    served(table::open(t, 1, 2))?;
    for _ in 0..17 {
        say(rt, 8, table::put(t, 0, 0, 5, Ranked))?;
    }
    Ok(())
}

// 13: 0 puts 5 and 1 puts 6 on one key, each delivered to the other; then what each holds. With ranks it is 6 at both,
// with short lists still the one delivered last.
fn winner(rt: HostRuntime, t: &mut [u8], engine: Engine) -> io::Result<()> {
    served(table::open(t, 2, 2))?;
    served(table::put(t, 0, 0, 5, engine))?;
    served(table::put(t, 1, 0, 6, engine))?;
    served(deliver::deliver(t, 0, 1, engine))?;
    served(deliver::deliver(t, 1, 0, engine))?;
    say(rt, 13, look::look(t, 0, 0))?;
    say(rt, 13, look::look(t, 1, 0))
}

// 14: step 6 of the schedule with a budget.
fn budget(rt: HostRuntime, t: &mut [u8], b: u16) -> io::Result<()> {
    served(table::open(t, 3, 4))?;
    served(table::put(t, 0, 1, 7, Ranked))?;
    served(deliver::deliver(t, 1, 0, Ranked))?;
    served(table::get(t, 1, 1, Ranked))?;
    served(table::put(t, 1, 2, 9, Ranked))?;
    // Step 5 is refused with 10.
    let _ = deliver::deliver(t, 2, 1, Ranked);
    say(rt, 14, drain::drain(t, 2, b, Ranked))
}

// 16: a buffer or a table that the calls do not take.
fn calls(rt: HostRuntime, t: &mut [u8]) -> io::Result<()> {
    say(rt, 16, table::put(t, 0, 0, 5, Ranked))?;
    say(rt, 16, table::get(t, 0, 0, Ranked))?;
    say(rt, 16, deliver::deliver(t, 1, 0, Ranked))?;
    say(rt, 16, drain::drain(t, 0, 903, Ranked))
}

fn main(rt: HostRuntime) -> io::Result<()> {
    let mut t = [0u8; Table::BYTES];
    counts(rt, &mut t)?;
    alone(rt, &mut t)?;
    winner(rt, &mut t, Engine::Ranked)?;
    winner(rt, &mut t, Engine::Short)?;
    budget(rt, &mut t, 5)?;
    budget(rt, &mut t, 6)?;
    // 15,619 bytes answers 1
    let mut short = [0u8; Table::BYTES - 1];
    say(rt, 16, table::open(&mut short, 2, 2))?;
    calls(rt, &mut short)?;
    // byte 0 set to 9 answers 2
    served(table::open(&mut t, 2, 2))?;
    t[0] = 9;
    calls(rt, &mut t)
}
