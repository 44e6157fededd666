// Deliver over a lent buffer of any length, and one delivery attempted, as drain does it.
#![tactic(auto)]

ghost use Rattle.std.specs.Prelude.{◌≡◌, ◌<◌};
ghost use Rattle.clock.specs.Clock.{columns, compare};
ghost use Rattle.layout.specs.State.{state_of};
ghost use Rattle.rules.specs.Steps.{deliver};
ghost use Rattle.rules.specs.Drain.{try};
ghost use Rattle.rules.specs.Calls.{Deliver};
ghost use Rattle.answers.specs.Answers.{numbers_of, served, PromiseBy};
ghost use Rattle.refusals.specs.Asked.{Attempts};
ghost use Rattle.deliver.specs.Fits.{DeliverFits};

use answers::{Answer, Done, Refusal};
use clock::{Beyond, Clock};
use layout::{Applied, Bytes, Record, Table, Updates};
use refusals::inside;
use rows::by_value::EngineValue;

// The entry of the update's key at s, if it is replaced, and the applied count.
fn deliver_step<E: EngineValue>(t: &mut Bytes, s: usize, o: usize, u: Record, c: u16, engine: E)
    requires { DeliverFits (state_of t.old) s o u c }
    ensures { state_of t.new ≡ (deliver (E.engine engine) (state_of t.old) s o).after }
{
    rows::replace(t, s, o, u, c, engine);
    layout::set::<Applied>(t, s, o, c);
}

// The causes of an update, held against the applied row. The remainder, which is s itself, tells the compiler that s + 1 is
// above it: with s it keeps the square twice. Inlined too, or it takes 140 bytes more of stack.
#[inline(always)]
fn causes(t: &Bytes, s: usize, u: Record) -> Result<(), Beyond>
    requires { s < 8 }
    ensures { result ≡ compare (columns u.depends) ((state_of t.now).applied s) }
{
    let site = s % Table::SITES;
    let a = layout::rows::<Applied>(t, site, site + 1);
    u.depends.compare(Clock { col: a[site] })
}

// One delivery attempted, on a sound table and two of its sites, the receiver live: what is left to ask is 9 and 10.
pub fn attempt<E: EngineValue>(t: &mut Bytes, s: usize, o: usize, engine: E) -> Answer
    requires { Attempts (state_of t.old) s o }
    ensures { (numbers_of result ≡ (try (E.engine engine) (state_of t.old) s o).answer) × (state_of t.new ≡ (try (E.engine engine) (state_of t.old) s o).after) }
{
    let here = layout::at::<Applied>(t, s, o);
    if here == layout::at::<Applied>(t, o, o) {
        return Err(Refusal::NoNext.into());
    }
    let u = layout::record_at::<Updates>(t, o, usize::from(here) % Table::PLACES);
    causes(t, s, u)?;
    let c = rows::after(here);
    deliver_step(t, s, o, u, c, engine);
    Ok(Done::Call {
        key: u.tag,
        site: o as u8,
        clock: c,
        value: u.value,
    })
}

pub fn deliver<E: EngineValue>(t: &mut [u8], s: usize, o: usize, engine: E) -> Answer
    ensures { PromiseBy (E.engine engine) t.old (Deliver s o) (served result t.new) }
{
    let t = t.as_mut_array().ok_or(Refusal::Size)?;
    inside::deliver_refusal(t, s, o)?;
    attempt(t, s, o, engine)
}
