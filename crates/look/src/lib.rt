// A get in two: look, and adopt of what was seen.
#![tactic(auto)]

ghost use Rattle.std.specs.Prelude.{◌≡◌, ◌<◌};
ghost use Rattle.layout.specs.State.{state_of};
ghost use Rattle.rules.specs.Refusals.{first};
ghost use Rattle.rules.specs.Calls.{Look, Adopt, refusals};
ghost use Rattle.answers.specs.Answers.{asked, served, Promise, PromiseBy};
ghost use Rattle.look.specs.Asked.{entry_in, named_in};

use answers::{Answer, Done, Refusal};
use layout::{Bytes, Entries};
use refusals::inside;
use rows::by_value::EngineValue;
use sound::Counts;

pub fn look(t: &[u8], s: usize, x: usize) -> Answer
    ensures { Promise t.now (Look s x) (served result t.now) }
{
    let t = t.as_array().ok_or(Refusal::Size)?;
    inside::get_refusal(t, s, x)?;
    let seen = layout::record_at::<Entries>(t, s, x);
    Ok(Done::Call {
        key: x as u8,
        site: seen.tag,
        clock: seen.clock,
        value: seen.value,
    })
}

// 15: the entry has another origin or clock. Both are compared as they came, so that none is cut.
fn entry_refusal(t: &Bytes, s: usize, x: usize, o: usize, c: usize) -> Result<(), Refusal>
    requires { (s < 8) × (x < 64) }
    ensures { asked result ≡ first (entry_in ((state_of t.now).store s x) o c) }
{
    let e = layout::record_at::<Entries>(t, s, x);
    if usize::from(e.tag) != o || usize::from(e.clock) != c {
        return Err(Refusal::Changed);
    }
    Ok(())
}

// 4 of the site or the named origin, 16 of the site, 6, then 15.
fn named_refusal(
    t: &Bytes,
    counts: Counts,
    s: usize,
    x: usize,
    o: usize,
    c: usize,
) -> Result<(), Refusal>
    ensures { asked result ≡ first (named_in (state_of t.now) counts.sites counts.keys s x o c) }
{
    if counts.sites <= o {
        return Err(Refusal::Site);
    }
    refusals::names_refusal(t, counts, s, x)?;
    entry_refusal(t, s, x, o, c)
}

fn adopt_refusal(t: &Bytes, s: usize, x: usize, o: usize, c: usize) -> Result<(), Refusal>
    ensures { asked result ≡ first (refusals (state_of t.now) (Adopt s x o c)) }
{
    let counts = inside::table_refusal(t)?;
    named_refusal(t, counts, s, x, o, c)
}

// Of an entry that is as named: its step is get's, and so is its answer.
pub fn adopt<E: EngineValue>(
    t: &mut [u8],
    s: usize,
    x: usize,
    o: usize,
    c: usize,
    engine: E,
) -> Answer
    ensures { PromiseBy (E.engine engine) t.old (Adopt s x o c) (served result t.new) }
{
    let t = t.as_mut_array().ok_or(Refusal::Size)?;
    adopt_refusal(t, s, x, o, c)?;
    let e = table::get_step(t, s, x, engine);
    Ok(Done::Call {
        key: x as u8,
        site: e.tag,
        clock: e.clock,
        value: e.value,
    })
}
