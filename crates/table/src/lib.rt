// Open, put and get over a lent buffer of any length.
#![tactic(auto)]

ghost use Rattle.std.specs.Prelude.{◌≡◌};
ghost use Rattle.layout.specs.State.{state_of};
ghost use Rattle.layout.specs.Records.{entry_of};
ghost use Rattle.rules.specs.Steps.{next, put, learn};
ghost use Rattle.rules.specs.Calls.{Open, Put, Get};
ghost use Rattle.answers.specs.Answers.{served, Promise, PromiseBy};
ghost use Rattle.rows.specs.Rows.{GetFits};
ghost use Rattle.table.specs.Fits.{PutFits};

use answers::{Answer, Done, Refusal};
use layout::{Applied, Bytes, Entries, Record};
use refusals::inside;
use rows::by_value::EngineValue;
use sound::Counts;

// The update at its place, the entry, the applied count and the row, which has taken on what is overwritten.
pub fn put_step<E: EngineValue>(t: &mut Bytes, s: usize, x: usize, v: u32, engine: E) -> u16
    requires { PutFits (E.engine engine) (state_of t.old) s x }
    ensures clock { result ≡ next (state_of t.old) s s }
    ensures after { state_of t.new ≡ (put (E.engine engine) (state_of t.old) s x v).after }
{
    let c = rows::after(layout::at::<Applied>(t, s, s));
    rows::send(t, s, x, v, c);
    rows::store_own(t, s, x, v, c, engine);
    layout::set::<Applied>(t, s, s, c);
    rows::leave_row(t, s, c, engine);
    c
}

pub fn put<E: EngineValue>(t: &mut [u8], s: usize, x: usize, v: u32, engine: E) -> Answer
    ensures { PromiseBy (E.engine engine) t.old (Put s x v) (served result t.new) }
{
    let t = t.as_mut_array().ok_or(Refusal::Size)?;
    inside::put_refusal(t, s, x)?;
    rows::learn_old(t, s, x, engine);
    let c = put_step(t, s, x, v, engine);
    Ok(Done::Call {
        key: x as u8,
        site: s as u8,
        clock: c,
        value: v,
    })
}

// The entry; if its clock is not 0, the dependency row takes it on.
pub fn get_step<E: EngineValue>(t: &mut Bytes, s: usize, x: usize, engine: E) -> Record
    requires { GetFits (state_of t.old) s x }
    ensures entry { entry_of result ≡ (state_of t.old).store s x }
    ensures after { state_of t.new ≡ learn (E.engine engine) (state_of t.old) s x }
{
    let e = layout::record_at::<Entries>(t, s, x);
    if e.clock == 0 {
        return e;
    }
    rows::learn_row(t, s, e, engine);
    e
}

pub fn get<E: EngineValue>(t: &mut [u8], s: usize, x: usize, engine: E) -> Answer
    ensures { PromiseBy (E.engine engine) t.old (Get s x) (served result t.new) }
{
    let t = t.as_mut_array().ok_or(Refusal::Size)?;
    inside::get_refusal(t, s, x)?;
    let e = get_step(t, s, x, engine);
    Ok(Done::Call {
        key: x as u8,
        site: e.tag,
        clock: e.clock,
        value: e.value,
    })
}

pub fn open(t: &mut [u8], n: usize, k: usize) -> Answer
    ensures { Promise t.old (Open n k) (served result t.new) }
{
    let t = t.as_mut_array().ok_or(Refusal::Size)?;
    let counts = Counts::new(n, k).ok_or(Refusal::Counts)?;
    layout::clear(t);
    layout::set_counts(t, counts.sites as u8, counts.keys as u8);
    Ok(Done::Call {
        key: 0,
        site: 0,
        clock: 0,
        value: 0,
    })
}
