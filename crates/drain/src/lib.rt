// Drain: deliveries to a site until a pass delivers nothing, with a budget of tries.
#![tactic(auto)]

ghost use Rattle.std.specs.Prelude.{◌≡◌, ◌≤◌, ◌<◌, ◌+◌};
ghost use Rattle.layout.specs.State.{state_of};
ghost use Rattle.rules.specs.Drain.{skip, turn, drain};
ghost use Rattle.rules.specs.Calls.{Drain};
ghost use Rattle.answers.specs.Answers.{numbers_of, served, PromiseBy};
ghost use Rattle.drain.specs.Turns.{turn_of, Drains};

use answers::{Answer, Done, Refusal, Unserved};
use layout::Bytes;
use refusals::inside;
use rows::by_value::EngineValue;

// Where a try is due, in a pass that has delivered or not.
#[derive(Clone, Copy)]
pub struct Turn {
    pub origin: usize,
    pub delivered: bool,
}

// Leaving out s.
fn skip(s: usize, o: usize) -> usize
    requires { o ≤ 8 }
    ensures { result ≡ skip s o }
{
    if o == s { o + 1 } else { o }
}

// From origin o on: the next origin of this pass, else the first of a new one if this one delivered.
fn next_turn(n: usize, s: usize, o: usize, delivered: bool) -> Option<Turn>
    requires { o ≤ 8 }
    ensures { turn_of result ≡ turn n s o delivered }
{
    let here = skip(s, o);
    if here < n {
        return Some(Turn {
            origin: here,
            delivered,
        });
    }
    let first = skip(s, 0);
    if delivered && first < n {
        return Some(Turn {
            origin: first,
            delivered: false,
        });
    }
    None
}

// The tries made are counted one for each delivery attempted; when one is due and the budget is spent it stops.
fn passes<E: EngineValue>(t: &mut Bytes, n: usize, s: usize, budget: u16, engine: E) -> Answer
    requires { Drains (state_of t.old) n s }
    ensures { (numbers_of result ≡ (drain (E.engine engine) (state_of t.old) s budget).answer) × (state_of t.new ≡ (drain (E.engine engine) (state_of t.old) s budget).after) }
{
    let mut turn = next_turn(n, s, 0, false);
    let mut deliveries: u16 = 0;
    let mut tries: u16 = 0;
    while let Some(Turn { origin, delivered }) = turn {
        if tries == budget {
            return Err(Unserved::Stopped { deliveries, tries });
        }
        tries += 1;
        turn = if deliver::attempt(t, s, origin, engine).is_ok() {
            deliveries += 1;
            Some(Turn {
                origin,
                delivered: true,
            })
        } else {
            next_turn(n, s, origin + 1, delivered)
        };
    }
    Ok(Done::Drain { deliveries, tries })
}

pub fn drain<E: EngineValue>(t: &mut [u8], s: usize, budget: u16, engine: E) -> Answer
    ensures { PromiseBy (E.engine engine) t.old (Drain s budget) (served result t.new) }
{
    let t = t.as_mut_array().ok_or(Refusal::Size)?;
    let counts = inside::site_refusal(t, s)?;
    passes(t, counts.sites, s, budget, engine)
}
