// An engine as a call is given it: a value.
ghost use Rattle.std.specs.Prelude.{◌≡◌, ◌<◌};
ghost use Rattle.clock.specs.Clock.{columns};
ghost use Rattle.layout.specs.State.{state_of};
ghost use Rattle.layout.specs.Records.{entry_of, update_of};
ghost use Rattle.rules.specs.Engine as rules;
ghost use Rattle.laws.specs.Taken.{Takes};
ghost use Rattle.rows.specs.Rows.{Row, GetFits};

use crate::Engine;
use clock::Clock;
use layout::{Bytes, Record};
use std::marker::PhantomData;

// A value of a type that is an engine, or one that chooses.
pub trait EngineValue: Copy {
    // The engine of the rules that it is.
    ghost engine: { Self → rules.Engine };

    // What a get makes of the row.
    fn learn_row(self, t: &mut Bytes, s: usize, e: Record)
        requires { (s < 8) × (e.tag < 8) }
        ensures { Row (state_of t.old) s ((engine self).learned ((state_of t.old).depends s) (entry_of e)) (state_of t.new) };

    // What a put makes of it first.
    fn learn_old(self, t: &mut Bytes, s: usize, x: usize)
        requires { GetFits (state_of t.old) s x }
        ensures { Row (state_of t.old) s ((engine self).sent ((state_of t.old).depends s) ((state_of t.old).store s x)) (state_of t.new) };

    // With what an own put is stored.
    fn own(self, t: &Bytes, s: usize) -> Clock
        requires { s < 8 }
        ensures { columns result ≡ (engine self).own ((state_of t.now).depends s) };

    // The row after the put (s, c).
    fn leave_row(self, t: &mut Bytes, s: usize, c: u16)
        requires { s < 8 }
        ensures { Row (state_of t.old) s ((engine self).left ((state_of t.old).depends s) s c) (state_of t.new) };

    // Whether the update replaces the entry of x at s.
    fn replaces(self, t: &Bytes, s: usize, x: usize, u: Record, o: usize) -> bool
        requires { (s < 8) × (x < 64) }
        ensures { result ≡ (engine self).replaces (update_of u) o ((state_of t.now).store s x) };

    ghost takes: { (e : Self) → Takes (engine e) };
}

// Stands for a value where the engine is a type alone.
#[derive_where(Clone, Copy)]
pub struct ByType<E>(pub PhantomData<E>);

impl<E: Engine> EngineValue for ByType<E> {
    ghost engine = { λ _. E.engine };

    ghost takes = { λ _. E.takes };

    fn learn_row(self, t: &mut Bytes, s: usize, e: Record) {
        E::learn_row(t, s, e);
    }

    fn learn_old(self, t: &mut Bytes, s: usize, x: usize) {
        E::learn_old(t, s, x);
    }

    fn own(self, t: &Bytes, s: usize) -> Clock {
        E::own(t, s)
    }

    fn leave_row(self, t: &mut Bytes, s: usize, c: u16) {
        E::leave_row(t, s, c);
    }

    fn replaces(self, t: &Bytes, s: usize, x: usize, u: Record, o: usize) -> bool {
        E::replaces(t, s, x, u, o)
    }
}
