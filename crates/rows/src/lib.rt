// The dependency row of a site, and where the engines differ: what a get and a put make of it, with what a put is
// stored, and which deliveries replace an entry.
#![tactic(auto)]

ghost use Rattle.std.specs.Prelude.{◌≡◌, ◌+◌, ◌≤◌, ◌<◌};
ghost use Rattle.clock.specs.Vector.{join, note};
ghost use Rattle.clock.specs.Clock.{columns};
ghost use Rattle.layout.specs.State.{state_of, last_clock};
ghost use Rattle.layout.specs.Records.{entry_of, update_of};
ghost use Rattle.rules.specs.Engine as rules;
ghost use Rattle.rules.specs.Engine.{taken_on, outranks};
ghost use Rattle.laws.specs.Taken.{Takes};
ghost use Rattle.laws.proofs.Taken.{ranked_takes, short_takes};
ghost use Rattle.answers.specs.Answers.{engine_of};
ghost use Rattle.answers.proofs.Chosen.{engine_takes};
ghost use Rattle.rows.specs.Rows.{Row, Sent, Stored, Replaced, GetFits};

use clock::Clock;
use layout::{Bytes, Depends, Entries, Record, Table, Updates};

pub mod by_value;

use by_value::EngineValue;

// The row of s, which is its own remainder: by that the compiler knows that s + 1 is above it, and keeps one square and not
// two.
fn row(t: &Bytes, s: usize) -> Clock
    requires { s < 8 }
    ensures { columns result ≡ (state_of t.now).depends s }
{
    let site = s % Table::SITES;
    let d = layout::rows::<Depends>(t, site, site + 1);
    Clock { col: d[site] }
}

// The pair (o, c) joins the row of s.
fn note(t: &mut Bytes, s: usize, o: usize, c: u16)
    requires { (s < 8) × (o < 8) }
    ensures { Row (state_of t.old) s (note ((state_of t.old).depends s) o c) (state_of t.new) }
{
    let seen = layout::at::<Depends>(t, s, o);
    layout::set::<Depends>(t, s, o, seen.max(c));
}

// The vector v joins the row of s.
fn join(t: &mut Bytes, s: usize, v: Clock)
    requires { s < 8 }
    ensures { Row (state_of t.old) s (join ((state_of t.old).depends s) (columns v)) (state_of t.new) }
{
    let joined = row(t, s).join(v);
    layout::set_row::<Depends>(t, s, joined);
}

// The row joined with the entry's vector and then with its pair.
fn take_on(t: &mut Bytes, s: usize, e: Record)
    requires { (s < 8) × (e.tag < 8) }
    ensures { Row (state_of t.old) s (taken_on ((state_of t.old).depends s) (entry_of e)) (state_of t.new) }
{
    let origin = usize::from(e.tag);
    join(t, s, e.depends);
    note(t, s, origin, e.clock);
}

// How a site keeps what it depends on, and whether puts are ranked by it.
pub trait Engine {
    // The engine of the rules that it is.
    ghost engine: { rules.Engine };

    // What a get makes of the row.
    fn learn_row(t: &mut Bytes, s: usize, e: Record)
        requires { (s < 8) × (e.tag < 8) }
        ensures { Row (state_of t.old) s (engine.learned ((state_of t.old).depends s) (entry_of e)) (state_of t.new) };

    // What a put makes of it first.
    fn learn_old(t: &mut Bytes, s: usize, x: usize)
        requires { GetFits (state_of t.old) s x }
        ensures { Row (state_of t.old) s (engine.sent ((state_of t.old).depends s) ((state_of t.old).store s x)) (state_of t.new) };

    // With what an own put is stored.
    fn own(t: &Bytes, s: usize) -> Clock
        requires { s < 8 }
        ensures { columns result ≡ engine.own ((state_of t.now).depends s) };

    // The row after the put (s, c).
    fn leave_row(t: &mut Bytes, s: usize, c: u16)
        requires { s < 8 }
        ensures { Row (state_of t.old) s (engine.left ((state_of t.old).depends s) s c) (state_of t.new) };

    // Whether the update replaces the entry of x at s.
    fn replaces(t: &Bytes, s: usize, x: usize, u: Record, o: usize) -> bool
        requires { (s < 8) × (x < 64) }
        ensures { result ≡ engine.replaces (update_of u) o ((state_of t.now).store s x) };

    ghost takes: { Takes engine };
}

// In full and ranked: a get takes the entry on, as does a put what it overwrites, and the higher rank replaces.
#[derive(Clone, Copy)]
pub struct Ranked;

impl EngineValue for Ranked {
    ghost engine = { λ _. rules.ranked };

    ghost takes = { λ _. ranked_takes };

    fn learn_row(self, t: &mut Bytes, s: usize, e: Record) {
        take_on(t, s, e);
    }

    fn learn_old(self, t: &mut Bytes, s: usize, x: usize) {
        let e = layout::record_at::<Entries>(t, s, x);
        if e.clock != 0 {
            take_on(t, s, e);
        }
    }

    // Its update's vector, the row again: read anew it is one copy of 16 bytes.
    fn own(self, t: &Bytes, s: usize) -> Clock {
        row(t, s)
    }

    fn leave_row(self, t: &mut Bytes, s: usize, c: u16) {
        note(t, s, s, c);
    }

    fn replaces(self, t: &Bytes, s: usize, x: usize, u: Record, o: usize) -> bool {
        outranks(u, o, layout::record_at::<Entries>(t, s, x))
    }
}

// As a short list: a get adds the pair of what it read, a put leaves its own alone, and every delivery replaces.
#[derive(Clone, Copy)]
pub struct Short;

impl EngineValue for Short {
    ghost engine = { λ _. rules.short };

    ghost takes = { λ _. short_takes };

    fn learn_row(self, t: &mut Bytes, s: usize, e: Record) {
        note(t, s, usize::from(e.tag), e.clock);
    }

    fn learn_old(self, _t: &mut Bytes, _s: usize, _x: usize) {}

    fn own(self, _t: &Bytes, _s: usize) -> Clock {
        Clock::zero()
    }

    fn leave_row(self, t: &mut Bytes, s: usize, c: u16) {
        layout::set_row::<Depends>(t, s, Clock::zero().note(s, c));
    }

    fn replaces(self, _t: &Bytes, _s: usize, _x: usize, _u: Record, _o: usize) -> bool {
        true
    }
}

// Both by their types alone. A type has no `self` to be given, so each method stands twice, here in a line.
impl Engine for Ranked {
    ghost engine = { rules.ranked };

    ghost takes = { ranked_takes };

    fn learn_row(t: &mut Bytes, s: usize, e: Record) {
        Ranked.learn_row(t, s, e);
    }

    fn learn_old(t: &mut Bytes, s: usize, x: usize) {
        Ranked.learn_old(t, s, x);
    }

    fn own(t: &Bytes, s: usize) -> Clock {
        Ranked.own(t, s)
    }

    fn leave_row(t: &mut Bytes, s: usize, c: u16) {
        Ranked.leave_row(t, s, c);
    }

    fn replaces(t: &Bytes, s: usize, x: usize, u: Record, o: usize) -> bool {
        Ranked.replaces(t, s, x, u, o)
    }
}

impl Engine for Short {
    ghost engine = { rules.short };

    ghost takes = { short_takes };

    fn learn_row(t: &mut Bytes, s: usize, e: Record) {
        Short.learn_row(t, s, e);
    }

    fn learn_old(t: &mut Bytes, s: usize, x: usize) {
        Short.learn_old(t, s, x);
    }

    fn own(t: &Bytes, s: usize) -> Clock {
        Short.own(t, s)
    }

    fn leave_row(t: &mut Bytes, s: usize, c: u16) {
        Short.leave_row(t, s, c);
    }

    fn replaces(t: &Bytes, s: usize, x: usize, u: Record, o: usize) -> bool {
        Short.replaces(t, s, x, u, o)
    }
}

// One of the two, by a value that a caller chooses as it runs: hence a match in each.
impl EngineValue for answers::Engine {
    ghost engine = { engine_of };

    ghost takes = { engine_takes };

    fn learn_row(self, t: &mut Bytes, s: usize, e: Record) {
        match self {
            answers::Engine::Ranked => Ranked.learn_row(t, s, e),
            answers::Engine::Short => Short.learn_row(t, s, e),
        }
    }

    fn learn_old(self, t: &mut Bytes, s: usize, x: usize) {
        match self {
            answers::Engine::Ranked => Ranked.learn_old(t, s, x),
            answers::Engine::Short => Short.learn_old(t, s, x),
        }
    }

    fn own(self, t: &Bytes, s: usize) -> Clock {
        match self {
            answers::Engine::Ranked => Ranked.own(t, s),
            answers::Engine::Short => Short.own(t, s),
        }
    }

    fn leave_row(self, t: &mut Bytes, s: usize, c: u16) {
        match self {
            answers::Engine::Ranked => Ranked.leave_row(t, s, c),
            answers::Engine::Short => Short.leave_row(t, s, c),
        }
    }

    fn replaces(self, t: &Bytes, s: usize, x: usize, u: Record, o: usize) -> bool {
        match self {
            answers::Engine::Ranked => Ranked.replaces(t, s, x, u, o),
            answers::Engine::Short => Short.replaces(t, s, x, u, o),
        }
    }
}

// What a get makes of the row: it takes on the entry, or its pair alone.
pub fn learn_row<E: EngineValue>(t: &mut Bytes, s: usize, e: Record, engine: E)
    requires { (s < 8) × (e.tag < 8) }
    ensures { Row (state_of t.old) s ((E.engine engine).learned ((state_of t.old).depends s) (entry_of e)) (state_of t.new) }
{
    engine.learn_row(t, s, e);
}

// A put first takes on the dependence of the entry it overwrites, as a get would; with short lists it does not.
pub fn learn_old<E: EngineValue>(t: &mut Bytes, s: usize, x: usize, engine: E)
    requires { GetFits (state_of t.old) s x }
    ensures { Row (state_of t.old) s ((E.engine engine).sent ((state_of t.old).depends s) ((state_of t.old).store s x)) (state_of t.new) }
{
    engine.learn_old(t, s, x);
}

// One more than a clock that is not the last.
pub fn after(c: u16) -> u16
    requires { c ≡ last_clock → ⊥ }
    ensures { result ≡ c + 1 }
{
    c + 1
}

// The update of the put (s, c) at its place, with the row of its site. Updates and entries stand on two shelves and have two
// promises, so each writes its record.
// Its numbers are those of Sent and Stored, in their order.
pub fn send(t: &mut Bytes, s: usize, x: usize, v: u32, c: u16)
    requires { (s < 8) × (x < 64) × (1 ≤ c) }
    ensures { Sent (state_of t.old) s x v c (state_of t.new) }
{
    let depends = row(t, s);
    layout::set_record::<Updates>(
        t,
        s,
        usize::from(c - 1) % Table::PLACES,
        Record {
            value: v,
            tag: x as u8,
            zero: 0,
            clock: c,
            depends,
        },
    );
}

// The entry of x at s becomes the put (o, c).
fn set_put(t: &mut Bytes, s: usize, x: usize, o: usize, v: u32, c: u16, depends: Clock)
    requires { (s < 8) × (x < 64) × (o < 8) }
    ensures { Stored (state_of t.old) s x o v c (columns depends) (state_of t.new) }
{
    layout::set_record::<Entries>(
        t,
        s,
        x,
        Record {
            value: v,
            tag: o as u8,
            zero: 0,
            clock: c,
            depends,
        },
    );
}

pub fn store_own<E: EngineValue>(t: &mut Bytes, s: usize, x: usize, v: u32, c: u16, engine: E)
    requires { (s < 8) × (x < 64) }
    ensures { Stored (state_of t.old) s x s v c ((E.engine engine).own ((state_of t.old).depends s)) (state_of t.new) }
{
    let own = engine.own(t, s);
    set_put(t, s, x, s, v, c, own);
}

// The row after the put (s, c): the pair joins it, or is all that is left.
pub fn leave_row<E: EngineValue>(t: &mut Bytes, s: usize, c: u16, engine: E)
    requires { s < 8 }
    ensures { Row (state_of t.old) s ((E.engine engine).left ((state_of t.old).depends s) s c) (state_of t.new) }
{
    engine.leave_row(t, s, c);
}

// The old entry is never written, or its rank is lower, or equal with an origin not higher. Tried as an order of pairs, for
// which the proof did not close.
fn outranks(u: Record, o: usize, old: Record) -> bool
    ensures { result ≡ outranks (update_of u) o (entry_of old) }
{
    if old.clock == 0 {
        return true;
    }
    let rank = u.depends.rank();
    let old_rank = old.depends.rank();
    if rank == old_rank {
        return usize::from(old.tag) <= o;
    }
    old_rank < rank
}

// The entry of the update's key at s, where the update replaces it.
pub fn replace<E: EngineValue>(t: &mut Bytes, s: usize, o: usize, u: Record, c: u16, engine: E)
    requires { (s < 8) × (o < 8) × (u.tag < 64) }
    ensures { Replaced (E.engine engine) (state_of t.old) s o (update_of u) c (state_of t.new) }
{
    let x = usize::from(u.tag);
    if engine.replaces(t, s, x, u, o) {
        set_put(t, s, x, o, u.value, c, u.depends);
    }
}
