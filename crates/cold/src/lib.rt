// The cold list over a lent buffer of any length.
#![tactic(auto)]

ghost use Rattle.std.specs.Prelude.{◌≡◌, ℕ, suc, ◌<◌, IfOk};
ghost use Rattle.layout.specs.State.{state_of};
ghost use Rattle.layout.specs.Records.{entry_of};
ghost use Rattle.rules.specs.Touch as kinds;
ghost use Rattle.rules.specs.Touch.{age, aged, kind_of, kind, kinds_at};
ghost use Rattle.rules.specs.Refusals.{first, cold_words};
ghost use Rattle.answers.specs.Answers.{asked};
ghost use Rattle.cold.specs.Listing.{listed, Promise};
ghost use Rattle.cold.specs.Kinds.{meant};
ghost use Rattle.cold.specs.Tally.{Tally};

use answers::{Answer, Done, Refusal};
use layout::{Bytes, Entries, Record};
use refusals::inside;
use sound::Counts;

// What the cold list makes of a key.
#[derive(Clone, Copy, Debug, PartialEq, Eq)]
pub enum Kind {
    Never,
    Malformed,
    Fresh,
    Cold,
    Ahead,
}

// The lent list: 64 bytes, a key each.
#[derive(Drop)]
pub struct List;

impl List {
    pub const BYTES: usize = 64;
}

// The hour that it is, and the age in hours from which a key is cold.
#[derive(Clone, Copy, Debug, PartialEq, Eq)]
pub struct Hours {
    pub hour: u16,
    pub threshold: u16,
}

// The count of hours runs round after 65,535.
fn age(now: u16, hour: u16) -> u16
    ensures { result ≡ age now hour }
{
    now.wrapping_sub(hour)
}

impl Hours {
    // The last age that is cold.
    pub const LAST_AGE: u16 = 32767;

    // 14: the hour and the threshold.
    pub fn new(hour: usize, threshold: usize) -> Result<Hours, Refusal>
        ensures refusal { asked result ≡ first (cold_words hour threshold 64) }
        ensures hours { IfOk result (λ h. (h.hour ≡ hour) × (h.threshold ≡ threshold)) }
    {
        let hour = u16::try_from(hour).map_err(|_| Refusal::OutOfRange)?;
        let threshold = u16::try_from(threshold).map_err(|_| Refusal::OutOfRange)?;
        if !(1..=Hours::LAST_AGE).contains(&threshold) {
            return Err(Refusal::OutOfRange);
        }
        Ok(Hours { hour, threshold })
    }

    fn aged(self, a: u16) -> Kind
        ensures { meant result ≡ aged self.threshold a }
    {
        if Hours::LAST_AGE < a {
            Kind::Ahead
        } else if a < self.threshold {
            Kind::Fresh
        } else {
            Kind::Cold
        }
    }

    fn kind_of(self, v: u32) -> Kind
        ensures { meant result ≡ kind_of self.hour self.threshold v }
    {
        if !touch::well_formed(v) {
            return Kind::Malformed;
        }
        self.aged(age(self.hour, touch::hour_of(v)))
    }

    fn kind_at(self, e: Record) -> Kind
        ensures { meant result ≡ kind self.hour self.threshold (entry_of e) }
    {
        if e.clock == 0 {
            return Kind::Never;
        }
        self.kind_of(e.value)
    }
}

// Keys listed, clocks ahead and malformed values. The list is C's own, so its length stands here.
#[derive(Clone, Copy, Debug, PartialEq, Eq)]
pub struct Tallies {
    pub listed: u8,
    pub ahead: u8,
    pub malformed: u8,
}

// One key more, in the list if it is cold.
fn count(list: &mut [u8; List::BYTES], c: Tallies, x: usize, kind: Kind) -> Tallies
    requires { (c.listed < 64) × (c.ahead < 64) × (c.malformed < 64) × (x < 64) }
    ensures { (f : ℕ → kinds.Kind) → f x ≡ meant kind → Tally f x list.old c → Tally f (suc x) list.new result }
{
    match kind {
        Kind::Cold => {
            list[usize::from(c.listed)] = x as u8;
            Tallies {
                listed: c.listed + 1,
                ..c
            }
        }
        Kind::Ahead => Tallies {
            ahead: c.ahead + 1,
            ..c
        },
        Kind::Malformed => Tallies {
            malformed: c.malformed + 1,
            ..c
        },
        Kind::Fresh | Kind::Never => c,
    }
}

// Each key at s, ascending: in the list if it is cold, and counted. A fold would carry the lent list as well.
fn tally(t: &Bytes, list: &mut [u8; List::BYTES], s: usize, counts: Counts, hours: Hours) -> Tallies
    requires { s < 8 }
    ensures { Tally (kinds_at (state_of t.now) s hours.hour hours.threshold) counts.keys list.new result }
{
    *list = [0; List::BYTES];
    let mut c = Tallies {
        listed: 0,
        ahead: 0,
        malformed: 0,
    };
    for x in 0..counts.keys {
        let e = layout::record_at::<Entries>(t, s, x);
        c = count(list, c, x, hours.kind_at(e));
    }
    c
}

// 14: the list's size, the hour and the threshold.
pub fn words_refusal(hour: usize, threshold: usize, room: usize) -> Result<(), Refusal>
    ensures { asked result ≡ first (cold_words hour threshold room) }
{
    if room != List::BYTES {
        return Err(Refusal::OutOfRange);
    }
    Hours::new(hour, threshold)?;
    Ok(())
}

// A look at every key. Its own numbers and the list's size are asked first of all.
pub fn cold(t: &[u8], list: &mut [u8], s: usize, hour: usize, threshold: usize) -> Answer
    ensures { Promise t.now list.old s hour threshold (listed result t.now list.new) }
{
    let list = list.as_mut_array().ok_or(Refusal::OutOfRange)?;
    let hours = Hours::new(hour, threshold)?;
    let t = t.as_array().ok_or(Refusal::Size)?;
    let counts = inside::site_refusal(t, s)?;
    let c = tally(t, list, s, counts, hours);
    Ok(Done::Call {
        key: c.listed,
        site: c.ahead,
        clock: u16::from(c.malformed),
        value: 0,
    })
}
