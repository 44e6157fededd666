// Touch records, and touch over a lent buffer of any length.
#![tactic(auto)]

ghost use Rattle.std.specs.Prelude.{◌≡◌, [], ◌∷◌, ◌<◌, ltb, IfOk};
ghost use Rattle.layout.specs.State.{state_of};
ghost use Rattle.layout.specs.Records.{entry_of};
ghost use Rattle.rules.specs.Touch.{hour_of, well_formed, keeps_hour, touch_of, touched};
ghost use Rattle.rules.specs.Refusals.{first, touch_words, touch_refusals};
ghost use Rattle.rules.specs.Calls.{Touch};
ghost use Rattle.answers.specs.Answers.{asked, served, PromiseBy};
ghost use Rattle.touch.specs.Asked.{record_in};
ghost use Rattle.touch.specs.Touchers.{number_of};

use answers::{Answer, Done, Refusal};
use layout::{Bytes, Entries, Record};
use refusals::inside;
use rows::by_value::EngineValue;

// What the fields of a touch record are worth, hour (16 bits), toucher (3), tier (2), eleven zeros; and how many of the last
// two there are.
#[derive(Drop)]
pub struct Field;

impl Field {
    pub const HOUR: u32 = 65536;

    pub const TOUCHER: u32 = 8192;

    pub const TOUCHERS: u32 = 8;

    pub const TIER: u32 = 2048;

    pub const TIERS: usize = 4;
}

// 0 user, 1 backup scan, 2 migration, 3 restore.
#[derive(Clone, Copy, Debug, PartialEq, Eq)]
pub enum Toucher {
    User,
    BackupScan,
    Migration,
    Restore,
}

// 14 for any other number.
impl TryFrom<usize> for Toucher {
    type Error = Refusal;

    ghost try_from_gives = { λ n r. (asked r ≡ first ((14, ltb 3 n) ∷ [])) × IfOk r (λ u. number_of u ≡ n) };

    fn try_from(n: usize) -> Result<Toucher, Refusal> {
        match n {
            0 => Ok(Toucher::User),
            1 => Ok(Toucher::BackupScan),
            2 => Ok(Toucher::Migration),
            3 => Ok(Toucher::Restore),
            _ => Err(Refusal::OutOfRange),
        }
    }
}

impl From<Toucher> for u32 {
    ghost from_gives = { λ u n. n ≡ number_of u };

    fn from(u: Toucher) -> u32 {
        u as u32
    }
}

impl Toucher {
    // The backup scan and migration.
    fn keeps_hour(self) -> bool
        ensures { result ≡ keeps_hour (number_of self) }
    {
        matches!(self, Toucher::BackupScan | Toucher::Migration)
    }
}

// Who touches a file, when, and on which tier it then is.
#[derive(Clone, Copy, Debug, PartialEq, Eq)]
pub struct TouchRecord {
    pub hour: u16,
    pub toucher: Toucher,
    // A number: the document names no tiers.
    pub tier: u8,
    pub ghost few_tiers: { tier < 4 },
}

impl From<TouchRecord> for u32 {
    ghost from_gives = { λ w v. v ≡ touch_of w.hour (number_of w.toucher) w.tier };

    fn from(w: TouchRecord) -> u32 {
        u32::from(w.hour) * Field::HOUR
            + u32::from(w.toucher) * Field::TOUCHER
            + u32::from(w.tier) * Field::TIER
    }
}

impl TouchRecord {
    // 14: the hour, the toucher and the tier.
    pub fn new(hour: usize, toucher: usize, tier: usize) -> Result<TouchRecord, Refusal>
        ensures refusal { asked result ≡ first (touch_words hour toucher tier) }
        ensures record { IfOk result (λ w. (w.hour ≡ hour) × (number_of w.toucher ≡ toucher) × (w.tier ≡ tier)) }
    {
        let toucher = Toucher::try_from(toucher)?;
        let hour = u16::try_from(hour).map_err(|_| Refusal::OutOfRange)?;
        if Field::TIERS <= tier {
            return Err(Refusal::OutOfRange);
        }
        Ok(TouchRecord {
            hour,
            toucher,
            tier: tier as u8,
        })
    }

    // With the old hour for toucher 1 or 2, else now.
    fn over(self, old: u32) -> u32
        ensures { result ≡ touched old self.hour (number_of self.toucher) self.tier }
    {
        let mut record = self;
        if self.toucher.keeps_hour() {
            record.hour = hour_of(old);
        }
        u32::from(record)
    }
}

// A test and a field, apart: a TouchRecord made of the value would have a toucher and a tier that nobody reads.
pub fn well_formed(v: u32) -> bool
    ensures { result ≡ well_formed v }
{
    v / Field::TOUCHER % Field::TOUCHERS < 4 && v % Field::TIER == 0
}

pub fn hour_of(v: u32) -> u16
    ensures { result ≡ hour_of v }
{
    (v / Field::HOUR) as u16
}

// 13: toucher 1 or 2 on a key never written, or on a malformed record.
fn record_refusal(e: Record, toucher: Toucher) -> Result<(), Refusal>
    ensures { asked result ≡ first (record_in (entry_of e) (number_of toucher)) }
{
    if toucher.keeps_hour() && (e.clock == 0 || !well_formed(e.value)) {
        return Err(Refusal::NoRecord);
    }
    Ok(())
}

// 2, 4, 16 and 6, then 13, then 7 and 8.
fn table_refusal(t: &Bytes, s: usize, x: usize, toucher: Toucher) -> Result<(), Refusal>
    ensures { asked result ≡ first (touch_refusals (state_of t.now) s x (number_of toucher)) }
{
    let counts = inside::get_refusal(t, s, x)?;
    record_refusal(layout::record_at::<Entries>(t, s, x), toucher)?;
    refusals::room_refusal(t, counts.sites, s)
}

// Gets the key and puts its record; refused, it has not got it either. The toucher and the tier are numbers, as C gives them:
// any may come, and 14 answers those that name nothing.
pub fn touch<E: EngineValue>(
    t: &mut [u8],
    s: usize,
    x: usize,
    hour: usize,
    toucher: usize,
    tier: usize,
    engine: E,
) -> Answer
    ensures { PromiseBy (E.engine engine) t.old (Touch s x hour toucher tier) (served result t.new) }
{
    let record = TouchRecord::new(hour, toucher, tier)?;
    let t = t.as_mut_array().ok_or(Refusal::Size)?;
    table_refusal(t, s, x, record.toucher)?;
    let e = table::get_step(t, s, x, engine);
    let v = record.over(e.value);
    let c = table::put_step(t, s, x, v, engine);
    Ok(Done::Call {
        key: x as u8,
        site: s as u8,
        clock: c,
        value: v,
    })
}
