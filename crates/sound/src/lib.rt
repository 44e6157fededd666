// Whether a table is sound: the check may stop at the first fact that fails.
#![tactic(auto)]

ghost use Rattle.std.specs.Prelude.{◌≡◌, true, ◌&&◌, suc, ◌+◌, ◌^◌, ◌≤◌, ◌<◌, ltb, length, is_some, IfSome};
ghost use Rattle.clock.specs.Map.{when◌then◌else◌, bit};
ghost use Rattle.layout.specs.State.{state_of, fields, to_entry, last_clock};
ghost use Rattle.layout.specs.Records.{fields_at};
ghost use Rattle.rules.specs.Sound.{sound, blank, place};
ghost use Rattle.sound.specs.Checks.{range_in, header_in, none_in, applied_in, entries_in, held_in, retained_in, lag_in, origins_in};

use layout::{Applied, Bytes, Entries, Header, Table, Updates};

// How many sites and keys a table has: at most 8 and 64; `new` takes none of 0. Beside the bytes and not with
// them: a struct of both would have to be taken apart at each call.
#[derive(Clone, Copy, Debug, PartialEq, Eq)]
pub struct Counts {
    pub sites: usize,
    pub keys: usize,
    pub ghost few_sites: { sites ≤ 8 },
    pub ghost few_keys: { keys ≤ 64 },
}

impl Counts {
    pub fn new(sites: usize, keys: usize) -> Option<Counts>
        ensures in_range { is_some result ≡ range_in sites keys }
        ensures numbers { IfSome result (λ c. (c.sites ≡ sites) × (c.keys ≡ keys)) }
    {
        if (1..=Table::SITES).contains(&sites) && (1..=Table::KEYS).contains(&keys) {
            Some(Counts { sites, keys })
        } else {
            None
        }
    }
}

// Whether s is among the retired sites, of a header that need not be sound yet.
pub fn gone(retired: u8, s: usize) -> bool
    requires { s < 8 }
    ensures { result ≡ bit retired s }
{
    (retired >> s) % 2 == 1
}

// Retired sites are all below n, and not all n.
pub fn some_live(retired: u8, n: usize) -> bool
    requires { n ≤ 8 }
    ensures { result ≡ ltb (suc retired) (2 ^ n) }
{
    (usize::from(retired) + 1) >> n == 0
}

// Its counts, where they are in range, some site below n and none above is live, and byte 3 is zero.
fn header_counts(h: Header) -> Option<Counts>
    ensures sound { is_some result ≡ header_in h.n h.k h.retired h.byte3 }
    ensures numbers { IfSome result (λ c. (c.sites ≡ h.n) × (c.keys ≡ h.k)) }
{
    Counts::new(usize::from(h.n), usize::from(h.k)).filter(|c| some_live(h.retired, c.sites)
        && h.byte3 == 0)
}

// The bits of both.
fn either(a: u64, b: u64) -> u64
    ensures { (a ≤ result) × (b ≤ result) × (result ≤ a + b) }
{
    a | b
}

// What stands in entries of clock 0 where zeros belong: before the clock, and in the two halves of the vector. Three
// numbers, since the compiler reads eight bytes in one step only where no others are mixed in.
#[derive(Clone, Copy)]
struct Stray {
    head: u64,
    left: u64,
    right: u64,
}

impl Stray {
    fn none() -> Self
        ensures { none_in result ≡ true }
    {
        Stray {
            head: 0,
            left: 0,
            right: 0,
        }
    }

    // With those of one entry more.
    fn and(self, e: &[u8]) -> Self
        requires { (length e.now ≡ fields.width) × ((to_entry (fields_at e.now)).clock ≡ 0) }
        ensures { none_in result ≡ (none_in self && blank (to_entry (fields_at e.now))) }
    {
        let value = layout::read_quad(&e[Table::RECORD_VALUE..Table::RECORD_TAG]);
        let tag = layout::read_pair(&e[Table::RECORD_TAG..Table::RECORD_CLOCK]);
        let head = u64::from(value) + u64::from(tag);
        let left = layout::read_word(&e[Table::RECORD_VECTOR..Table::RECORD_MIDDLE]);
        let right = layout::read_word(&e[Table::RECORD_MIDDLE..Table::RECORD]);
        Stray {
            head: either(self.head, head),
            left: either(self.left, left),
            right: either(self.right, right),
        }
    }

    fn is_none(self) -> bool
        ensures { result ≡ none_in self }
    {
        self.head == 0 && self.left == 0 && self.right == 0
    }
}

// An origin below n, and at most the count that the site has applied of it.
fn applied_here(t: &Bytes, s: usize, origin: usize, clock: u16, counts: Counts) -> bool
    requires { s < 8 }
    ensures { result ≡ applied_in counts.sites ((state_of t.now).applied s) origin clock }
{
    origin < counts.sites && clock <= layout::at::<Applied>(t, s, origin)
}

// The clock tells a written entry from a blank one. What a site's blank entries hold is judged together, behind its last
// key, so that an entry takes one branch that is hard to foretell. Document 01 names the label.
fn entries_sound(t: &Bytes, counts: Counts) -> bool
    ensures { result ≡ entries_in (state_of t.now) counts.sites counts.keys }
{
    'scan: {
        for s in 0..counts.sites {
            let mut stray = Stray::none();
            for x in 0..counts.keys {
                let at = layout::record_place::<Entries>(s, x);
                let e = &t[at..at + Table::RECORD];
                let clock = layout::read_clock(&e[Table::RECORD_CLOCK..Table::RECORD_VECTOR]);
                if clock == 0 {
                    stray = stray.and(e);
                } else if !applied_here(t, s, usize::from(e[Table::RECORD_TAG]), clock, counts) {
                    break 'scan false;
                }
            }
            if !stray.is_none() {
                break 'scan false;
            }
        }
        true
    }
}

// The place of clock c + 1 holds that clock and a key below k.
fn held(t: &Bytes, k: usize, o: usize, c: usize) -> bool
    requires { (o < 8) × (c < last_clock) }
    ensures { result ≡ held_in k (suc c) ((state_of t.now).updates o (place (suc c))) }
{
    let at = layout::record_place::<Updates>(o, c % Table::PLACES);
    let u = &t[at..at + Table::RECORD];
    usize::from(layout::read_clock(&u[Table::RECORD_CLOCK..Table::RECORD_VECTOR])) == c + 1
        && usize::from(u[Table::RECORD_TAG]) < k
}

// Each clock above the smallest, up to the origin's own count.
fn retained(t: &Bytes, k: usize, o: usize, low: usize, top: usize) -> bool
    requires { (o < 8) × (low ≤ top) × (top ≤ last_clock) }
    ensures { result ≡ retained_in (state_of t.now) k o low top }
{
    (low..top).all(|c| held(t, k, o, c))
}

// The smallest count is at most 16 fewer than the origin's own, and each clock between is held.
fn lag_sound(t: &Bytes, k: usize, o: usize, low: usize, top: usize) -> bool
    requires { (o < 8) × (low ≤ top) × (top ≤ last_clock) }
    ensures { result ≡ lag_in (state_of t.now) k o low top }
{
    top <= low + Table::PLACES && retained(t, k, o, low, top)
}

// A retired site counts as the origin itself.
fn count(retired: u8, s: usize, here: usize, top: usize) -> usize
    requires { s < 8 }
    ensures { result ≡ (when bit retired s then top else here) }
{
    if gone(retired, s) { top } else { here }
}

// No site has applied more of o's puts than o, nor a live one more than 16 fewer; o's updates that a live site lacks are held.
// Document 01 names the label.
fn origins_sound(t: &Bytes, counts: Counts, retired: u8) -> bool
    requires { retired ≡ (state_of t.now).retired }
    ensures { result ≡ origins_in (state_of t.now) counts.sites counts.keys }
{
    'scan: {
        for o in 0..counts.sites {
            let top = usize::from(layout::at::<Applied>(t, o, o));
            let mut low = top;
            for s in 0..counts.sites {
                let here = usize::from(layout::at::<Applied>(t, s, o));
                if top < here {
                    break 'scan false;
                }
                low = low.min(count(retired, s, here, top));
            }
            if !lag_sound(t, counts.keys, o, low, top) {
                break 'scan false;
            }
        }
        true
    }
}

impl Counts {
    // Those of a sound table.
    pub fn of_sound(t: &Bytes) -> Option<Counts>
        ensures sound { is_some result ≡ sound (state_of t.now) }
        ensures numbers { IfSome result (λ c. (c.sites ≡ (state_of t.now).n) × (c.keys ≡ (state_of t.now).k)) }
    {
        let h = layout::read_header(t);
        header_counts(h).filter(|c| entries_sound(t, *c) && origins_sound(t, *c, h.retired))
    }
}
