// Why a call is refused: the conditions that calls share, over a lent buffer, and those of get, put and deliver. A call
// that holds a table's bytes asks those in module inside.
#![tactic(auto)]

ghost use Rattle.std.specs.Prelude.{◌≡◌, not, ◌&&◌, ◌+◌, ◌≤◌, ◌<◌, eqb, IfOk};
ghost use Rattle.layout.specs.State.{state_of};
ghost use Rattle.rules.specs.Live.{gone};
ghost use Rattle.rules.specs.Refusals.{first};
ghost use Rattle.rules.specs.Calls.{Put, Get, Drain, asks};
ghost use Rattle.answers.specs.Answers.{asked};
ghost use Rattle.refusals.specs.Asked.{table_in, live_in, names_in, sites_in, full_in, room_in, deliver_in, Counted};

use answers::Refusal;
use layout::{Applied, Bytes, Table};
use sound::Counts;

pub mod inside;

// Whether s is retired.
pub fn gone(t: &Bytes, s: usize) -> bool
    requires { s < 8 }
    ensures { result ≡ gone (state_of t.now) s }
{
    let h = layout::read_header(t);
    sound::gone(h.retired, s)
}

// A live site i has applied 16 fewer of s's puts than s, which has made top.
fn lags(t: &Bytes, i: usize, s: usize, top: usize) -> bool
    requires { (i < 8) × (s < 8) }
    ensures { result ≡ (not (gone (state_of t.now) i) && eqb ((state_of t.now).applied i s + 16) top) }
{
    if usize::from(layout::at::<Applied>(t, i, s)) + Table::PLACES != top {
        return false;
    }
    !gone(t, i)
}

// Some live site has applied 16 fewer of s's puts than s.
fn full(t: &Bytes, n: usize, s: usize) -> bool
    requires { (n ≤ 8) × (s < 8) }
    ensures { result ≡ full_in (state_of t.now) n s }
{
    let top = usize::from(layout::at::<Applied>(t, s, s));
    for i in 0..n {
        if lags(t, i, s, top) {
            return true;
        }
    }
    false
}

// 4 and 16: a live site.
fn live_refusal(t: &Bytes, counts: Counts, s: usize) -> Result<(), Refusal>
    ensures { asked result ≡ first (live_in (state_of t.now) counts.sites s) }
{
    if counts.sites <= s {
        return Err(Refusal::Site);
    }
    if gone(t, s) {
        return Err(Refusal::Retired);
    }
    Ok(())
}

// 4, 16 and 6: a live site and a key.
pub fn names_refusal(t: &Bytes, counts: Counts, s: usize, x: usize) -> Result<(), Refusal>
    ensures { asked result ≡ first (names_in (state_of t.now) counts.sites counts.keys s x) }
{
    live_refusal(t, counts, s)?;
    if counts.keys <= x {
        return Err(Refusal::Key);
    }
    Ok(())
}

// 4, 5 and 16: two sites, the receiver live; the origin may be retired. 5 stands between the two that live_refusal asks.
fn sites_refusal(t: &Bytes, counts: Counts, s: usize, o: usize) -> Result<(), Refusal>
    ensures { asked result ≡ first (sites_in (state_of t.now) counts.sites s o) }
{
    if counts.sites <= s || counts.sites <= o {
        return Err(Refusal::Site);
    }
    if s == o {
        return Err(Refusal::Same);
    }
    if gone(t, s) {
        return Err(Refusal::Retired);
    }
    Ok(())
}

// 7 and 8: room for one more put of s. The number of sites alone: who has it need not know that of keys.
pub fn room_refusal(t: &Bytes, n: usize, s: usize) -> Result<(), Refusal>
    requires { (n ≤ 8) × (s < 8) }
    ensures { asked result ≡ first (room_in (state_of t.now) n s) }
{
    if layout::at::<Applied>(t, s, s) == Table::LAST_CLOCK {
        return Err(Refusal::Spent);
    }
    if full(t, n, s) {
        return Err(Refusal::Full);
    }
    Ok(())
}

// 1 and 2: the buffer's size, and the soundness of the table in it.
pub fn table_refusal(t: &[u8]) -> Result<Counts, Refusal>
    ensures refusal { asked result ≡ first (table_in t.now) }
    ensures counts { IfOk result (Counted (state_of t.now)) }
{
    inside::table_refusal(t.as_array().ok_or(Refusal::Size)?)
}

// 1, 2, 4 and 16: a live site.
pub fn site_refusal(t: &[u8], s: usize) -> Result<Counts, Refusal>
    ensures refusal { asked result ≡ first (asks t.now (Drain s 0)) }
    ensures counts { IfOk result (Counted (state_of t.now)) }
{
    inside::site_refusal(t.as_array().ok_or(Refusal::Size)?, s)
}

pub fn get_refusal(t: &[u8], s: usize, x: usize) -> Result<Counts, Refusal>
    ensures refusal { asked result ≡ first (asks t.now (Get s x)) }
    ensures counts { IfOk result (Counted (state_of t.now)) }
{
    inside::get_refusal(t.as_array().ok_or(Refusal::Size)?, s, x)
}

pub fn put_refusal(t: &[u8], s: usize, x: usize) -> Result<(), Refusal>
    ensures { asked result ≡ first (asks t.now (Put s x 0)) }
{
    inside::put_refusal(t.as_array().ok_or(Refusal::Size)?, s, x)
}

// 1, 2, 4, 5 and 16, of a delivery.
pub fn deliver_refusal(t: &[u8], s: usize, o: usize) -> Result<(), Refusal>
    ensures { asked result ≡ first (deliver_in t.now s o) }
{
    inside::deliver_refusal(t.as_array().ok_or(Refusal::Size)?, s, o)
}
