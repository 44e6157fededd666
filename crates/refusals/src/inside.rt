// What is asked of a table's bytes: all but 1, the size of the buffer that they stand in.
ghost use Rattle.std.specs.Prelude.{◌≡◌, IfOk};
ghost use Rattle.layout.specs.State.{state_of};
ghost use Rattle.rules.specs.Refusals.{first};
ghost use Rattle.rules.specs.Calls.{Put, Get, Drain, refusals};
ghost use Rattle.answers.specs.Answers.{asked};
ghost use Rattle.refusals.specs.Asked.{sound_in, receives_in, Counted};

use crate::{live_refusal, names_refusal, room_refusal, sites_refusal};
use answers::Refusal;
use layout::Bytes;
use sound::Counts;

// 2: the soundness of the table.
pub fn table_refusal(t: &Bytes) -> Result<Counts, Refusal>
    ensures refusal { asked result ≡ first (sound_in (state_of t.now)) }
    ensures counts { IfOk result (Counted (state_of t.now)) }
{
    Counts::of_sound(t).ok_or(Refusal::Unsound)
}

// 2, 4 and 16: a live site.
pub fn site_refusal(t: &Bytes, s: usize) -> Result<Counts, Refusal>
    ensures refusal { asked result ≡ first (refusals (state_of t.now) (Drain s 0)) }
    ensures counts { IfOk result (Counted (state_of t.now)) }
{
    let counts = table_refusal(t)?;
    live_refusal(t, counts, s)?;
    Ok(counts)
}

pub fn get_refusal(t: &Bytes, s: usize, x: usize) -> Result<Counts, Refusal>
    ensures refusal { asked result ≡ first (refusals (state_of t.now) (Get s x)) }
    ensures counts { IfOk result (Counted (state_of t.now)) }
{
    let counts = table_refusal(t)?;
    names_refusal(t, counts, s, x)?;
    Ok(counts)
}

pub fn put_refusal(t: &Bytes, s: usize, x: usize) -> Result<(), Refusal>
    ensures { asked result ≡ first (refusals (state_of t.now) (Put s x 0)) }
{
    let counts = get_refusal(t, s, x)?;
    room_refusal(t, counts.sites, s)
}

// 2, 4, 5 and 16, of a delivery.
pub fn deliver_refusal(t: &Bytes, s: usize, o: usize) -> Result<(), Refusal>
    ensures { asked result ≡ first (receives_in (state_of t.now) s o) }
{
    let counts = table_refusal(t)?;
    sites_refusal(t, counts, s, o)
}
