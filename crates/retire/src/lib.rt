// A site is retired: byte 2 gets its bit, and nothing else changes.
#![tactic(auto)]

ghost use Rattle.std.specs.Prelude.{◌≡◌, ◌+◌, ◌^◌, ◌<◌};
ghost use Rattle.layout.specs.State.{state_of};
ghost use Rattle.rules.specs.Live.{retiring};
ghost use Rattle.rules.specs.Refusals.{first};
ghost use Rattle.rules.specs.Calls.{Retire, refusals};
ghost use Rattle.answers.specs.Answers.{asked, served, Promise};
ghost use Rattle.retire.specs.Fits.{RetireFits};

use answers::{Answer, Done, Refusal};
use layout::Bytes;
use refusals::inside;

// The retired sites with s among them, which was not.
fn with_site(retired: u8, s: usize) -> u8
    requires { (s < 8) × (retired + 2 ^ s < 256) }
    ensures { result ≡ retired + 2 ^ s }
{
    retired + (1 << s)
}

// 2, 4 and 16, then 17: no site but s is live.
fn retire_refusal(t: &Bytes, s: usize) -> Result<(), Refusal>
    ensures { asked result ≡ first (refusals (state_of t.now) (Retire s)) }
{
    let counts = inside::site_refusal(t, s)?;
    let h = layout::read_header(t);
    if !sound::some_live(with_site(h.retired, s), counts.sites) {
        return Err(Refusal::LastLive);
    }
    Ok(())
}

fn retire_step(t: &mut Bytes, s: usize)
    requires { RetireFits (state_of t.old) s }
    ensures { state_of t.new ≡ retiring (state_of t.old) s }
{
    let h = layout::read_header(t);
    layout::set_retired(t, with_site(h.retired, s));
}

pub fn retire(t: &mut [u8], s: usize) -> Answer
    ensures { Promise t.old (Retire s) (served result t.new) }
{
    let t = t.as_mut_array().ok_or(Refusal::Size)?;
    retire_refusal(t, s)?;
    retire_step(t, s);
    Ok(Done::Call {
        key: 0,
        site: 0,
        clock: 0,
        value: 0,
    })
}
