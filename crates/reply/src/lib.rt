// The reply of a call from C: 12 bytes, and the code that comes back beside them.
#![tactic(auto)]

ghost use Rattle.std.specs.Prelude.{◌≡◌};
ghost use Rattle.answers.specs.Answers.{asked, numbers_of};
ghost use Rattle.numbers.specs.Five.{five_of};
ghost use Rattle.reply.specs.Reply.{reply_of};
ghost use Rattle.reply.specs.Told.{Replied, behind};

use answers::{Answer, Refusal};
use numbers::Five;

#[derive(Drop)]
pub struct Reply;

impl Reply {
    pub const BYTES: usize = 12;

    // The number of Refusal::Size, which a constant can't ask for.
    pub const WRONG_SIZE: u32 = 1;
}

// Code, key, site, zero, clock (2), two zeros, value (4).
fn write_reply(reply: &mut [u8; Reply::BYTES], x: Five)
    ensures { reply.new ≡ reply_of (five_of x) }
{
    let [c0, c1] = x.clock.to_be_bytes();
    let [v0, v1, v2, v3] = x.value.to_be_bytes();
    *reply = [x.code, x.key, x.site, 0, c0, c1, 0, 0, v0, v1, v2, v3];
}

// The reply is written whole, whatever the five numbers, and their code comes back.
pub fn tell(reply: &mut [u8; Reply::BYTES], x: Five) -> u32
    ensures { Replied result reply.new (five_of x) }
{
    write_reply(reply, x);
    u32::from(x.code)
}

pub fn answer(reply: &mut [u8; Reply::BYTES], a: Answer) -> u32
    ensures { Replied result reply.new (numbers_of a) }
{
    tell(reply, Five::from(a))
}

// A reply of another size: 14 where the call's own numbers are refused, else 1.
pub fn wrong_size<T: Drop>(words: Result<T, Refusal>) -> u32
    ensures { result ≡ behind (asked words) }
{
    u32::from(u8::from(words.err().unwrap_or(Refusal::Size)))
}
