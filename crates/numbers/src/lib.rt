// An answer as document 01's five numbers, for whoever writes them down.
#![tactic(auto)]

ghost use Rattle.std.specs.Prelude.{◌≡◌};
ghost use Rattle.rules.specs.Steps.{refused};
ghost use Rattle.answers.specs.Answers.{numbers_of};
ghost use Rattle.numbers.specs.Five.{five_of};

use answers::{Answer, Done, Unserved};

#[derive(Clone, Copy, Debug, PartialEq, Eq)]
pub struct Five {
    // A number, as the reply for C and a schedule's line have it.
    pub code: u8,
    pub key: u8,
    pub site: u8,
    pub clock: u16,
    pub value: u32,
}

pub fn refused(code: u8) -> Five
    ensures { five_of result ≡ refused code }
{
    Five {
        code,
        key: 0,
        site: 0,
        clock: 0,
        value: 0,
    }
}

impl From<Answer> for Five {
    ghost from_gives = { λ a x. five_of x ≡ numbers_of a };

    fn from(a: Answer) -> Five {
        match a {
            Ok(
                Done::Call {
                    key,
                    site,
                    clock,
                    value,
                },
            ) => Five {
                code: 0,
                key,
                site,
                clock,
                value,
            },
            Ok(Done::Drain { deliveries, tries }) => Five {
                code: 0,
                key: 0,
                site: 0,
                clock: deliveries,
                value: u32::from(tries),
            },
            Err(Unserved::Missing { site, clock, mask }) => Five {
                code: 10,
                key: 0,
                site,
                clock,
                value: u32::from(mask),
            },
            Err(Unserved::Stopped { deliveries, tries }) => Five {
                code: 11,
                key: 0,
                site: 0,
                clock: deliveries,
                value: u32::from(tries),
            },
            Err(Unserved::Refused(r)) => refused(u8::from(r)),
        }
    }
}
