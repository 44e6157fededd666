// What a call answers, and why it is not served; and the two engines that a call can have.
#![tactic(auto)]

ghost use Rattle.std.specs.Prelude.{◌≡◌};
ghost use Rattle.answers.specs.Answers.{code_of};
ghost use Rattle.answers.specs.declared.Unserved.TheVariants.{Refused, Missing};

use clock::Beyond;

// Why a call is refused.
#[derive(Clone, Copy, Debug, PartialEq, Eq)]
pub enum Refusal {
    Size,
    Unsound,
    Counts,
    Site,
    Same,
    Key,
    Spent,
    Full,
    NoNext,
    // A schedule's step sets a field that its operation does not use.
    Unused,
    NoRecord,
    OutOfRange,
    Changed,
    Retired,
    LastLive,
}

// How a site keeps what it depends on, and whether puts are ranked by it: in full and ranked, or as a short list.
#[derive(Clone, Copy)]
pub enum Engine {
    Ranked,
    Short,
}

// The number of a refusal, by a match and not by the variants' own numbers: its wrong ones are tried as edits of one arm.
impl From<Refusal> for u8 {
    ghost from_gives = { λ r n. n ≡ code_of r };

    fn from(r: Refusal) -> u8 {
        match r {
            Refusal::Size => 1,
            Refusal::Unsound => 2,
            Refusal::Counts => 3,
            Refusal::Site => 4,
            Refusal::Same => 5,
            Refusal::Key => 6,
            Refusal::Spent => 7,
            Refusal::Full => 8,
            Refusal::NoNext => 9,
            Refusal::Unused => 12,
            Refusal::NoRecord => 13,
            Refusal::OutOfRange => 14,
            Refusal::Changed => 15,
            Refusal::Retired => 16,
            Refusal::LastLive => 17,
        }
    }
}

// Why a call is not served: it is refused, its update waits for the clock number of a site, or its tries are spent, with the two numbers of a drain that ends.
#[derive(Clone, Copy, Debug, PartialEq, Eq)]
pub enum Unserved {
    Refused(Refusal),
    Missing { site: u8, clock: u16, mask: u8 },
    Stopped { deliveries: u16, tries: u16 },
}

impl From<Refusal> for Unserved {
    ghost from_gives = { λ r e. e ≡ Refused r };

    fn from(r: Refusal) -> Unserved {
        Unserved::Refused(r)
    }
}

impl From<Beyond> for Unserved {
    ghost from_gives = { λ b e. e ≡ Missing b.column b.number b.mask };

    fn from(b: Beyond) -> Unserved {
        Unserved::Missing {
            site: b.column,
            clock: b.number,
            mask: b.mask,
        }
    }
}

// What a served call answers. Its key and site are below 64 and 8 where they are made, so `as u8` cuts none; each call names
// its own numbers, since a constructor for each kind would be no shorter.
#[derive(Clone, Copy, Debug, PartialEq, Eq)]
pub enum Done {
    Call {
        key: u8,
        site: u8,
        clock: u16,
        value: u32,
    },
    Drain {
        deliveries: u16,
        tries: u16,
    },
}

pub type Answer = Result<Done, Unserved>;
