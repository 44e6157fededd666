// A clock vector by value: for each of eight sites the greatest clock number seen.
#![tactic(auto)]

ghost use Rattle.std.specs.Prelude.{◌≡◌, ◌<◌};
ghost use Rattle.clock.specs.Vector.{zeros, join, note, rank};
ghost use Rattle.clock.specs.Clock.{columns, compare};

use std::array;

#[derive(Clone, Copy, Debug, PartialEq, Eq)]
pub struct Clock {
    pub col: [u16; 8],
}

// The lowest column that is beyond, its number there, and the mask of all columns that are.
#[derive(Clone, Copy, Debug, PartialEq, Eq)]
pub struct Beyond {
    pub column: u8,
    pub number: u16,
    pub mask: u8,
}

impl Clock {
    pub const COLUMNS: usize = 8;

    pub fn zero() -> Self
        ensures { columns result ≡ zeros }
    {
        Clock { col: [0; 8] }
    }

    // Joining two clock vectors keeps the greater number in each column.
    pub fn join(self, other: Clock) -> Self
        ensures { columns result ≡ join (columns self) (columns other) }
    {
        Clock {
            col: array::from_fn(|i| self.col[i].max(other.col[i])),
        }
    }

    pub fn note(self, site: usize, clock: u16) -> Self
        requires { site < 8 }
        ensures { columns result ≡ note (columns self) site clock }
    {
        let mut col = self.col;
        col[site] = col[site].max(clock);
        Clock { col }
    }

    // The sum of the columns.
    pub fn rank(self) -> u32
        ensures { result ≡ rank (columns self) }
    {
        self.col.iter().map(|&x| u32::from(x)).sum()
    }

    // Within other in every column; else what is beyond. Down the columns, so that the last one found is the lowest;
    // the mask doubles at each. By index, which is an answer too.
    pub fn compare(self, other: Clock) -> Result<(), Beyond>
        ensures { result ≡ compare (columns self) (columns other) }
    {
        let mut mask = 0;
        let mut column = 0;
        let mut number = 0;
        for i in (0..Clock::COLUMNS).rev() {
            mask += mask;
            if other.col[i] < self.col[i] {
                mask += 1;
                column = i as u8;
                number = self.col[i];
            }
        }
        if mask == 0 {
            return Ok(());
        }
        Err(Beyond {
            column,
            number,
            mask,
        })
    }
}
