// A schedule: its steps decoded, and the text that a run of it prints.
#![tactic(auto)]

ghost use Rattle.std.specs.Prelude.{◌≡◌, [], ◌∷◌, ◌++◌, ◌+◌, ◌≤◌, length};
ghost use Rattle.layout.specs.State.{state_of};
ghost use Rattle.rules.specs.Engine.{ours};
ghost use Rattle.rules.specs.Calls.{serve};
ghost use Rattle.answers.specs.Answers.{numbers_of, served};
ghost use Rattle.schedule.specs.Step.{operation_of, step_of, unused_zero, call_of, played, Promise};
ghost use Rattle.schedule.specs.Text.{decimal, word, line};
ghost use Rattle.schedule.specs.Listing.{listed, listing};
ghost use Rattle.schedule.specs.Written.{Written, Counts, Blank, Room, Adds};

use answers::{Answer, Refusal};
use layout::{Bytes, Table};
use numbers::Five;
use rows::Ranked;

// The most that a run takes and prints: a header of 2 bytes and 10,922 steps; a line for open and for
// each step, and the last line. A line is six numbers of at most ten digits, each with a byte behind it.
#[derive(Drop)]
pub struct Schedule;

impl Schedule {
    pub const HEADER: usize = 2;

    pub const STEP: usize = 6;

    pub const STEPS: u32 = 10922;

    pub const BUDGET: u16 = 903;

    pub const INPUT: usize = 65534;

    pub const LINE: usize = 66;

    pub const LISTING: usize = 720933;
}

// What a step asks for, by its number.
#[derive(Clone, Copy, Debug, PartialEq, Eq)]
pub enum Operation {
    Put,
    Get,
    Deliver,
    Drain,
}

impl From<u8> for Operation {
    ghost from_gives = { λ n o. o ≡ operation_of n };

    fn from(number: u8) -> Operation {
        match number {
            0 => Operation::Put,
            1 => Operation::Get,
            2 => Operation::Deliver,
            _ => Operation::Drain,
        }
    }
}

// A step of 48 bits.
#[derive(Clone, Copy)]
pub struct Step {
    // A number, since `play` promises an answer for each.
    pub operation: u8,
    pub site: u8,
    pub origin: u8,
    pub key: u8,
    pub value: u32,
}

// Operation (2 bits), site (3), origin (3), key (8), value (32).
#[tactic(auto, unfolding(crate::specs::Step::step_of))]
fn decode(step: &[u8; Schedule::STEP]) -> Step
    ensures { result ≡ step_of step.now }
{
    let [first, key, a, b, c, d] = *step;
    Step {
        operation: first >> 6,
        site: (first >> 3) % 8,
        origin: first % 8,
        key,
        value: u32::from_be_bytes([a, b, c, d]),
    }
}

// The fields that a put, a get, a deliver and a drain do not use are zero.
#[tactic(auto, unfolding(crate::specs::Step::unused_zero))]
fn unused_zero(p: Step) -> bool
    ensures { result ≡ unused_zero p }
{
    match Operation::from(p.operation) {
        Operation::Put => p.origin == 0,
        Operation::Get => p.origin == 0 && p.value == 0,
        Operation::Deliver => p.key == 0 && p.value == 0,
        Operation::Drain => p.origin == 0 && p.key == 0 && p.value == 0,
    }
}

#[tactic(auto, unfolding(crate::specs::Step::call_of))]
fn call(t: &mut [u8], p: Step) -> Answer
    ensures { served result t.new ≡ serve ours t.old (call_of p) }
{
    let site = usize::from(p.site);
    let key = usize::from(p.key);
    match Operation::from(p.operation) {
        Operation::Put => table::put(t, site, key, p.value, Ranked),
        Operation::Get => table::get(t, site, key, Ranked),
        Operation::Deliver => deliver::deliver(t, site, usize::from(p.origin), Ranked),
        Operation::Drain => drain::drain(t, site, Schedule::BUDGET, Ranked),
    }
}

// One step on a lent table; 12 comes before all others.
#[tactic(auto, unfolding(crate::specs::Step::played_on))]
pub fn play(t: &mut [u8], p: Step) -> Answer
    ensures { Promise t.old p (served result t.new) }
{
    if !unused_zero(p) {
        return Err(Refusal::Unused.into());
    }
    call(t, p)
}

// The lent bytes, since there is no heap, and how many are written, which the promises give. By hand: `write!` promises what
// it has written only where it answers Ok, and the promise of the listing holds always.
#[derive(Drop)]
struct Output<'a> {
    bytes: &'a mut [u8],
    written: usize,
}

impl Output<'_> {
    fn text(&mut self, text: &[u8])
        requires { Room self.old (length text.now) }
        ensures { Adds self.old text.now self.new }
    {
        let end = self.written + text.len();
        self.bytes[self.written..end].copy_from_slice(text);
        self.written = end;
    }

    // Two digits at a step, since each step asks anew how many bytes are written.
    #[tactic(auto, using(crate::proofs::Decimal::decimal_longer))]
    fn decimal(&mut self, n: u32)
        requires { Room self.old (length (decimal n)) }
        ensures { Adds self.old (decimal n) self.new }
    {
        let tens = n / 10;
        if tens >= 10 {
            self.decimal(tens / 10);
            self.text(&[b'0' + (tens % 10) as u8, b'0' + (n % 10) as u8]);
        } else if n >= 10 {
            self.text(&[b'0' + tens as u8, b'0' + (n % 10) as u8]);
        } else {
            self.text(&[b'0' + n as u8]);
        }
    }

    // A number in decimal and the byte behind it, at most 11 bytes. Most numbers of a line are one digit, written with it.
    #[tactic(auto, using(crate::proofs::Decimal::decimal_short))]
    fn word(&mut self, n: u32, behind: u8)
        requires { Room self.old 11 }
        ensures written { Adds self.old (word n behind) self.new }
        ensures upper_bound { self.new.written ≤ self.old.written + 11 }
    {
        if n < 10 {
            self.text(&[b'0' + n as u8, behind]);
        } else {
            self.decimal(n);
            self.text(&[behind]);
        }
    }

    // Step number, code, key, site, clock, value, in decimal with single spaces.
    fn line(&mut self, step: u32, answer: Answer)
        requires { Room self.old 66 }
        ensures written { Adds self.old (line step (numbers_of answer)) self.new }
        ensures upper_bound { self.new.written ≤ self.old.written + 66 }
    {
        let a = Five::from(answer);
        self.word(step, b' ');
        self.word(u32::from(a.code), b' ');
        self.word(u32::from(a.key), b' ');
        self.word(u32::from(a.site), b' ');
        self.word(u32::from(a.clock), b' ');
        self.word(a.value, b'\n');
    }

    // A last line: end and the steps, or cut and the bytes left.
    fn last_line(&mut self, text: &[u8; 4], n: u32)
        requires { Room self.old 15 }
        ensures { Adds self.old (text.now ++ word n 10) self.new }
    {
        self.text(text);
        self.word(n, b'\n');
    }

    // Plays a step and adds its line.
    fn step(&mut self, number: u32, step: &[u8; Schedule::STEP], t: &mut Bytes)
        requires { Room self.old 66 }
        ensures after { state_of t.new ≡ (played (state_of t.old) (step_of step.now)).after }
        ensures written { Adds self.old (line number (played (state_of t.old) (step_of step.now)).answer) self.new }
        ensures upper_bound { self.new.written ≤ self.old.written + 66 }
    {
        self.line(number, play(t, decode(step)));
    }

    // A line for each step, and the last.
    fn steps(&mut self, steps: &[u8], t: &mut Bytes)
        requires { Room self.old 720867 }
        ensures { Adds self.old (listed 10922 (state_of t.old) 0 steps.now) self.new }
    {
        let mut rest = steps;
        for i in 0..Schedule::STEPS {
            let Some((step, later)) = rest.split_first_chunk() else {
                return match rest.len() {
                    0 => self.last_line(b"end ", i),
                    left => self.last_line(b"cut ", left as u32),
                };
            };
            self.step(i + 1, step, t);
            rest = later;
        }
        self.last_line(b"end ", Schedule::STEPS);
    }
}

// An answer as a line by itself, and how long it is: the promise has the number beside the array.
pub fn write_answer(out: &mut [u8; Schedule::LINE], number: u32, a: Answer) -> usize
    ensures written { Written out.old 0 (line number (numbers_of a)) result out.new }
    ensures counts { Counts result out.new }
{
    let mut output = Output {
        bytes: out,
        written: 0,
    };
    output.line(number, a);
    output.written
}

// N zero bytes. The check would write out a literal as long as an input or a listing, so these are made here.
pub fn room<const N: usize>() -> [u8; N]
    ensures { Blank N result }
{
    [0; N]
}

// What a run of the input prints, and how long it is.
pub fn write_listing(input: &[u8], out: &mut [u8; Schedule::LISTING]) -> usize
    ensures written { Written out.old 0 (listing input.now) result out.new }
    ensures counts { Counts result out.new }
{
    let mut output = Output {
        bytes: out,
        written: 0,
    };
    let Some((&[n, k], steps)) = input.split_first_chunk::<{ Schedule::HEADER }>() else {
        output.last_line(b"cut ", input.len() as u32);
        return output.written;
    };
    let mut t = [0; Table::BYTES];
    let opened = table::open(&mut t, usize::from(n), usize::from(k));
    output.line(0, opened);
    if opened.is_ok() {
        output.steps(steps, &mut t);
    } else {
        output.last_line(b"end ", 0);
    }
    output.written
}
