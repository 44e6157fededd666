// The bytes of the table: numbers, clock vectors, entries and updates, read and written at their places.
#![tactic(auto)]

ghost use Rattle.std.specs.Prelude.{◌≡◌, refl, ◌↔◌, ℕ, ◌+◌, ◌*◌, ◌≤◌, ◌<◌, length};
ghost use Rattle.clock.specs.Map.{◌⟨◌≔◌⟩, ◌⟨◌⟩⟨◌≔◌⟩};
ghost use Rattle.clock.specs.Clock.{columns};
ghost use Rattle.layout.specs.State.{value, clock, last_clock, vector, square, fields, state_of, all_zero, with_counts, with_retired};
ghost use Rattle.layout.specs.Ranges.{Zeros};
ghost use Rattle.layout.specs.Parts as parts;
ghost use Rattle.layout.specs.Parts.{square_at, square_of, with_square, shelves_at, places, shelves_of, with_record};
ghost use Rattle.layout.specs.Records.{pair, quad, word, Headed, cells2, rows, fields_at, fields_of};

use clock::Clock;
use std::array;

// A table's bytes.
pub type Bytes = [u8; Table::BYTES];

// An entry or an update: tag is the entry's origin or the update's key, zero its zero byte. An entry of clock 0 was never
// written: the table's own mark, whose zeros a get hands on.
#[derive(Clone, Copy)]
pub struct Record {
    pub value: u32,
    pub tag: u8,
    pub zero: u8,
    pub clock: u16,
    pub depends: Clock,
}

#[derive(Clone, Copy)]
pub struct Header {
    pub n: u8,
    pub k: u8,
    pub retired: u8,
    pub byte3: u8,
}

#[derive(Drop)]
pub struct Table;

impl Table {
    pub const SITES: usize = 8;

    pub const KEYS: usize = 64;

    pub const PLACES: usize = 16;

    pub const LAST_CLOCK: u16 = 65535;

    // How many bytes a value, a clock, a vector and a square take.
    pub const VALUE: usize = 4;

    pub const CLOCK: usize = 2;

    pub const VECTOR: usize = Table::SITES * Table::CLOCK;

    pub const SQUARE: usize = Table::SITES * Table::VECTOR;

    // Bytes that are read at once.
    pub const QUAD: usize = 4;

    pub const WORD: usize = Table::QUAD + Table::QUAD;

    // Where the fields of a record stand in it: its value, its tag, its zero byte, its clock, its vector.
    pub const RECORD_VALUE: usize = 0;

    pub const RECORD_TAG: usize = Table::RECORD_VALUE + Table::VALUE;

    pub const RECORD_ZERO: usize = Table::RECORD_TAG + 1;

    pub const RECORD_CLOCK: usize = Table::RECORD_ZERO + 1;

    pub const RECORD_VECTOR: usize = Table::RECORD_CLOCK + Table::CLOCK;

    pub const RECORD: usize = Table::RECORD_VECTOR + Table::VECTOR;

    // Between the two words of a record's vector.
    pub const RECORD_MIDDLE: usize = Table::RECORD_VECTOR + Table::WORD;

    // The entries of a site, and the updates of an origin.
    pub const SHELF: usize = Table::KEYS * Table::RECORD;

    pub const QUEUE: usize = Table::PLACES * Table::RECORD;

    // Where the parts of the table stand in it: the header's four bytes, the squares, the store, the updates.
    pub const SITE_COUNT: usize = 0;

    pub const KEY_COUNT: usize = 1;

    pub const RETIRED: usize = 2;

    pub const BYTE_3: usize = 3;

    pub const APPLIED: usize = 4;

    pub const DEPENDS: usize = Table::APPLIED + Table::SQUARE;

    pub const STORE: usize = Table::DEPENDS + Table::SQUARE;

    pub const UPDATES: usize = Table::STORE + Table::SITES * Table::SHELF;

    pub const BYTES: usize = Table::UPDATES + Table::SITES * Table::QUEUE;

    // A table is cleared by blocks of a square and the four bytes behind it.
    pub const BLOCK: usize = Table::SQUARE + Table::APPLIED;

    pub const BLOCKS: usize = (Table::BYTES - Table::APPLIED) / Table::SQUARE;
}

// One for each width: a trait would have the same line in each impl. Byte by byte, since an array of a part of a slice would
// be one more test.
pub fn read_clock(s: &[u8]) -> u16
    requires { length s.now ≡ clock.width }
    ensures { result ≡ clock.dec s.now }
{
    u16::from_be_bytes([s[0], s[1]])
}

fn read_value(s: &[u8]) -> u32
    requires { length s.now ≡ value.width }
    ensures { result ≡ value.dec s.now }
{
    u32::from_be_bytes([s[0], s[1], s[2], s[3]])
}

// Two, four and eight bytes at once, where only zero or not matters. The last byte counts most, so that the processor
// reads them in one step. One for each width, as std has them: a loop over the bytes would be longer than all three.
pub fn read_pair(s: &[u8]) -> u16
    requires { length s.now ≡ pair }
    ensures { (result ≡ 0) ↔ Zeros s.now }
{
    u16::from_le_bytes([s[0], s[1]])
}

pub fn read_quad(s: &[u8]) -> u32
    requires { length s.now ≡ quad }
    ensures { (result ≡ 0) ↔ Zeros s.now }
{
    u32::from_le_bytes([s[0], s[1], s[2], s[3]])
}

pub fn read_word(s: &[u8]) -> u64
    requires { length s.now ≡ word }
    ensures { (result ≡ 0) ↔ Zeros s.now }
{
    u64::from_le_bytes([s[0], s[1], s[2], s[3], s[4], s[5], s[6], s[7]])
}

fn write_clock(s: &mut [u8], v: u16)
    requires { length s.old ≡ clock.width }
    ensures { clock.dec s.new ≡ v }
{
    s.copy_from_slice(&v.to_be_bytes());
}

fn write_value(s: &mut [u8], v: u32)
    requires { length s.old ≡ value.width }
    ensures { value.dec s.new ≡ v }
{
    s.copy_from_slice(&v.to_be_bytes());
}

fn read_vector(s: &[u8]) -> Clock
    requires { length s.now ≡ vector.width }
    ensures { columns result ≡ vector.dec s.now }
{
    Clock {
        col: array::from_fn(|i| {
            let at = i * Table::CLOCK;
            read_clock(&s[at..at + Table::CLOCK])
        }),
    }
}

// By index: for a zip of chunks the proof did not close.
fn write_vector(s: &mut [u8], c: Clock)
    requires { length s.old ≡ vector.width }
    ensures { vector.dec s.new ≡ columns c }
{
    for i in 0..Table::SITES {
        let at = i * Table::CLOCK;
        write_clock(&mut s[at..at + Table::CLOCK], c.col[i]);
    }
}

// The rows from `from` on and below `to` of a square of eight rows by eight columns. By index, since both ends are asked.
fn read_rows(s: &[u8], from: usize, to: usize) -> [[u16; 8]; 8]
    requires { (length s.now ≡ square.width) × (from ≤ to) × (to ≤ 8) }
    ensures { cells2 result ≡ rows from to (square.dec s.now) }
{
    let mut a = [[0; 8]; 8];
    for i in from..to {
        let at = i * Table::VECTOR;
        let Clock { col } = read_vector(&s[at..at + Table::VECTOR]);
        a[i] = col;
    }
    a
}

fn read_record(s: &[u8]) -> Record
    requires { length s.now ≡ fields.width }
    ensures { fields_of result ≡ fields_at s.now }
{
    Record {
        value: read_value(&s[Table::RECORD_VALUE..Table::RECORD_TAG]),
        tag: s[Table::RECORD_TAG],
        zero: s[Table::RECORD_ZERO],
        clock: read_clock(&s[Table::RECORD_CLOCK..Table::RECORD_VECTOR]),
        depends: read_vector(&s[Table::RECORD_VECTOR..Table::RECORD]),
    }
}

// An entry or an update is written whole.
fn write_record(s: &mut [u8], r: Record)
    requires { length s.old ≡ fields.width }
    ensures { fields_at s.new ≡ fields_of r }
{
    write_value(&mut s[Table::RECORD_VALUE..Table::RECORD_TAG], r.value);
    s[Table::RECORD_TAG] = r.tag;
    s[Table::RECORD_ZERO] = r.zero;
    write_clock(&mut s[Table::RECORD_CLOCK..Table::RECORD_VECTOR], r.clock);
    write_vector(&mut s[Table::RECORD_VECTOR..Table::RECORD], r.depends);
}

// The header: n, k and the two bytes after them.
pub fn read_header(t: &Bytes) -> Header
    ensures { Headed result (state_of t.now) }
{
    Header {
        n: t[Table::SITE_COUNT],
        k: t[Table::KEY_COUNT],
        retired: t[Table::RETIRED],
        byte3: t[Table::BYTE_3],
    }
}

pub fn set_counts(t: &mut Bytes, n: u8, k: u8)
    ensures { state_of t.new ≡ with_counts (state_of t.old) n k }
{
    t[Table::SITE_COUNT] = n;
    t[Table::KEY_COUNT] = k;
}

pub fn set_retired(t: &mut Bytes, retired: u8)
    ensures { state_of t.new ≡ with_retired (state_of t.old) retired }
{
    t[Table::RETIRED] = retired;
}

// All bytes zero. The blocks overlap, or the compiler would make of them a call of the host's memset.
pub fn clear(t: &mut Bytes)
    ensures { state_of t.new ≡ all_zero }
{
    for i in 0..Table::BLOCKS {
        let at = i * Table::SQUARE;
        t[at..at + Table::BLOCK].fill(0);
    }
}

// A square of eight rows by eight columns in the table, a row for each site.
pub trait Square {
    const AT: usize;

    ghost AT: { ℕ };

    ghost which: { parts.Square };

    ghost begins: { AT ≡ square_at which };
}

// How many puts of each origin a site has applied.
pub struct Applied;

impl Square for Applied {
    const AT: usize = Table::APPLIED;

    ghost AT = { square_at parts.applied };

    ghost which = { parts.applied };

    ghost begins = { refl };
}

// What a site depends on.
pub struct Depends;

impl Square for Depends {
    const AT: usize = Table::DEPENDS;

    ghost AT = { square_at parts.depends };

    ghost which = { parts.depends };

    ghost begins = { refl };
}

// Where a number of a square stands. Here and above, a site below 8 and a key below 64 are asked as an index is: a type for
// them would be made anew at every turn of a loop over sites.
pub fn place<Q: Square>(s: usize, o: usize) -> usize
    requires { (s < 8) × (o < 8) }
    ensures { result ≡ square_at Q.which + (s * 8 + o) * clock.width }
{
    Q::AT + (s * Table::SITES + o) * Table::CLOCK
}

// Its rows from one on and below another, as an array of arrays, which document 01 names; zeros elsewhere.
pub fn rows<Q: Square>(t: &Bytes, from: usize, to: usize) -> [[u16; 8]; 8]
    requires { (from ≤ to) × (to ≤ 8) }
    ensures { cells2 result ≡ rows from to (square_of Q.which (state_of t.now)) }
{
    let at = Q::AT;
    read_rows(&t[at..at + Table::SQUARE], from, to)
}

// One number of it.
pub fn at<Q: Square>(t: &Bytes, s: usize, o: usize) -> u16
    requires { (s < 8) × (o < 8) }
    ensures { result ≡ square_of Q.which (state_of t.now) s o }
{
    let at = place::<Q>(s, o);
    read_clock(&t[at..at + Table::CLOCK])
}

pub fn set<Q: Square>(t: &mut Bytes, s: usize, o: usize, c: u16)
    requires { (s < 8) × (o < 8) }
    ensures { state_of t.new ≡ with_square Q.which (state_of t.old) ((square_of Q.which (state_of t.old)) ⟨ s ⟩⟨ o ≔ c ⟩) }
{
    let at = place::<Q>(s, o);
    write_clock(&mut t[at..at + Table::CLOCK], c);
}

pub fn set_row<Q: Square>(t: &mut Bytes, s: usize, v: Clock)
    requires { s < 8 }
    ensures { state_of t.new ≡ with_square Q.which (state_of t.old) ((square_of Q.which (state_of t.old)) ⟨ s ≔ columns v ⟩) }
{
    let at = Q::AT + s * Table::VECTOR;
    write_vector(&mut t[at..at + Table::VECTOR], v);
}

// Eight shelves of records in the table, each with as many places: apart from squares, whose numbers are read and written
// another way.
pub trait Shelves {
    const AT: usize;

    const PLACES: usize;

    ghost AT: { ℕ };

    ghost PLACES: { ℕ };

    ghost which: { parts.Shelves };

    ghost begins: { AT ≡ shelves_at which };

    ghost holds: { PLACES ≡ places which };
}

// The entries of each site, by key.
pub struct Entries;

impl Shelves for Entries {
    const AT: usize = Table::STORE;

    const PLACES: usize = Table::KEYS;

    ghost AT = { shelves_at parts.entries };

    ghost PLACES = { 64 };

    ghost which = { parts.entries };

    ghost begins = { refl };

    ghost holds = { refl };
}

// The updates of each origin, by place.
pub struct Updates;

impl Shelves for Updates {
    const AT: usize = Table::UPDATES;

    const PLACES: usize = Table::PLACES;

    ghost AT = { shelves_at parts.updates };

    ghost PLACES = { 16 };

    ghost which = { parts.updates };

    ghost begins = { refl };

    ghost holds = { refl };
}

// Where a record of a shelf stands.
pub fn record_place<R: Shelves>(s: usize, x: usize) -> usize
    requires { (s < 8) × (x < places R.which) }
    ensures { result ≡ shelves_at R.which + (s * places R.which + x) * fields.width }
{
    R::AT + (s * R::PLACES + x) * Table::RECORD
}

pub fn record_at<R: Shelves>(t: &Bytes, s: usize, x: usize) -> Record
    requires { (s < 8) × (x < places R.which) }
    ensures { fields_of result ≡ shelves_of R.which (state_of t.now) s x }
{
    let at = record_place::<R>(s, x);
    read_record(&t[at..at + Table::RECORD])
}

pub fn set_record<R: Shelves>(t: &mut Bytes, s: usize, x: usize, r: Record)
    requires { (s < 8) × (x < places R.which) }
    ensures { state_of t.new ≡ with_record R.which (state_of t.old) s x (fields_of r) }
{
    let at = record_place::<R>(s, x);
    write_record(&mut t[at..at + Table::RECORD], r);
}
