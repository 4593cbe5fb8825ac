// Runs of names in bytes: where a name stands beside a run, and the names of a run written. 02, P2: "names differ only in the last
// offset, each one more than the one before"; the definitions are in specs/.

#![tactic(auto)]

ghost use Rattle.std.specs.Prelude.{◌≡◌, true, ℕ, ◌+◌, ◌*◌, ◌-◌, ◌≤◌, ◌<◌, length, take, drop, pos};
ghost use Rattle.names.specs.Ordering.{compare_rows};
ghost use Rattle.std.specs.Ordering.{is_eq};
ghost use Rattle.names.specs.Names.{is_name, limit};
ghost use Rattle.numbers.specs.Bytes.{at32, put};
ghost use Rattle.slots.specs.Tuples.{tuple_at, tuples_at, row_at, Within, Lies, tuple_size, row_bytes};
ghost use Rattle.slots.specs.Slots.{slot_size, slot_bytes};
ghost use Rattle.runs.specs.Runs.{onward};
ghost use Rattle.runs.specs.Beside.{decided, compare_fronts, by_offsets, beside_of, same_but_last};

use slots::{HEAD, OFFSET, SEQUENCE, Span, TUPLE, WORDS};
use std::cmp::Ordering;

// Where a name stands beside a run.
#[derive(Clone, Copy, Debug, PartialEq, Eq)]
pub enum Stand {
    // Below all of its names.
    Below,
    // The same, and right before the first: with it the run would be one longer.
    Before,
    // The name that comes so many after the first.
    At(usize),
    // Deeper than that name: it begins with it.
    Beyond(usize),
    // Above all names that the run could have.
    Above,
}

// The offset's own bytes, at the end of a tuple.
pub const OFFSET_SIZE: usize = 4;

// By two offsets of tuples that are equal otherwise, the first that of a run's first name; `ends` is whether the second is a name's last.
fn beside_offsets(x: i32, y: i32, ends: bool) -> Stand
    requires { (n : ℕ) × (x ≡ pos n) }
    ensures { result ≡ by_offsets x y ends }
{
    if y < x {
        return if ends && y + 1 == x {
            Stand::Before
        } else {
            Stand::Below
        };
    }
    // `as`: it fits, since it is not below 0.
    let i = (y - x) as usize;
    if ends { Stand::At(i) } else { Stand::Beyond(i) }
}

// By the tuples at p and q, the first that of a run's first name, its last; all before them are equal.
fn beside_tuples(a: &[u8], p: usize, b: &[u8], q: usize, ends: bool) -> Stand
    requires { (p + tuple_size ≤ length a.now) × (q + tuple_size ≤ length b.now) × ((n : ℕ) × ((tuple_at a.now p).offset ≡ pos n)) }
    ensures { result ≡ decided (compare_fronts (tuple_at a.now p) (tuple_at b.now q)) (by_offsets (tuple_at a.now p).offset (tuple_at b.now q).offset ends) }
{
    let x = numbers::read_u64(a, p);
    let y = numbers::read_u64(b, q);
    if x == y {
        return beside_offsets(
            numbers::to_signed(numbers::read_u32(a, p + OFFSET)),
            numbers::to_signed(numbers::read_u32(b, q + OFFSET)),
            ends,
        );
    }
    if x < y { Stand::Above } else { Stand::Below }
}

// Where the name at y stands beside the run whose first name stands at x: "Names compare at the first tuple that differs", up to the last of
// the run's first name, which is told apart.
pub fn beside(a: &[u8], x: Span, b: &[u8], y: Span) -> Stand
    requires { Within a.now x × (is_name (row_at a.now x) ≡ true) × (1 ≤ x.count) × Within b.now y }
    ensures { result ≡ beside_of (row_at a.now x) (row_at b.now y) }
{
    let last = x.count - 1;
    if y.count <= last {
        return match slots::compare_rows(a, x.at, last, b, y.at, y.count) {
            Ordering::Less => Stand::Above,
            Ordering::Equal | Ordering::Greater => Stand::Below,
        };
    }
    match slots::compare_rows(a, x.at, last, b, y.at, last) {
        Ordering::Less => Stand::Above,
        Ordering::Equal => beside_tuples(
            a,
            x.at + TUPLE * last,
            b,
            y.at + TUPLE * last,
            y.count == x.count,
        ),
        Ordering::Greater => Stand::Below,
    }
}

// The n tuples at p and those at q "differ only in the last offset", or not even there.
pub fn same_but_last(a: &[u8], p: usize, b: &[u8], q: usize, n: usize) -> bool
    requires { (1 ≤ n) × (p + tuple_size * n ≤ length a.now) × (q + tuple_size * n ≤ length b.now) }
    ensures { result ≡ same_but_last (tuples_at a.now p n) (tuples_at b.now q n) }
{
    let before = n - 1;
    numbers::read_u64(a, p + TUPLE * before) == numbers::read_u64(b, q + TUPLE * before)
        && slots::compare_rows(a, p, before, b, q, before).is_eq()
}

// Of two names of n tuples the one at q comes k after the one at p. What differs most often is asked first.
pub fn is_onward(a: &[u8], p: usize, b: &[u8], q: usize, n: usize, k: u32) -> bool
    requires n_in_bounds { (p + tuple_size * n ≤ length a.now) × (q + tuple_size * n ≤ length b.now) × (k < 2147483648) }
    requires n_value { (is_name (tuples_at a.now p n) ≡ true) × (is_name (tuples_at b.now q n) ≡ true) }
    ensures { result ≡ is_eq (compare_rows (onward k (tuples_at a.now p n)) (tuples_at b.now q n)) }
{
    let last = TUPLE * n - OFFSET_SIZE;
    numbers::read_u32(b, q + last) == numbers::read_u32(a, p + last) + k
        && same_but_last(a, p, b, q, n)
}

// The tuples of the name that comes k after the one at x, one after the other from p on: copied as bytes, and the last offset over them.
pub fn copy_onward(out: &mut [u8], p: usize, s: &[u8], x: Span, k: u32)
    requires { Lies s.now x × (1 ≤ x.count) × (p + tuple_size * x.count ≤ length out.old) × (at32 s.now (x.at + tuple_size * x.count - 4) + k < 2147483648) }
    ensures { out.new ≡ put out.old p (row_bytes (onward k (row_at s.now x))) }
{
    slots::copy_row(out, p, s, x.at, x.count);
    let size = TUPLE * x.count;
    let offset = numbers::read_u32(s, x.at + size - OFFSET_SIZE);
    numbers::write_u32(out, p + size - OFFSET_SIZE, offset + k);
}

// The bytes of the tuple that stands at `at` in s, written at p in out: everything is read before anything is written. This is slots' `copy_one`
// again, apart from it so that it has one caller and becomes part of the loop.
fn copy_tuple(out: &mut [u8], p: usize, s: &[u8], at: usize)
    requires { (p + tuple_size ≤ length out.old) × (at + tuple_size ≤ length s.now) }
    ensures { out.new ≡ put out.old p (take tuple_size (drop at s.now)) }
{
    let x = numbers::read_u32(s, at);
    let y = numbers::read_u32(s, at + SEQUENCE);
    let z = numbers::read_u32(s, at + OFFSET);
    numbers::write_u32(out, p, x);
    numbers::write_u32(out, p + SEQUENCE, y);
    numbers::write_u32(out, p + OFFSET, z);
}

// The n tuples that stand from `at` on in s, written from p on in out, as slots::copy_row writes them: one after the other. This is short
// enough, and has one caller, to become part of the loop that writes a run's slots.
fn copy_tuples(out: &mut [u8], p: usize, s: &[u8], at: usize, n: usize)
    requires { (n ≤ limit) × (p + tuple_size * n ≤ length out.old) × (at + tuple_size * n ≤ length s.now) }
    ensures { out.new ≡ put out.old p (row_bytes (tuples_at s.now at n)) }
{
    for k in 0..n {
        copy_tuple(out, p + TUPLE * k, s, at + TUPLE * k);
    }
}

// A slot from p on, of the name that comes k after the one at x.
pub fn copy_slot_onward(out: &mut [u8], p: usize, line: u32, s: &[u8], x: Span, k: u32)
    requires { Lies s.now x × (1 ≤ x.count) × (p + slot_size ≤ length out.old) × (at32 s.now (x.at + tuple_size * x.count - 4) + k < 2147483648) }
    ensures { out.new ≡ put out.old p (slot_bytes (record { line = line; name = onward k (row_at s.now x) })) }
{
    slots::write_head(out, p, x.count, line);
    numbers::write_zeros(out, p + HEAD, WORDS);
    copy_tuples(out, p + HEAD, s, x.at, x.count);
    let size = TUPLE * x.count;
    let offset = numbers::read_u32(s, x.at + size - OFFSET_SIZE);
    numbers::write_u32(out, p + HEAD + size - OFFSET_SIZE, offset + k);
}
