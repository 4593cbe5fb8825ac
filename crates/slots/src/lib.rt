// Slots as bytes: tuples and names read and compared where they stand, the check of a slot's layout, and a slot written.
// Document 01, "Pages, logs, epochs"; the definitions are in specs/.

#![tactic(auto)]

ghost use Rattle.std.specs.Prelude.{◌≡◌, ◌+◌, ◌-◌, ◌*◌, ◌%◌, ◌<◌, ◌≤◌, min, true, false, ◌&&◌, [], ◌∷◌, ◌++◌, length, take, drop, replicate, pos, negsuc, ◌==◌};
ghost use Rattle.names.specs.Ordering.{compare_ℕ, compare_tuples, compare_rows};
ghost use Rattle.std.specs.Ordering.{ordering_then, is_lt, is_eq};
ghost use Rattle.names.specs.Names.{limit, row_of, ordinary, ordinary_from, marker, is_name, within_ℤ};
ghost use Rattle.numbers.specs.Bytes.{signed, all_zero, bytes32, put};
ghost use Rattle.slots.specs.Tuples.{tuple_at, tuples_at, row_at, Lies, tuple_size, tuple_bytes, row_bytes};
ghost use Rattle.slots.specs.Slots.{head_size, size_over, name_over, slot_size, depth_of, line_of, slot_bytes};
ghost use Rattle.slots.specs.Looks.{leads, head_over, seen_after};

use names::{LIMIT, Name, Tuple};
use std::cmp::Ordering;

// The bytes of a tuple; of depth, three zeros and line number; and of a slot.
pub const TUPLE: usize = 12;

pub const HEAD: usize = 8;

pub const SLOT: usize = HEAD + TUPLE * LIMIT;

// Where a name stands in some bytes: `count` tuples from `at` on. A name that is missing has none.
#[derive(Clone, Copy, Debug, PartialEq, Eq)]
pub struct Span {
    pub at: usize,
    pub count: usize,
}

// What one look at slots tells: that one breaks its layout; else whether the names rise.
#[derive(Clone, Copy, Debug, PartialEq, Eq)]
pub enum Seen {
    Broken,
    NotRising,
    Rising,
}

// How many tuples are looked at or copied in one run, where there are a few and where there are many. Two runs of many are as long as a
// name can be.
const FEW: usize = 4;

const MANY: usize = 8;

// The words of four bytes of as many tuples as a name can have.
pub const WORDS: usize = TUPLE * LIMIT / 4;

// Where the line number stands in a slot, and node, sequence and offset in a tuple, after its position.
pub const LINE: usize = 4;

const NODE: usize = 2;

pub const SEQUENCE: usize = 4;

pub const OFFSET: usize = 8;

// Numbers of two bytes are below the first, and numbers of three below the second.
const TWO_BYTES: u32 = 65536;

const THREE_BYTES: u32 = 16777216;

// "An ordinary tuple has position 1..65534"
const LAST_POSITION: u32 = 65534;

// "M = (65535, 65535, 4294967295, 2147483647)": position, node and sequence as one number, and the offset.
const HIGH_FRONT: u64 = 18446744073709551615;

const HIGH_OFFSET: u32 = 2147483647;

// Offsets whose bits are this or more are below 0.
pub const NEGATIVE: u32 = 2147483648;

pub fn read_tuple(s: &[u8], p: usize) -> Tuple
    requires { p + tuple_size ≤ length s.now }
    ensures { result ≡ tuple_at s.now p }
{
    let position = numbers::read_u16(s, p);
    let node = numbers::read_u16(s, p + NODE);
    let sequence = numbers::read_u32(s, p + SEQUENCE);
    let offset = numbers::to_signed(numbers::read_u32(s, p + OFFSET));
    Tuple {
        position,
        node,
        sequence,
        offset,
    }
}

// The name of the n tuples from p on.
pub fn read_row(s: &[u8], p: usize, n: usize) -> Name
    requires { (n ≤ limit) × (p + tuple_size * n ≤ length s.now) }
    ensures { row_of result ≡ tuples_at s.now p n }
{
    let zero = Tuple {
        position: 0,
        node: 0,
        sequence: 0,
        offset: 0,
    };
    let mut tuples = [zero; LIMIT];
    for k in 0..n {
        tuples[k] = read_tuple(s, p + TUPLE * k);
    }
    Name { depth: n, tuples }
}

// How many of the tuples of a slot with room for so many are the name's.
pub fn depth_over(s: &[u8], room: usize) -> usize
    requires { 0 < length s.now }
    ensures { result ≡ min (depth_of s.now) room }
{
    usize::from(s[0]).min(room)
}

// How many of a slot's tuples are the name's.
pub fn depth(s: &[u8]) -> usize
    requires { 0 < length s.now }
    ensures { result ≡ min (depth_of s.now) limit }
{
    depth_over(s, LIMIT)
}

// The line number in a slot.
pub fn read_line(s: &[u8]) -> u32
    requires { length s.now ≡ slot_size }
    ensures { result ≡ line_of s.now }
{
    numbers::read_u32(s, LINE)
}

// Position, node and sequence of a tuple as one number, as its first eight bytes are: these compare as that number does.
fn front(t: Tuple) -> u64
    ensures { result ≡ (t.position * 65536 + t.node) * 4294967296 + t.sequence }
{
    (u64::from(t.position) * 65536 + u64::from(t.node)) * 4294967296 + u64::from(t.sequence)
}

// An offset's bits, raised by 2^31: offsets, "signed", compare as these numbers do.
fn raised(o: u32) -> u32
    ensures { result ≡ (o + 2147483648) % 4294967296 }
{
    o.wrapping_add(NEGATIVE)
}

// Two tuples, each by its first eight bytes and its offset raised. Equal ones are told first: the compiler compares the bytes as they
// stand, and swaps only those of two that differ.
fn compare_parts(x: u64, u: u32, y: u64, v: u32) -> Ordering
    ensures { result ≡ ordering_then (compare_ℕ x y) (compare_ℕ u v) }
{
    if x == y {
        return u.cmp(&v);
    }
    x.cmp(&y)
}

// The tuples that stand at p and at q.
fn compare_tuples(a: &[u8], p: usize, b: &[u8], q: usize) -> Ordering
    requires { (p + tuple_size ≤ length a.now) × (q + tuple_size ≤ length b.now) }
    ensures { result ≡ compare_tuples (tuple_at a.now p) (tuple_at b.now q) }
{
    compare_parts(
        numbers::read_u64(a, p),
        raised(numbers::read_u32(a, p + OFFSET)),
        numbers::read_u64(b, q),
        raised(numbers::read_u32(b, q + OFFSET)),
    )
}

// The tuple that stands at p, compared with t.
fn compare_tuple(a: &[u8], p: usize, t: Tuple) -> Ordering
    requires { p + tuple_size ≤ length a.now }
    ensures { result ≡ compare_tuples (tuple_at a.now p) t }
{
    compare_parts(
        numbers::read_u64(a, p),
        raised(numbers::read_u32(a, p + OFFSET)),
        front(t),
        raised(numbers::to_unsigned(t.offset)),
    )
}

// Where the shorter of two rows has ended, the longer is the greater: "a proper prefix is smaller".
#[tactic(auto, using(names::proofs::DerivedOrder::nat_is))]
fn compare_lengths(n: usize, m: usize) -> Ordering
    ensures { result ≡ compare_ℕ n m }
{
    n.cmp(&m)
}

// "Names compare at the first tuple that differs; a proper prefix is smaller": the n tuples from p on in a with the m from q on in b, where
// they stand. Names in bytes are compared here, but for `compare_to_one` and `follows`.
pub fn compare_rows(a: &[u8], p: usize, n: usize, b: &[u8], q: usize, m: usize) -> Ordering
    requires { (p + tuple_size * n ≤ length a.now) × (q + tuple_size * m ≤ length b.now) }
    ensures { result ≡ compare_rows (tuples_at a.now p n) (tuples_at b.now q m) }
{
    let most = n.min(m);
    let mut i = 0;
    // No `for`: 01 names the form of this place, "a loop that yields by break the index or the ordering at the first difference".
    loop {
        if most <= i {
            break compare_lengths(n, m);
        }
        let order = compare_tuples(a, p + TUPLE * i, b, q + TUPLE * i);
        if order.is_ne() {
            break order;
        }
        i += 1;
    }
}

// The tuples that stand at p and at q are equal. All is read before it is tested, and nothing swapped.
fn same_tuples(a: &[u8], p: usize, b: &[u8], q: usize) -> bool
    requires { (p + tuple_size ≤ length a.now) × (q + tuple_size ≤ length b.now) }
    ensures { result ≡ is_eq (compare_tuples (tuple_at a.now p) (tuple_at b.now q)) }
{
    compare_tuples(a, p, b, q).is_eq()
}

// How many tuples from the first on are equal in two rows: up to "the first tuple that differs", or all of the shorter.
fn alike(a: &[u8], p: usize, n: usize, b: &[u8], q: usize, m: usize) -> usize
    requires { (p + tuple_size * n ≤ length a.now) × (q + tuple_size * m ≤ length b.now) }
    ensures upper_bound { (result ≤ n) × (result ≤ m) × (tuples_at a.now p result ≡ tuples_at b.now q result) }
    ensures result_value { result < n → result < m → is_eq (compare_tuples (tuple_at a.now (p + tuple_size * result)) (tuple_at b.now (q + tuple_size * result))) ≡ false }
{
    let most = n.min(m);
    let mut i = 0;
    // No `for`: "a loop that yields by break the index", as in `compare_rows`.
    loop {
        if most <= i {
            break i;
        }
        if !same_tuples(a, p + TUPLE * i, b, q + TUPLE * i) {
            break i;
        }
        i += 1;
    }
}

// The n tuples from p on, compared with the name of one tuple.
pub fn compare_to_one(a: &[u8], p: usize, n: usize, t: Tuple) -> Ordering
    requires { p + tuple_size * n ≤ length a.now }
    ensures { result ≡ compare_rows (tuples_at a.now p n) (t ∷ []) }
{
    if n == 0 {
        return Ordering::Less;
    }
    compare_tuple(a, p, t).then(n.cmp(&1))
}

// The names of two slots with room for so many tuples compared.
pub fn compare_slots(a: &[u8], b: &[u8], room: usize) -> Ordering
    requires { (length a.now ≡ size_over room) × (length b.now ≡ size_over room) }
    ensures { result ≡ compare_rows (name_over room a.now) (name_over room b.now) }
{
    compare_rows(a, HEAD, depth_over(a, room), b, HEAD, depth_over(b, room))
}

// Offsets -1..2147483646, by their bits: raised by one, with -1 at 0, they end at M's offset.
fn offset_ok(o: u32) -> bool
    ensures { result ≡ within_ℤ (negsuc 0) (pos 2147483646) (signed o) }
{
    o.wrapping_add(1) <= HIGH_OFFSET
}

// An ordinary tuple stands at p. Position and node are read at once, the lowest byte first: a position of 0 or 65535 reads the same either
// way round, and so does a node of 0.
fn ordinary_at(s: &[u8], p: usize) -> bool
    requires { p + tuple_size ≤ length s.now }
    ensures { result ≡ ordinary (tuple_at s.now p) }
{
    let both = numbers::read_low32(s, p);
    let position = both % TWO_BYTES;
    if position < 1 || LAST_POSITION < position || both < TWO_BYTES {
        return false;
    }
    offset_ok(numbers::read_u32(s, p + OFFSET))
}

// An ordinary tuple with an offset of at least 0 stands at p.
fn last_at(s: &[u8], p: usize) -> bool
    requires { p + tuple_size ≤ length s.now }
    ensures { result ≡ ordinary_from (pos 0) (tuple_at s.now p) }
{
    ordinary_at(s, p) && numbers::read_u32(s, p + OFFSET) < NEGATIVE
}

// One of the two end markers stands at p.
pub fn marker_at(s: &[u8], p: usize) -> bool
    requires { p + tuple_size ≤ length s.now }
    ensures { result ≡ marker (tuple_at s.now p) }
{
    let front = numbers::read_u64(s, p);
    let offset = numbers::read_u32(s, p + OFFSET);
    (front == 0 && offset == 0) || (front == HIGH_FRONT && offset == HIGH_OFFSET)
}

// The n tuples from p on are such as a name begins with, where the first k are known to be: the first is ordinary, and markers may stand
// after it.
fn leads_from(s: &[u8], p: usize, n: usize, k: usize) -> bool
    requires { (p + tuple_size * n ≤ length s.now) × (leads (tuples_at s.now p k) ≡ true) }
    ensures { result ≡ leads (tuples_at s.now p n) }
{
    for i in k..n {
        let at = p + TUPLE * i;
        if !(ordinary_at(s, at) || (0 < i && marker_at(s, at))) {
            return false;
        }
    }
    true
}

// The n tuples from p on are a name, where the first k are known to begin one. The last is tested before the others, so that each tuple is
// tested once; most names have no others.
fn name_from(s: &[u8], p: usize, n: usize, k: usize) -> bool
    requires { (1 ≤ n) × (n ≤ limit) × (p + tuple_size * n ≤ length s.now) × (leads (tuples_at s.now p k) ≡ true) }
    ensures { result ≡ is_name (tuples_at s.now p n) }
{
    let last = n - 1;
    last_at(s, p + TUPLE * last) && leads_from(s, p, last, k)
}

// The n tuples from p on are a name.
pub fn is_name_at(s: &[u8], p: usize, n: usize) -> bool
    requires { (1 ≤ n) × (n ≤ limit) × (p + tuple_size * n ≤ length s.now) }
    ensures { result ≡ is_name (tuples_at s.now p n) }
{
    name_from(s, p, n, 0)
}

// Of two rows whose first i tuples are equal, and no more, the first is below the second: "Names compare at the first tuple that differs; a
// proper prefix is smaller".
fn rises_at(a: &[u8], p: usize, n: usize, s: &[u8], q: usize, d: usize, i: usize) -> bool
    requires n_in_bounds { (p + tuple_size * n ≤ length a.now) × (q + tuple_size * d ≤ length s.now) × (i ≤ n) × (i ≤ d) }
    requires i_value { (tuples_at a.now p i ≡ tuples_at s.now q i) × (i < n → i < d → is_eq (compare_tuples (tuple_at a.now (p + tuple_size * i)) (tuple_at s.now (q + tuple_size * i))) ≡ false) }
    ensures { result ≡ is_lt (compare_rows (tuples_at a.now p n) (tuples_at s.now q d)) }
{
    i < d && (n <= i || compare_tuples(a, p + TUPLE * i, s, q + TUPLE * i).is_lt())
}

// The d tuples from q on are a name, above the n from p on, which begin one or are none: what the two share is looked at once.
pub fn follows(a: &[u8], p: usize, n: usize, s: &[u8], q: usize, d: usize) -> bool
    requires n_in_bounds { (p + tuple_size * n ≤ length a.now) × (leads (tuples_at a.now p n) ≡ true) }
    requires le_d { (1 ≤ d) × (d ≤ limit) × (q + tuple_size * d ≤ length s.now) }
    ensures { result ≡ (is_name (tuples_at s.now q d) && is_lt (compare_rows (tuples_at a.now p n) (tuples_at s.now q d))) }
{
    let i = alike(a, p, n, s, q, d);
    name_from(s, q, d, i) && rises_at(a, p, n, s, q, d, i)
}

// The bytes of a tuple's place are zero. Everything is read before it is tested: the compiler then makes one test of both.
fn zero_at(s: &[u8], p: usize) -> bool
    requires { p + tuple_size ≤ length s.now }
    ensures { result ≡ all_zero (take tuple_size (drop p s.now)) }
{
    let front = numbers::read_u64(s, p);
    let end = numbers::read_u32(s, p + OFFSET);
    front == 0 && end == 0
}

// The tuples are zero from d on, where they are from k on: one by one from the last.
fn zero_up_to(s: &[u8], d: usize, k: usize) -> bool
    requires { (d ≤ k) × (head_size + tuple_size * k ≤ length s.now) × (all_zero (drop (head_size + tuple_size * k) s.now) ≡ true) }
    ensures { result ≡ all_zero (drop (head_size + tuple_size * d) s.now) }
{
    for i in (d..k).rev() {
        if !zero_at(s, HEAD + TUPLE * i) {
            return false;
        }
    }
    true
}

// The n bytes from p on and the n from q on are zero: so are their bits together, for which the compiler takes many bytes at a time, and makes
// one test of both runs.
fn zero_runs(s: &[u8], p: usize, q: usize, n: usize) -> bool
    requires { (p + n ≤ length s.now) × (q + n ≤ length s.now) }
    ensures { result ≡ (all_zero (take n (drop p s.now)) && all_zero (take n (drop q s.now))) }
{
    let mut all = 0;
    for i in 0..n {
        all |= s[p + i] | s[q + i];
    }
    all == 0
}

// The tuples of a slot with room for so many are zero from d on: the first n of them and the last n, which may be the same in part.
fn zero_ends(s: &[u8], d: usize, room: usize, n: usize) -> bool
    requires { (length s.now ≡ size_over room) × (d + n ≤ room) × (room ≤ d + 2 * n) }
    ensures { result ≡ all_zero (drop (head_size + tuple_size * d) s.now) }
{
    zero_runs(s, HEAD + TUPLE * d, HEAD + TUPLE * (room - n), TUPLE * n)
}

// The tuples of a slot with room for so many are zero from d on: a few one by one, more in two runs of four or of eight, whose lengths the
// compiler knows.
fn zero_after(s: &[u8], d: usize, room: usize) -> bool
    requires { (length s.now ≡ size_over room) × (d ≤ room) × (room ≤ limit) }
    ensures { result ≡ all_zero (drop (head_size + tuple_size * d) s.now) }
{
    if room - d < FEW {
        return zero_up_to(s, d, room);
    }
    if room - d < MANY {
        return zero_ends(s, d, room, FEW);
    }
    zero_ends(s, d, room, MANY)
}

// "depth 1..8, three zero bytes", with so many tuples for eight.
fn head_ok(s: &[u8], room: usize) -> bool
    requires { length s.now ≡ size_over room }
    ensures { result ≡ head_over room s.now }
{
    let d = usize::from(s[0]);
    1 <= d && d <= room && numbers::read_u32(s, 0) % THREE_BYTES == 0
}

// "depth 1..8, three zero bytes, line number (u32, any value, repeats allowed), then eight tuples of 12 bytes, the first depth of them
// a name, the rest all zero", with so many tuples for eight; and whether the name is above that of the slot a, in one look. That name has n
// tuples; before the first slot n is 0. Tuples that are equal to those of the name before are known to begin a name, and the two names
// compare at the first that is not.
pub fn look_after(a: &[u8], n: usize, s: &[u8], room: usize) -> Seen
    requires s_len { (length s.now ≡ size_over room) × (room ≤ limit) }
    requires n_in_bounds { (head_size + tuple_size * n ≤ length a.now) × (leads (tuples_at a.now head_size n) ≡ true) }
    ensures { result ≡ seen_after room (tuples_at a.now head_size n) s.now }
{
    if !head_ok(s, room) {
        return Seen::Broken;
    }
    let d = depth_over(s, room);
    let i = alike(a, HEAD, n, s, HEAD, d);
    if !name_from(s, HEAD, d, i) {
        return Seen::Broken;
    }
    if !zero_after(s, d, room) {
        return Seen::Broken;
    }
    let p = HEAD + TUPLE * i;
    if compare_rows(a, p, n - i, s, p, d - i).is_lt() {
        Seen::Rising
    } else {
        Seen::NotRising
    }
}

pub fn write_tuple(out: &mut [u8], p: usize, t: Tuple)
    requires { p + tuple_size ≤ length out.old }
    ensures { out.new ≡ put out.old p (tuple_bytes t) }
{
    numbers::write_u32(
        out,
        p,
        u32::from(t.position) * TWO_BYTES + u32::from(t.node),
    );
    numbers::write_u32(out, p + SEQUENCE, t.sequence);
    numbers::write_u32(out, p + OFFSET, numbers::to_unsigned(t.offset));
}

// The tuples of a name, one after the other from p on. By their index in an array of their own: over the name's row, or in the name, the compiler
// first copies the whole name by a call.
pub fn write_row(out: &mut [u8], p: usize, a: Name)
    requires { p + tuple_size * length (row_of a) ≤ length out.old }
    ensures { out.new ≡ put out.old p (row_bytes (row_of a)) }
{
    let tuples = a.tuples;
    for k in 0..names::tuples_in(a) {
        write_tuple(out, p + TUPLE * k, tuples[k]);
    }
}

// Three numbers of four bytes, one after the other from p on.
fn write_three(out: &mut [u8], p: usize, x: u32, y: u32, z: u32)
    requires { p + tuple_size ≤ length out.old }
    ensures { out.new ≡ put out.old p (bytes32 x ++ bytes32 y ++ bytes32 z) }
{
    numbers::write_u32(out, p, x);
    numbers::write_u32(out, p + 4, y);
    numbers::write_u32(out, p + 8, z);
}

// The bytes of the tuple that stands at `at` in s, written at p in out. Here and below everything is read before anything is written: the
// compiler then moves eight bytes at once, and swaps none.
fn copy_one(out: &mut [u8], p: usize, s: &[u8], at: usize)
    requires { (p + tuple_size ≤ length out.old) × (at + tuple_size ≤ length s.now) }
    ensures { out.new ≡ put out.old p (take tuple_size (drop at s.now)) }
{
    let x = numbers::read_u32(s, at);
    let y = numbers::read_u32(s, at + 4);
    let z = numbers::read_u32(s, at + 8);
    write_three(out, p, x, y, z);
}

// The bytes of two tuples.
fn copy_two(out: &mut [u8], p: usize, s: &[u8], at: usize)
    requires { (p + 2 * tuple_size ≤ length out.old) × (at + 2 * tuple_size ≤ length s.now) }
    ensures { out.new ≡ put out.old p (take (2 * tuple_size) (drop at s.now)) }
{
    let x = numbers::read_u32(s, at);
    let y = numbers::read_u32(s, at + 4);
    let z = numbers::read_u32(s, at + 8);
    let u = numbers::read_u32(s, at + 12);
    let v = numbers::read_u32(s, at + 16);
    let w = numbers::read_u32(s, at + 20);
    write_three(out, p, x, y, z);
    write_three(out, p + TUPLE, u, v, w);
}

// The bytes of four tuples.
fn copy_four(out: &mut [u8], p: usize, s: &[u8], at: usize)
    requires { (p + 4 * tuple_size ≤ length out.old) × (at + 4 * tuple_size ≤ length s.now) }
    ensures { out.new ≡ put out.old p (take (4 * tuple_size) (drop at s.now)) }
{
    let a = numbers::read_u32(s, at);
    let b = numbers::read_u32(s, at + 4);
    let c = numbers::read_u32(s, at + 8);
    let d = numbers::read_u32(s, at + 12);
    let e = numbers::read_u32(s, at + 16);
    let f = numbers::read_u32(s, at + 20);
    let g = numbers::read_u32(s, at + 24);
    let h = numbers::read_u32(s, at + 28);
    let i = numbers::read_u32(s, at + 32);
    let j = numbers::read_u32(s, at + 36);
    let k = numbers::read_u32(s, at + 40);
    let l = numbers::read_u32(s, at + 44);
    write_three(out, p, a, b, c);
    write_three(out, p + TUPLE, d, e, f);
    write_three(out, p + TUPLE * 2, g, h, i);
    write_three(out, p + TUPLE * 3, j, k, l);
}

// All bytes of src, which are fewer than four tuples have, written from p on: in two pieces of one size that may be the same in part, and those
// that are fewer than a tuple has one by one.
fn copy_short(out: &mut [u8], p: usize, src: &[u8])
    requires { (p + length src.now ≤ length out.old) × (length src.now ≤ 4 * tuple_size) }
    ensures { out.new ≡ put out.old p src.now }
{
    let n = src.len();
    if n < TUPLE {
        numbers::copy(out, p, src);
        return;
    }
    if n < 2 * TUPLE {
        copy_one(out, p, src, 0);
        copy_one(out, p + (n - TUPLE), src, n - TUPLE);
        return;
    }
    copy_two(out, p, src, 0);
    copy_two(out, p + (n - 2 * TUPLE), src, n - 2 * TUPLE);
}

// All bytes of src, written from p on: four tuples' bytes at a time as long as there are more left, and then the last so many, which may be written already
// in part. The compiler makes fewer steps of it than of single bytes.
pub fn copy_long(out: &mut [u8], p: usize, src: &[u8])
    requires { p + length src.now ≤ length out.old }
    ensures { out.new ≡ put out.old p src.now }
{
    let n = src.len();
    if n < FEW * TUPLE {
        copy_short(out, p, src);
        return;
    }
    let last = n - FEW * TUPLE;
    for i in (0..last).step_by(FEW * TUPLE) {
        copy_four(out, p + i, src, i);
    }
    copy_four(out, p + last, src, last);
}

// The bytes of n tuples, four to eight: the first four and the last four, which may be the same in part.
fn copy_ends(out: &mut [u8], p: usize, s: &[u8], at: usize, n: usize)
    requires { (4 ≤ n) × (n ≤ 8) × (p + tuple_size * n ≤ length out.old) × (at + tuple_size * n ≤ length s.now) }
    ensures { out.new ≡ put out.old p (take (tuple_size * n) (drop at s.now)) }
{
    copy_four(out, p, s, at);
    copy_four(out, p + TUPLE * (n - FEW), s, at + TUPLE * (n - FEW));
}

// The n tuples that stand from `at` on in s, written from p on in out: copied as bytes, so that no name is held. What is copied does not go by
// how many there are but by one of four sizes, once from the first tuple on and once up to the last: names of many depths then take the
// same way.
pub fn copy_row(out: &mut [u8], p: usize, s: &[u8], at: usize, n: usize)
    requires { (n ≤ limit) × (p + tuple_size * n ≤ length out.old) × (at + tuple_size * n ≤ length s.now) }
    ensures { out.new ≡ put out.old p (row_bytes (tuples_at s.now at n)) }
{
    if n < 1 {
        return;
    }
    if n < 2 {
        copy_one(out, p, s, at);
        return;
    }
    if n < FEW {
        copy_two(out, p, s, at);
        copy_two(out, p + TUPLE * (n - 2), s, at + TUPLE * (n - 2));
        return;
    }
    if n < MANY {
        copy_ends(out, p, s, at, n);
        return;
    }
    copy_ends(out, p, s, at, MANY);
    copy_ends(
        out,
        p + TUPLE * (n - MANY),
        s,
        at + TUPLE * (n - MANY),
        MANY,
    );
}

// What stands before the d tuples of a slot: their number, "three zero bytes, line number".
pub fn write_head(out: &mut [u8], p: usize, d: usize, line: u32)
    requires { (p + head_size ≤ length out.old) × (d ≤ limit) }
    ensures { out.new ≡ put out.old p ((d ∷ 0 ∷ 0 ∷ 0 ∷ []) ++ bytes32 line) }
{
    // `as`: a depth fits.
    numbers::write_u32(out, p, (d as u32) * THREE_BYTES);
    numbers::write_u32(out, p + LINE, line);
}

// What stands after the d tuples of a slot: "the rest all zero".
pub fn write_rest(out: &mut [u8], p: usize, d: usize)
    requires { (p + slot_size ≤ length out.old) × (d ≤ limit) }
    ensures { out.new ≡ put out.old (p + head_size + tuple_size * d) (replicate (tuple_size * (limit - d)) 0) }
{
    numbers::write_zeros(out, p + HEAD + TUPLE * d, 3 * (LIMIT - d));
}

// A slot from p on.
pub fn write_slot(out: &mut [u8], p: usize, line: u32, a: Name)
    requires { p + slot_size ≤ length out.old }
    ensures { out.new ≡ put out.old p (slot_bytes (record { line = line; name = row_of a })) }
{
    let d = names::tuples_in(a);
    write_head(out, p, d, line);
    write_row(out, p + HEAD, a);
    write_rest(out, p, d);
}

// A slot from p on, of a name that stands in other bytes. All its room is written zero first, in one length, and the tuples over it.
pub fn copy_slot(out: &mut [u8], p: usize, line: u32, s: &[u8], name: Span)
    requires { (p + slot_size ≤ length out.old) × Lies s.now name }
    ensures { out.new ≡ put out.old p (slot_bytes (record { line = line; name = row_at s.now name })) }
{
    write_head(out, p, name.count, line);
    numbers::write_zeros(out, p + HEAD, WORDS);
    copy_row(out, p + HEAD, s, name.at, name.count);
}
