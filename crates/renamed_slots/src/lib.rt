// A slot whose name is renamed or taken back, written from the bytes of that slot and of the log: tuples are read there or copied, and only a lead
// tuple, a marker and a lowered offset are made. Document 01, "Renaming one name" and "Taking it back"; what becomes of the name was found by
// crates/one_name. "Line numbers travel with their names."

#![tactic(auto)]

ghost use Rattle.std.specs.Prelude.{◌≡◌, true, [], ◌∷◌, ◌++◌, ◌+◌, ◌-◌, ◌≤◌, ◌<◌, length, take, drop, get_or};
ghost use Rattle.names.specs.Ordering.{compare_rows};
ghost use Rattle.std.specs.Ordering.{is_lt};
ghost use Rattle.names.specs.Names.{limit, fits, one_below, m, M};
ghost use Rattle.numbers.specs.Bytes.{put};
ghost use Rattle.slots.specs.Tuples.{row_at, Lies};
ghost use Rattle.slots.specs.Slots.{slot_size, depth_of, line_of, name_of, keeps_slot, slot_bytes};
ghost use Rattle.pages.specs.Pages.{names_of, is_log};
ghost use Rattle.one_name.specs.Changes.{changed_by};
ghost use Rattle.one_name.specs.Backs.{shaped, Stands, single as as_back};
ghost use Rattle.renamed_slots.specs.Joints.{below_if, marker_if, joint as joint_back};

use names::Tuple;
use one_name::{Back, Change, Single};
use slots::{HEAD, SLOT, Span, TUPLE};
use std::cmp::Ordering;

// Where the last tuple of a slot stands.
const LAST: usize = SLOT - TUPLE;

// "r(k)·m·v", or where r(k) is lowered "one below r(k), then M, then v"; v is the name without its first `cut` tuples.
#[derive(Clone, Copy, Debug, PartialEq, Eq)]
struct Joint {
    k: usize,
    cut: usize,
    lowered: bool,
}

// ── renamed ──

// The tuple t, then the name. The tuples are copied with the zeros after them: a copy of one size, whatever the depth.
fn write_led(out: &mut [u8], p: usize, slot: &[u8], t: Tuple)
    requires { (p + slot_size ≤ length out.old) × (keeps_slot slot.now ≡ true) × (depth_of slot.now < limit) }
    ensures { out.new ≡ put out.old p (slot_bytes (record { line = line_of slot.now; name = t ∷ name_of slot.now })) }
{
    slots::write_head(out, p, slots::depth(slot) + 1, slots::read_line(slot));
    slots::write_tuple(out, p + HEAD, t);
    numbers::copy(out, p + HEAD + TUPLE, &slot[HEAD..LAST]);
}

// The tuple t in the name's place.
fn write_alone(out: &mut [u8], p: usize, slot: &[u8], t: Tuple)
    requires { (p + slot_size ≤ length out.old) × (length slot.now ≡ slot_size) }
    ensures { out.new ≡ put out.old p (slot_bytes (record { line = line_of slot.now; name = t ∷ [] })) }
{
    slots::write_head(out, p, 1, slots::read_line(slot));
    slots::write_tuple(out, p + HEAD, t);
    slots::write_rest(out, p, 1);
}

// The slot from p on, its name changed.
pub fn write_changed(out: &mut [u8], p: usize, slot: &[u8], change: Change)
    requires { (p + slot_size ≤ length out.old) × (keeps_slot slot.now ≡ true) × (fits (changed_by change (name_of slot.now)) ≡ true) }
    ensures { out.new ≡ put out.old p (slot_bytes (record { line = line_of slot.now; name = changed_by change (name_of slot.now) })) }
{
    match change {
        Change::Kept => numbers::copy(out, p, slot),
        Change::Alone(t) => write_alone(out, p, slot, t),
        Change::Led(t) => write_led(out, p, slot, t),
    }
}

// ── taken back: its tuples ──

// Where the name of a slot stands in it.
fn name_in(slot: &[u8]) -> Span
    requires { keeps_slot slot.now ≡ true }
    ensures { Lies slot.now result × (row_at slot.now result ≡ name_of slot.now) × (result.count ≡ length (name_of slot.now)) }
{
    Span {
        at: HEAD,
        count: slots::depth(slot),
    }
}

// v, where it stands: the name without its first tuples.
fn own(slot: &[u8], cut: usize) -> Span
    requires { (keeps_slot slot.now ≡ true) × (cut ≤ length (name_of slot.now)) }
    ensures { Lies slot.now result × (row_at slot.now result ≡ drop cut (name_of slot.now)) }
{
    one_name::without(slot, name_in(slot), cut)
}

// How many tuples r(k), a marker and v have.
fn count_joined(slot: &[u8], cut: usize, log: &[u8], k: usize) -> usize
    requires { (keeps_slot slot.now ≡ true) × (cut ≤ length (name_of slot.now)) }
    ensures { result ≡ length (get_or (names_of log.now) k []) + 1 + length (drop cut (name_of slot.now)) }
{
    pages::span_of(log, k).count + 1 + own(slot, cut).count
}

// How many tuples the name taken back has.
fn count_back(slot: &[u8], log: &[u8], back: Back) -> usize
    requires { (keeps_slot slot.now ≡ true) × Stands (name_of slot.now) (names_of log.now) back }
    ensures { result ≡ length (shaped (name_of slot.now) (names_of log.now) back) }
{
    match back {
        Back::Restored(k) => pages::span_of(log, k).count,
        Back::Own(cut) => own(slot, cut).count,
        Back::Behind(k, cut) | Back::Ahead(k, cut) => count_joined(slot, cut, log, k),
    }
}

// Tuple i of a name that stands in s.
fn tuple_of(s: &[u8], x: Span, i: usize) -> Tuple
    requires { Lies s.now x × (i < x.count) }
    ensures { result ≡ get_or (row_at s.now x) i m }
{
    slots::read_tuple(s, x.at + TUPLE * i)
}

// Tuple i of one below r(k), where r stands in the log: "that name with its last offset less 1".
fn tuple_lower(log: &[u8], k: usize, r: Span, i: usize) -> Tuple
    requires { (is_log log.now ≡ true) × (k < length (names_of log.now)) × Lies log.now r × (row_at log.now r ≡ get_or (names_of log.now) k []) × (i < r.count) }
    ensures { result ≡ get_or (one_below (get_or (names_of log.now) k [])) i m }
{
    let t = tuple_of(log, r, i);
    if i + 1 < r.count {
        return t;
    }
    name_values::one_lower(t)
}

// Tuple i of a marker and v.
fn tuple_marked(slot: &[u8], cut: usize, marker: Tuple, i: usize) -> Tuple
    requires { (keeps_slot slot.now ≡ true) × (cut ≤ length (name_of slot.now)) × (i ≤ length (drop cut (name_of slot.now))) }
    ensures { result ≡ get_or (marker ∷ drop cut (name_of slot.now)) i m }
{
    if i < 1 {
        return marker;
    }
    tuple_of(slot, own(slot, cut), i - 1)
}

// Tuple i of r(k)·m·v.
fn tuple_behind(slot: &[u8], cut: usize, log: &[u8], k: usize, i: usize) -> Tuple
    requires { (keeps_slot slot.now ≡ true) × (cut ≤ length (name_of slot.now)) × (i < length (get_or (names_of log.now) k [] ++ (m ∷ drop cut (name_of slot.now)))) }
    ensures { result ≡ get_or (get_or (names_of log.now) k [] ++ (m ∷ drop cut (name_of slot.now))) i m }
{
    let r = pages::span_of(log, k);
    if i < r.count {
        return tuple_of(log, r, i);
    }
    tuple_marked(slot, cut, name_values::low_marker(), i - r.count)
}

// Tuple i of one below r(k), then M, then v.
fn tuple_ahead(slot: &[u8], cut: usize, log: &[u8], k: usize, i: usize) -> Tuple
    requires { (keeps_slot slot.now ≡ true) × (cut ≤ length (name_of slot.now)) × (is_log log.now ≡ true) × (k < length (names_of log.now)) × (i < length (one_below (get_or (names_of log.now) k []) ++ (M ∷ drop cut (name_of slot.now)))) }
    ensures { result ≡ get_or (one_below (get_or (names_of log.now) k []) ++ (M ∷ drop cut (name_of slot.now))) i m }
{
    let r = pages::span_of(log, k);
    if i < r.count {
        return tuple_lower(log, k, r, i);
    }
    tuple_marked(slot, cut, name_values::high_marker(), i - r.count)
}

// Tuple i of the name taken back, read where it stands: the name is made nowhere.
fn tuple_back(slot: &[u8], log: &[u8], back: Back, i: usize) -> Tuple
    requires { (keeps_slot slot.now ≡ true) × (is_log log.now ≡ true) × Stands (name_of slot.now) (names_of log.now) back × (i < length (shaped (name_of slot.now) (names_of log.now) back)) }
    ensures { result ≡ get_or (shaped (name_of slot.now) (names_of log.now) back) i m }
{
    match back {
        Back::Restored(k) => tuple_of(log, pages::span_of(log, k), i),
        Back::Own(cut) => tuple_of(slot, own(slot, cut), i),
        Back::Behind(k, cut) => tuple_behind(slot, cut, log, k, i),
        Back::Ahead(k, cut) => tuple_ahead(slot, cut, log, k, i),
    }
}

// ── taken back: before it is written ──

// The name that a slot is taken back to is below that of another: "Names compare at the first tuple that differs; a proper prefix is smaller".
pub fn backs_rise(first: &[u8], a: Back, second: &[u8], b: Back, log: &[u8]) -> bool
    requires first_value { (keeps_slot first.now ≡ true) × (keeps_slot second.now ≡ true) × (is_log log.now ≡ true) }
    requires stands { Stands (name_of first.now) (names_of log.now) a × Stands (name_of second.now) (names_of log.now) b }
    ensures { result ≡ is_lt (compare_rows (shaped (name_of first.now) (names_of log.now) a) (shaped (name_of second.now) (names_of log.now) b)) }
{
    let n = count_back(first, log, a);
    let m = count_back(second, log, b);
    for i in 0..n.min(m) {
        match names::compare_tuples(tuple_back(first, log, a, i), tuple_back(second, log, b, i)) {
            Ordering::Less => return true,
            Ordering::Equal => {}
            Ordering::Greater => return false,
        }
    }
    n < m
}

// ── taken back: written ──

// The name of another slot.
fn write_name_of(out: &mut [u8], p: usize, slot: &[u8], other: &[u8])
    requires { (p + slot_size ≤ length out.old) × (length slot.now ≡ slot_size) × (keeps_slot other.now ≡ true) }
    ensures { out.new ≡ put out.old p (slot_bytes (record { line = line_of slot.now; name = name_of other.now })) }
{
    slots::write_head(out, p, slots::depth(other), slots::read_line(slot));
    numbers::copy(out, p + HEAD, &other[HEAD..]);
}

// r(k)
fn write_restored(out: &mut [u8], p: usize, slot: &[u8], log: &[u8], k: usize)
    requires { (p + slot_size ≤ length out.old) × (length slot.now ≡ slot_size) × (is_log log.now ≡ true) × (k < length (names_of log.now)) }
    ensures { out.new ≡ put out.old p (slot_bytes (record { line = line_of slot.now; name = get_or (names_of log.now) k [] })) }
{
    let at = SLOT * k;
    write_name_of(out, p, slot, &log[at..at + SLOT]);
}

// The name without its first tuple, and zeros in the last one's place.
fn write_tail(out: &mut [u8], p: usize, slot: &[u8])
    requires { (p + slot_size ≤ length out.old) × (keeps_slot slot.now ≡ true) }
    ensures { out.new ≡ put out.old p (slot_bytes (record { line = line_of slot.now; name = drop 1 (name_of slot.now) })) }
{
    slots::write_head(out, p, slots::depth(slot) - 1, slots::read_line(slot));
    numbers::copy(out, p + HEAD, &slot[HEAD + TUPLE..]);
    numbers::write_zeros(out, p + LAST, 3);
}

// v: the name without its first `cut` tuples, none or one.
fn write_own(out: &mut [u8], p: usize, slot: &[u8], cut: usize)
    requires { (p + slot_size ≤ length out.old) × (keeps_slot slot.now ≡ true) × (cut ≤ 1) }
    ensures { out.new ≡ put out.old p (slot_bytes (record { line = line_of slot.now; name = drop cut (name_of slot.now) })) }
{
    if cut < 1 {
        numbers::copy(out, p, slot);
    } else {
        write_tail(out, p, slot);
    }
}

// The names that are joined of two: the tuples of r(k) but the last, then `last` and `marker`, then the tuples of v. The tuples of r(k) are copied with
// the zeros after them: a copy of one size, whatever the depth. The rest is written over them.
fn write_joined(
    out: &mut [u8],
    p: usize,
    slot: &[u8],
    cut: usize,
    log: &[u8],
    k: usize,
    last: Tuple,
    marker: Tuple,
)
    requires slot_size_in_bounds { (p + slot_size ≤ length out.old) × (keeps_slot slot.now ≡ true) × (cut ≤ length (name_of slot.now)) }
    requires log_value { (is_log log.now ≡ true) × (k < length (names_of log.now)) × (length (get_or (names_of log.now) k []) + 1 + length (drop cut (name_of slot.now)) ≤ limit) }
    ensures { out.new ≡ put out.old p (slot_bytes (record { line = line_of slot.now; name = take (length (get_or (names_of log.now) k []) - 1) (get_or (names_of log.now) k []) ++ (last ∷ marker ∷ drop cut (name_of slot.now)) })) }
{
    let r = pages::span_of(log, k);
    let v = own(slot, cut);
    let first = r.count - 1;
    let count = r.count + 1 + v.count;
    let end = p + HEAD + TUPLE * first;
    let at = SLOT * k;
    slots::write_head(out, p, count, slots::read_line(slot));
    numbers::copy(out, p + HEAD, &log[at + HEAD..at + SLOT]);
    slots::write_tuple(out, end, last);
    slots::write_tuple(out, end + TUPLE, marker);
    slots::copy_row(out, end + TUPLE + TUPLE, slot, v.at, v.count);
}

// The last tuple of r(k), or of one below r(k): `lowered` is which of the two it is, a fact that came of the comparison and no switch.
fn last_of(log: &[u8], k: usize, lowered: bool) -> Tuple
    requires { (is_log log.now ≡ true) × (k < length (names_of log.now)) }
    ensures { result ≡ get_or (below_if lowered (get_or (names_of log.now) k [])) (length (get_or (names_of log.now) k []) - 1) m }
{
    let r = pages::span_of(log, k);
    let last = r.count - 1;
    if lowered {
        return tuple_lower(log, k, r, last);
    }
    tuple_of(log, r, last)
}

// m, or M where r(k) is lowered.
fn marker_of(lowered: bool) -> Tuple
    ensures { result ≡ marker_if lowered }
{
    if lowered {
        return name_values::high_marker();
    }
    name_values::low_marker()
}

// r(k)·m·v, or one below r(k), then M, then v: in one function, so that `write_joined` has one caller and becomes part of the loop over the slots.
fn write_joint(out: &mut [u8], p: usize, slot: &[u8], log: &[u8], joint: Joint)
    requires { (p + slot_size ≤ length out.old) × (keeps_slot slot.now ≡ true) × (is_log log.now ≡ true) × Stands (name_of slot.now) (names_of log.now) (joint_back joint) × (fits (shaped (name_of slot.now) (names_of log.now) (joint_back joint)) ≡ true) }
    ensures { out.new ≡ put out.old p (slot_bytes (record { line = line_of slot.now; name = shaped (name_of slot.now) (names_of log.now) (joint_back joint) })) }
{
    let last = last_of(log, joint.k, joint.lowered);
    let marker = marker_of(joint.lowered);
    write_joined(out, p, slot, joint.cut, log, joint.k, last, marker);
}

// The slot from p on, its name taken back.
pub fn write_back(out: &mut [u8], p: usize, slot: &[u8], log: &[u8], back: Back)
    requires { (p + slot_size ≤ length out.old) × (keeps_slot slot.now ≡ true) × (is_log log.now ≡ true) × Stands (name_of slot.now) (names_of log.now) back × (fits (shaped (name_of slot.now) (names_of log.now) back) ≡ true) }
    ensures { out.new ≡ put out.old p (slot_bytes (record { line = line_of slot.now; name = shaped (name_of slot.now) (names_of log.now) back })) }
{
    let joint = match back {
        Back::Restored(k) => {
            write_restored(out, p, slot, log, k);
            return;
        }
        Back::Own(cut) => {
            write_own(out, p, slot, cut);
            return;
        }
        Back::Behind(k, cut) => Joint {
            k,
            cut,
            lowered: false,
        },
        Back::Ahead(k, cut) => Joint {
            k,
            cut,
            lowered: true,
        },
    };
    write_joint(out, p, slot, log, joint);
}

// The slot from p on, its name taken back alone.
pub fn write_single(out: &mut [u8], p: usize, slot: &[u8], log: &[u8], single: Single)
    requires { (p + slot_size ≤ length out.old) × (keeps_slot slot.now ≡ true) × (is_log log.now ≡ true) × Stands (name_of slot.now) (names_of log.now) (as_back single) }
    ensures { out.new ≡ put out.old p (slot_bytes (record { line = line_of slot.now; name = shaped (name_of slot.now) (names_of log.now) (as_back single) })) }
{
    match single {
        Single::Logged(k) => write_restored(out, p, slot, log, k),
        Single::Own(cut) => write_own(out, p, slot, cut),
    }
}
