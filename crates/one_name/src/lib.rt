// One name renamed and one taken back, over a log in its bytes: what becomes of a name is found where the name stands in bytes. What comes of it
// is made by value here, and as a slot by crates/renamed_slots. Document 01, "Renaming one name" and "Taking it back"; the definitions are those of crates/name_renames.

#![tactic(auto)]

ghost use Rattle.std.specs.Prelude.{◌≡◌, [], ◌∷◌, ◌++◌, true, false, ◌&&◌, ◌+◌, ◌-◌, ◌*◌, ◌≤◌, ◌<◌, max, min, pos, length, take, drop, get_or};
ghost use Rattle.std.specs.Int.Signed.{non_neg};
ghost use Rattle.names.specs.Ordering.{compare_rows, ◌≤ⁿ◌};
ghost use Rattle.std.specs.Ordering.{is_lt, is_eq};
ghost use Rattle.names.specs.Names.{limit, row_of, is_name, one_below, Gives, m, M};
ghost use Rattle.slots.specs.Tuples.{tuple_size, row_at, Lies};
ghost use Rattle.pages.specs.Pages.{max_slots, names_of, rises, keeps_layout, is_log};
ghost use Rattle.pages.specs.Places.{below, place_of};
ghost use Rattle.name_renames.specs.Renaming.{first_position, lead as lead_tuple, N, case_of, if_below, rename as rename_row, strip_below, strip_above, take_back as take_back_row};
ghost use Rattle.name_renames.specs.Alone.{is_above, in_gap, alone_within, alone as is_alone};
ghost use Rattle.std.specs.List.{list_all};
ghost use Rattle.one_name.specs.Markers.{unmarked_from};
ghost use Rattle.one_name.specs.Changes.{index_of, change_of, changed_by, gains as gains_one};
ghost use Rattle.one_name.specs.Backs.{shaped, Stands, Means, single, deepest_of, shallowest_of, under_shape, over_shape, between_shape, within_shape, shape_of};
ghost use Rattle.one_name.specs.Stems.{stem, is_behind, is_ahead, is_own, clear_from, marked_at, may_meet, row_of_stem, StemLies};

use name_renames::Case;
use names::{Author, LIMIT, Name, Tuple};
use pages::Place;
use slots::{HEAD, SLOT, Span, TUPLE};
use std::cmp::Ordering;

// The bytes of as many tuples as a name has.
const ROW: usize = TUPLE * LIMIT;

// ── what both need ──

// "p = position of r0's first tuple"
fn first_position(log: &[u8]) -> u16
    requires { is_log log.now ≡ true }
    ensures { result ≡ first_position (names_of log.now) }
{
    numbers::read_u16(log, HEAD)
}

// (p, A, s, z)
fn lead(position: u16, author: Author, offset: i32) -> Tuple
    ensures { result ≡ lead_tuple position author offset }
{
    Tuple {
        position,
        node: author.node,
        sequence: author.sequence,
        offset,
    }
}

// The tuple of N(k).
fn numbered(p: u16, author: Author, k: usize) -> Tuple
    requires { k < max_slots }
    ensures { result ≡ lead_tuple p author (pos k) }
{
    // `as`: it fits by the contract.
    lead(p, author, k as i32)
}

// A name that is handed over whole, written from the start of some bytes, and where it stands.
fn stand(x: Name, bytes: &mut [u8]) -> Span
    requires { tuple_size * limit ≤ length bytes.old }
    ensures { Lies bytes.new result × (row_at bytes.new result ≡ row_of x) }
{
    slots::write_row(bytes, 0, x);
    Span {
        at: 0,
        count: names::tuples_in(x),
    }
}

// ── end markers ──

// No end marker is in a name that stands in s from its tuple `from` on. "The first and last tuples are ordinary .. and markers may stand only between": the
// last is not looked at.
fn is_unmarked(s: &[u8], x: Span, from: usize) -> bool
    requires { Lies s.now x × (is_name (row_at s.now x) ≡ true) × (from ≤ limit) }
    ensures { result ≡ unmarked_from from (row_at s.now x) }
{
    (from..x.count - 1).all(|i| !slots::marker_at(s, x.at + TUPLE * i))
}

// No end marker is in a name of the log from its tuple `from` on.
pub fn all_unmarked(log: &[u8], from: usize) -> bool
    requires { (keeps_layout log.now ≡ true) × (from ≤ limit) }
    ensures { result ≡ list_all (unmarked_from from) (names_of log.now) }
{
    // A `for`, here and in `all_clear`: there `all` over the range was measured 14 to 19 % slower.
    for k in 0..log.len() / SLOT {
        if !is_unmarked(log, pages::span_of(log, k), from) {
            return false;
        }
    }
    true
}

// ── depth ──

// The most tuples of a name of the page, or of the log.
pub fn deepest(page: &[u8]) -> usize
    ensures { (result ≡ deepest_of (names_of page.now)) × (result ≤ limit) }
{
    let (slots, _) = page.as_chunks::<SLOT>();
    slots
        .iter()
        .map(|slot| slots::depth(slot))
        .max()
        .unwrap_or(0)
}

// The fewest tuples of a name of the page, or of the log; LIMIT where there is none.
pub fn shallowest(page: &[u8]) -> usize
    ensures { (result ≡ shallowest_of (names_of page.now)) × (result ≤ limit) }
{
    let (slots, _) = page.as_chunks::<SLOT>();
    slots
        .iter()
        .map(|slot| slots::depth(slot))
        .min()
        .unwrap_or(LIMIT)
}

// ── renaming one name: the case ──

// "below r0 and below N(0)", or "below r0, otherwise".
fn case_below(p: u16, author: Author, s: &[u8], x: Span) -> Case
    requires { Lies s.now x }
    ensures { result ≡ if_below (row_at s.now x) (N p author 0) Case.KeepBelow Case.PutBelow }
{
    if is_below(s, x, lead(p, author, 0)) {
        Case::KeepBelow
    } else {
        Case::PutBelow
    }
}

// "above r(n−1) and below N(n−1)", or "above r(n−1), otherwise"; k is n − 1.
fn case_above(p: u16, author: Author, k: usize, s: &[u8], x: Span) -> Case
    requires { (k < max_slots) × Lies s.now x }
    ensures { result ≡ if_below (row_at s.now x) (N p author k) (Case.PutAbove k) Case.KeepAbove }
{
    if is_below(s, x, numbered(p, author, k)) {
        Case::PutAbove(k)
    } else {
        Case::KeepAbove
    }
}

// The case of 01's table for x, which stands in the log at that place.
pub fn case_at(log: &[u8], author: Author, place: Place, s: &[u8], x: Span) -> Case
    requires { (is_log log.now ≡ true) × Lies s.now x × (place ≡ place_of (row_at s.now x) (names_of log.now)) }
    ensures { result ≡ case_of (first_position (names_of log.now)) author (names_of log.now) (row_at s.now x) }
{
    let p = first_position(log);
    match place {
        Place::Here(k) => Case::Logged(k),
        Place::Gap(k) => {
            if k == 0 {
                case_below(p, author, s, x)
            } else if k < log.len() / SLOT {
                Case::Between(k - 1)
            } else {
                case_above(p, author, k - 1, s, x)
            }
        }
    }
}

// The place of x in a log of which j names are known to be below x, by a walk from there.
fn place_from(log: &[u8], s: &[u8], x: Span, j: usize) -> Place
    requires { (rises log.now ≡ true) × Lies s.now x × (j ≤ below (row_at s.now x) (names_of log.now)) }
    ensures { result ≡ place_of (row_at s.now x) (names_of log.now) }
{
    let n = log.len() / SLOT;
    for k in j..n {
        let r = pages::span_of(log, k);
        match slots::compare_rows(log, r.at, r.count, s, x.at, x.count) {
            Ordering::Less => {}
            Ordering::Equal => return Place::Here(k),
            Ordering::Greater => return Place::Gap(k),
        }
    }
    Place::Gap(n)
}

// The case of 01's table for a name, and how many names of the log are below it.
#[derive(Clone, Copy, Debug, PartialEq, Eq)]
pub struct Walked {
    pub below: usize,
    pub case: Case,
}

// The case of x, where j names of the log are known to be below x: the walk along the log goes on from there.
pub fn walk(log: &[u8], author: Author, s: &[u8], x: Span, j: usize) -> Walked
    requires { (is_log log.now ≡ true) × Lies s.now x × (j ≤ below (row_at s.now x) (names_of log.now)) }
    ensures { (result.below ≡ below (row_at s.now x) (names_of log.now)) × (result.case ≡ case_of (first_position (names_of log.now)) author (names_of log.now) (row_at s.now x)) × (index_of result.case < max_slots) }
{
    let place = place_from(log, s, x, j);
    let case = case_at(log, author, place, s, x);
    let (Place::Here(below) | Place::Gap(below)) = place;
    Walked { below, case }
}

// What a case of 01's table does to a name x.
#[derive(Clone, Copy, Debug, PartialEq, Eq)]
pub enum Change {
    // x stays.
    Kept,
    // That tuple takes its place.
    Alone(Tuple),
    // That tuple is put before it.
    Led(Tuple),
}

// What that case does to a name.
pub fn change_of(log: &[u8], author: Author, case: Case) -> Change
    requires { (is_log log.now ≡ true) × (index_of case < max_slots) }
    ensures { result ≡ change_of (first_position (names_of log.now)) author case }
{
    let p = first_position(log);
    match case {
        Case::KeepBelow | Case::KeepAbove => Change::Kept,
        Case::PutBelow => Change::Led(lead(p, author, -1)),
        Case::Logged(k) => Change::Alone(numbered(p, author, k)),
        Case::Between(k) | Case::PutAbove(k) => Change::Led(numbered(p, author, k)),
    }
}

// A tuple is put before the name.
pub fn gains(change: Change) -> bool
    ensures { result ≡ gains_one change }
{
    matches!(change, Change::Led(_))
}

// ── renaming one name ──

// x changed.
fn changed(change: Change, x: Name) -> Option<Name>
    ensures { Gives result (changed_by change (row_of x)) }
{
    match change {
        Change::Kept => Some(x),
        Change::Alone(t) => Some(name_values::one(t)),
        Change::Led(t) => name_values::join_by(name_values::empty(), t, x),
    }
}

// One name, renamed; none where it has more than LIMIT tuples.
pub fn rename_name(log: &[u8], author: Author, x: Name) -> Option<Name>
    requires { is_log log.now ≡ true }
    ensures { Gives result (rename_row author (names_of log.now) (row_of x)) }
{
    let mut bytes = [0; ROW];
    let at = stand(x, &mut bytes);
    let walked = walk(log, author, &bytes, at, 0);
    changed(change_of(log, author, walked.case), x)
}

// ── taking one name back: the shape ──

// What 01's bullets come to. v is c without its first tuples, so many: c itself, or what follows its first tuple.
#[derive(Clone, Copy, Debug, PartialEq, Eq)]
pub enum Back {
    // r(k)
    Restored(usize),
    // v
    Own(usize),
    // r(k)·m·v
    Behind(usize, usize),
    // one below r(k), then M, then v
    Ahead(usize, usize),
}

// A name that stands in s is below the name of one tuple.
fn is_below(s: &[u8], x: Span, t: Tuple) -> bool
    requires { Lies s.now x }
    ensures { result ≡ is_lt (compare_rows (row_at s.now x) (t ∷ [])) }
{
    slots::compare_to_one(s, x.at, x.count, t).is_lt()
}

// A name that stands in s is above the name of one tuple.
fn is_above(s: &[u8], x: Span, t: Tuple) -> bool
    requires { Lies s.now x }
    ensures { result ≡ is_lt (compare_rows (t ∷ []) (row_at s.now x)) }
{
    slots::compare_to_one(s, x.at, x.count, t).is_gt()
}

// A name that stands in s begins with the tuple t.
fn begins(s: &[u8], x: Span, t: Tuple) -> bool
    requires { Lies s.now x }
    ensures { result ≡ is_eq (compare_rows (take 1 (row_at s.now x)) (t ∷ [])) }
{
    0 < x.count && slots::compare_to_one(s, x.at, 1, t).is_eq()
}

// The tuples of c after the first `cut`.
pub fn without(s: &[u8], c: Span, cut: usize) -> Span
    requires { Lies s.now c × (cut ≤ c.count) }
    ensures { Lies s.now result × (row_at s.now result ≡ drop cut (row_at s.now c)) × (result.count ≡ c.count - cut) }
{
    Span {
        at: c.at + TUPLE * cut,
        count: c.count - cut,
    }
}

// A name that stands in s against r(k).
fn against(log: &[u8], k: usize, s: &[u8], v: Span) -> Ordering
    requires { Lies s.now v }
    ensures { result ≡ compare_rows (row_at s.now v) (get_or (names_of log.now) k []) }
{
    let r = pages::span_of(log, k);
    slots::compare_rows(s, v.at, v.count, log, r.at, r.count)
}

// "If v is below r0 the result is v, else one below r0, then M, then v", with r(k) for r0.
fn under(log: &[u8], k: usize, s: &[u8], c: Span, cut: usize) -> Back
    requires { Lies s.now c × (cut ≤ c.count) }
    ensures { result ≡ under_shape (row_at s.now c) (names_of log.now) k cut }
{
    if against(log, k, s, without(s, c, cut)).is_lt() {
        Back::Own(cut)
    } else {
        Back::Ahead(k, cut)
    }
}

// "If v is above r(n−1) the result is v, else r(n−1)·m·v"; k is n − 1.
fn over(log: &[u8], k: usize, s: &[u8], c: Span, cut: usize) -> Back
    requires { Lies s.now c × (cut ≤ c.count) }
    ensures { result ≡ over_shape (row_at s.now c) (names_of log.now) k cut }
{
    if against(log, k, s, without(s, c, cut)).is_gt() {
        Back::Own(cut)
    } else {
        Back::Behind(k, cut)
    }
}

// "c between N(k) and N(k+1), so c = N(k)·t: if t is not above r(k), r(k)·m·t. If t is not below r(k+1), one below r(k+1),
// then M, then t. Otherwise t."
fn between(log: &[u8], k: usize, s: &[u8], c: Span) -> Back
    requires { (k + 1 < length (names_of log.now)) × Lies s.now c × (1 ≤ c.count) }
    ensures { result ≡ between_shape (row_at s.now c) (names_of log.now) k }
{
    if against(log, k, s, without(s, c, 1)).is_gt() {
        under(log, k + 1, s, c, 1)
    } else {
        Back::Behind(k, 1)
    }
}

// "v is t where c = (p, A, s, −1)·t with t not empty and t not below N(0); otherwise v is c." How many of c's tuples v is without. An
// empty t is below N(0).
fn strip_below(p: u16, author: Author, s: &[u8], c: Span) -> usize
    requires { Lies s.now c }
    ensures { (result ≤ c.count) × (result ≤ 1) × (drop result (row_at s.now c) ≡ strip_below p author (row_at s.now c)) }
{
    if begins(s, c, lead(p, author, -1)) && !is_below(s, without(s, c, 1), lead(p, author, 0)) {
        1
    } else {
        0
    }
}

// "v is t where c = N(n−1)·t and t is below N(n−1); otherwise v is c"; k is n − 1.
fn strip_above(p: u16, author: Author, k: usize, s: &[u8], c: Span) -> usize
    requires { (k < max_slots) × Lies s.now c }
    ensures { (result ≤ c.count) × (result ≤ 1) × (drop result (row_at s.now c) ≡ strip_above p author k (row_at s.now c)) }
{
    let n = numbered(p, author, k);
    if begins(s, c, n) && is_below(s, without(s, c, 1), n) {
        1
    } else {
        0
    }
}

// The k of N(k)·t: the first tuple's offset.
fn index_of(s: &[u8], c: Span) -> usize
    requires { Lies s.now c × (1 ≤ c.count) × (non_neg (get_or (row_at s.now c) 0 m).offset ≡ true) }
    ensures { pos result ≡ (get_or (row_at s.now c) 0 m).offset }
{
    // `as`: it fits, since it is not below 0.
    slots::read_tuple(s, c.at).offset as usize
}

// "c = N(k), 0 ≤ k < n: r(k)", and c between N(k) and N(k+1). k is read off the first tuple.
fn back_within(log: &[u8], author: Author, s: &[u8], c: Span) -> Back
    requires log_value { (is_log log.now ≡ true) × Lies s.now c }
    requires n { (N (first_position (names_of log.now)) author 0 ≤ⁿ row_at s.now c) × (row_at s.now c ≤ⁿ N (first_position (names_of log.now)) author (length (names_of log.now) - 1)) }
    ensures { result ≡ within_shape (row_at s.now c) (names_of log.now) }
{
    let k = index_of(s, c);
    if c.count < 2 {
        Back::Restored(k)
    } else {
        between(log, k, s, c)
    }
}

// What becomes of c, a name that stands in s.
pub fn back_of(log: &[u8], author: Author, s: &[u8], c: Span) -> Back
    requires { (is_log log.now ≡ true) × Lies s.now c }
    ensures { result ≡ shape_of author (names_of log.now) (row_at s.now c) }
{
    let p = first_position(log);
    if is_below(s, c, lead(p, author, 0)) {
        return under(log, 0, s, c, strip_below(p, author, s, c));
    }
    let last = log.len() / SLOT - 1;
    if is_above(s, c, numbered(p, author, last)) {
        return over(log, last, s, c, strip_above(p, author, last, s, c));
    }
    back_within(log, author, s, c)
}

// ── taking one name back: beside its neighbour ──

// What a name that is taken back is made at: r(k), where it is r(k) itself or is put behind it or ahead of it; else its own tuples. And how many tuples
// it then has. Bools, since an enum in their place is copied byte by byte from turn to turn, and was measured to be slower.
#[derive(Clone, Copy, Debug, PartialEq, Eq)]
pub struct Stem {
    pub behind: bool,
    pub ahead: bool,
    // The row stands in the log; else where the name stands.
    pub logged: bool,
    pub row: Span,
    pub depth: usize,
}

// r(k), and so many tuples more.
fn logged_stem(log: &[u8], k: usize, more: usize) -> Stem
    requires { more ≤ limit + 1 }
    ensures { (result.behind ≡ false) × (result.ahead ≡ false) × (result.logged ≡ true) × Lies log.now result.row × (row_at log.now result.row ≡ get_or (names_of log.now) k []) × (result.depth ≡ length (get_or (names_of log.now) k []) + more) }
{
    let row = pages::span_of(log, k);
    Stem {
        behind: false,
        ahead: false,
        logged: true,
        row,
        depth: row.count + more,
    }
}

// The stem of c, a name that stands in s, whose shape was found.
pub fn stem_of(log: &[u8], s: &[u8], c: Span, back: Back) -> Stem
    requires { Lies s.now c × Stands (row_at s.now c) (names_of log.now) back }
    ensures behind_value { (result.behind ≡ is_behind back) × (result.ahead ≡ is_ahead back) × (result.depth ≡ length (shaped (row_at s.now c) (names_of log.now) back)) }
    ensures stem_lies { StemLies s.now log.now result × (row_of_stem s.now log.now result ≡ stem (row_at s.now c) (names_of log.now) back) }
{
    match back {
        Back::Restored(k) => logged_stem(log, k, 0),
        Back::Own(cut) => {
            let row = without(s, c, cut);
            Stem {
                behind: false,
                ahead: false,
                logged: false,
                row,
                depth: row.count,
            }
        }
        Back::Behind(k, cut) => Stem {
            behind: true,
            ..logged_stem(log, k, c.count - cut + 1)
        },
        Back::Ahead(k, cut) => Stem {
            ahead: true,
            ..logged_stem(log, k, c.count - cut + 1)
        },
    }
}

// A row that stands in s has an end marker right behind its first n tuples.
fn marked_after(s: &[u8], x: Span, n: usize) -> bool
    requires { Lies s.now x }
    ensures { result ≡ marked_at (row_at s.now x) n }
{
    n < x.count && slots::marker_at(s, x.at + TUPLE * n)
}

// The stem x has one there.
fn marked_at(log: &[u8], s: &[u8], x: Stem, n: usize) -> bool
    requires { StemLies s.now log.now x }
    ensures { result ≡ marked_at (row_of_stem s.now log.now x) n }
{
    marked_after(if x.logged { log } else { s }, x.row, n)
}

// What is put behind x could pass y.
fn reaches_up(log: &[u8], s: &[u8], x: Stem, y: Stem) -> bool
    requires { StemLies s.now log.now x × StemLies s.now log.now y }
    ensures { result ≡ (x.behind && marked_at (row_of_stem s.now log.now y) (length (row_of_stem s.now log.now x))) }
{
    x.behind && marked_at(log, s, y, x.row.count)
}

// What is put ahead of y could pass x.
fn reaches_down(log: &[u8], s: &[u8], x: Stem, y: Stem) -> bool
    requires { StemLies s.now log.now x × StemLies s.now log.now y }
    ensures { result ≡ (y.ahead && marked_at (row_of_stem s.now log.now x) (length (row_of_stem s.now log.now y))) }
{
    y.ahead && marked_at(log, s, x, y.row.count)
}

// Two neighbours, with stems x and y, could change places when they are taken back. Where they could not, they keep their order: that is a theorem,
// `apart_kept` (proofs/Neighbours.antt; in specs/Laws.antt `apart_kept`), which stands for comparing them.
pub fn may_meet(log: &[u8], s: &[u8], x: Stem, y: Stem) -> bool
    requires { StemLies s.now log.now x × StemLies s.now log.now y }
    ensures { result ≡ may_meet x.behind y.ahead (row_of_stem s.now log.now x) (row_of_stem s.now log.now y) }
{
    reaches_up(log, s, x, y) || reaches_down(log, s, x, y)
}

// c, a name that stands in s, has no end marker from its tuple `from` on, or is not taken back to tuples of its own.
fn is_clear(log: &[u8], author: Author, s: &[u8], c: Span, from: usize) -> bool
    requires { (is_log log.now ≡ true) × Lies s.now c × (is_name (row_at s.now c) ≡ true) × (from ≤ limit) }
    ensures { result ≡ clear_from author (names_of log.now) from (row_at s.now c) }
{
    is_unmarked(s, c, from) || !matches!(back_of(log, author, s, c), Back::Own(_))
}

// So it is of every name of the page. Where the log has none from there on either, and no name of fewer tuples, no two names could meet: that is a theorem,
// `clear_kept` (proofs/Neighbours.antt; in specs/Laws.antt `clear_kept`).
pub fn all_clear(page: &[u8], log: &[u8], author: Author, from: usize) -> bool
    requires { (keeps_layout page.now ≡ true) × (is_log log.now ≡ true) × (from ≤ limit) }
    ensures { result ≡ list_all (clear_from author (names_of log.now) from) (names_of page.now) }
{
    for k in 0..page.len() / SLOT {
        if !is_clear(log, author, page, pages::span_of(page, k), from) {
            return false;
        }
    }
    true
}

// ── taking one name back: alone ──

// t is above r(k) and below r(k+1).
fn is_within(log: &[u8], k: usize, s: &[u8], t: Span) -> bool
    requires { (k + 1 < length (names_of log.now)) × Lies s.now t }
    ensures { result ≡ in_gap (names_of log.now) k (row_at s.now t) }
{
    against(log, k, s, t).is_gt() && against(log, k + 1, s, t).is_lt()
}

// "c = N(k), 0 ≤ k < n", or "c = N(k)·t" with t above r(k) and below r(k+1).
fn alone_within(log: &[u8], author: Author, s: &[u8], c: Span) -> bool
    requires log_value { (is_log log.now ≡ true) × Lies s.now c }
    requires n { (N (first_position (names_of log.now)) author 0 ≤ⁿ row_at s.now c) × (row_at s.now c ≤ⁿ N (first_position (names_of log.now)) author (length (names_of log.now) - 1)) }
    ensures { result ≡ alone_within (names_of log.now) (row_at s.now c) }
{
    c.count < 2 || is_within(log, index_of(s, c), s, without(s, c, 1))
}

// c, a name that stands in s, is taken back to a name of the log or to tuples of its own, and no marker is put. A book of which this holds
// of every name needs neither 6 nor 7 to be looked for, and what becomes of its names is found with no further comparison (`alone_of`).
pub fn is_alone(log: &[u8], author: Author, s: &[u8], c: Span) -> bool
    requires { (is_log log.now ≡ true) × Lies s.now c }
    ensures { result ≡ is_alone author (names_of log.now) (row_at s.now c) }
{
    let p = first_position(log);
    if is_below(s, c, lead(p, author, 0)) {
        let cut = strip_below(p, author, s, c);
        return against(log, 0, s, without(s, c, cut)).is_lt();
    }
    let last = log.len() / SLOT - 1;
    if is_above(s, c, numbered(p, author, last)) {
        let cut = strip_above(p, author, last, s, c);
        return against(log, last, s, without(s, c, cut)).is_gt();
    }
    alone_within(log, author, s, c)
}

// What becomes of a name that is taken back alone: the first two shapes of `Back`, an enum of their own, since this one stays in registers, where the
// whole `Back`, which is passed on to where names are joined, was measured to be kept in memory, byte by byte.
#[derive(Clone, Copy, Debug, PartialEq, Eq)]
pub enum Single {
    // r(k)
    Logged(usize),
    // v
    Own(usize),
}

// What becomes of c, a name that stands in s, where it is known to be taken back alone: the log's names are not looked at.
pub fn alone_of(log: &[u8], author: Author, s: &[u8], c: Span) -> Single
    requires { (is_log log.now ≡ true) × Lies s.now c × (is_alone author (names_of log.now) (row_at s.now c) ≡ true) }
    ensures { Means (row_at s.now c) (names_of log.now) (single result) (take_back_row author (names_of log.now) (row_at s.now c)) }
{
    let p = first_position(log);
    if is_below(s, c, lead(p, author, 0)) {
        return Single::Own(strip_below(p, author, s, c));
    }
    let last = log.len() / SLOT - 1;
    if is_above(s, c, numbered(p, author, last)) {
        return Single::Own(strip_above(p, author, last, s, c));
    }
    if c.count < 2 {
        return Single::Logged(index_of(s, c));
    }
    Single::Own(1)
}

// ── taking one name back ──

// The tuples of c after the first `cut`, by value.
fn rest(s: &[u8], c: Span, cut: usize) -> Name
    requires { Lies s.now c × (cut ≤ c.count) }
    ensures { row_of result ≡ drop cut (row_at s.now c) }
{
    let v = without(s, c, cut);
    slots::read_row(s, v.at, v.count)
}

// r·m·v
fn behind(r: Name, v: Name) -> Option<Name>
    ensures { Gives result (row_of r ++ (m ∷ row_of v)) }
{
    name_values::join_by(r, name_values::low_marker(), v)
}

// "one below r0, then M, then v", with any name of the log for r0.
fn ahead(r: Name, v: Name) -> Option<Name>
    requires { is_name (row_of r) ≡ true }
    ensures { Gives result (one_below (row_of r) ++ (M ∷ row_of v)) }
{
    name_values::join_by(name_values::one_below(r), name_values::high_marker(), v)
}

// The name of that shape.
fn made(log: &[u8], s: &[u8], c: Span, back: Back) -> Option<Name>
    requires { (is_log log.now ≡ true) × Lies s.now c × Stands (row_at s.now c) (names_of log.now) back }
    ensures { Gives result (shaped (row_at s.now c) (names_of log.now) back) }
{
    match back {
        Back::Restored(k) => Some(pages::name_of(log, k)),
        Back::Own(cut) => Some(rest(s, c, cut)),
        Back::Behind(k, cut) => behind(pages::name_of(log, k), rest(s, c, cut)),
        Back::Ahead(k, cut) => ahead(pages::name_of(log, k), rest(s, c, cut)),
    }
}

// One name, taken back; none where it has more than LIMIT tuples.
pub fn take_back_name(log: &[u8], author: Author, c: Name) -> Option<Name>
    requires { is_log log.now ≡ true }
    ensures { Gives result (take_back_row author (names_of log.now) (row_of c)) }
{
    let mut bytes = [0; ROW];
    let at = stand(c, &mut bytes);
    let back = back_of(log, author, &bytes, at);
    made(log, &bytes, at, back)
}
