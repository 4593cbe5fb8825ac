// New names: a name for a gap of a page, whose neighbours are looked at where they stand. Document 01, "New names"; the
// definitions are in specs/.

#![tactic(auto)]

ghost use Rattle.std.specs.Prelude.{◌≡◌, [], ◌∷◌, ◌++◌, cond, ◌+◌, ◌≤◌, ◌<◌, drop, take, get_or};
ghost use Rattle.std.proofs.Math.Option.{none, some};
ghost use Rattle.names.specs.Names.{limit, value_of, m};
ghost use Rattle.numbers.specs.Bytes.{Bytes};
ghost use Rattle.slots.specs.Tuples.{row_at, Within, Lies};
ghost use Rattle.pages.specs.Pages.{names_of};
ghost use Rattle.new_names.specs.NewNames.{first_or, rest, own as own_tuple, before_tuple, close_by, new_name, name_before, answer_name, new_name_outcome, Says};
ghost use Rattle.new_names.specs.FoundParts.{parts_of, made_of, Stands, Means};

use answers::Refusal;
use names::{Author, LIMIT, Name, Tuple};
use slots::{Span, TUPLE};

// "First positions count 0 for a missing a and 65535 for a missing b."
const LOWEST: u16 = 0;

const HIGHEST: u16 = u16::MAX;

// The position of a new tuple that only has to follow what stands before it: half way.
const MIDDLE: u16 = 32768;

// Of what a name is made: of the tuples that stand at `a` and two more, the first `depth`.
#[derive(Clone, Copy, Debug, PartialEq, Eq)]
struct Parts {
    a: Span,
    first: Tuple,
    second: Tuple,
    depth: usize,
}

// "author's node and sequence, offset 0"
fn own(author: Author, position: u16) -> Tuple
    ensures { result ≡ own_tuple author position }
{
    Tuple {
        position,
        node: author.node,
        sequence: author.sequence,
        offset: 0,
    }
}

// a and the first n of two tuples, or 6 where these are too many.
fn more(a: Span, first: Tuple, second: Tuple, n: usize) -> Result<Parts, Refusal>
    requires { (a.count ≤ limit) × (n ≤ 2) }
    ensures { (s : Bytes) → Lies s a → Means s result (answer_name (some (row_at s a ++ take n (first ∷ second ∷ [])))) }
{
    let depth = a.count + n;
    if LIMIT < depth {
        return Err(Refusal::TooDeep);
    }
    Ok(Parts {
        a,
        first,
        second,
        depth,
    })
}

// a·t, or 6 where that has too many tuples.
fn one_more(a: Span, t: Tuple) -> Result<Parts, Refusal>
    requires { a.count ≤ limit }
    ensures { (s : Bytes) → Lies s a → Means s result (answer_name (some (row_at s a ++ (t ∷ [])))) }
{
    more(a, t, t, 1)
}

// The position of the first tuple of a name, which may be missing.
fn first_position(page: &[u8], name: Span, missing: u16) -> u32
    requires { Within page.now name }
    ensures { (result ≡ first_or missing (row_at page.now name)) × (result ≤ 65535) }
{
    if name.count < 1 {
        return u32::from(missing);
    }
    u32::from(numbers::read_u16(page, name.at))
}

// a is a prefix of b: of b's tuples the first, as many as a has, are a's. What follows a are then b's tuples from a's count on.
fn is_prefix(page: &[u8], a: Span, b: Span) -> bool
    requires { Within page.now a × Within page.now b }
    ensures { rest (row_at page.now a) (row_at page.now b) ≡ cond result (some (drop a.count (row_at page.now b))) none }
{
    if b.count < a.count {
        return false;
    }
    slots::compare_rows(page, a.at, a.count, page, b.at, a.count).is_eq()
}

// "If y's position is 2 or more: a·(half that position rounded down, node, sequence, 0). If it is 1 and y's offset is at
// least 0: a·(y one offset lower)·(32768, node, sequence, 0). Otherwise answer 12."
fn before_tuple(a: Span, y: Tuple, author: Author) -> Result<Parts, Refusal>
    requires { a.count ≤ limit }
    ensures { (s : Bytes) → Lies s a → Means s result (answer_name (before_tuple author (row_at s a) y)) }
{
    if 2 <= y.position {
        return one_more(a, own(author, y.position / 2));
    }
    if y.position != 1 {
        return Err(Refusal::NoNewName);
    }
    if !name_values::not_below_zero(y.offset) {
        return Err(Refusal::NoNewName);
    }
    more(a, name_values::one_lower(y), own(author, MIDDLE), 2)
}

// "3. Else a·(32768, node, sequence, 0)."
fn right_after(a: Span, author: Author) -> Result<Parts, Refusal>
    requires { a.count ≤ limit }
    ensures { (s : Bytes) → Lies s a → Means s result (answer_name (some (row_at s a ++ (own_tuple author 32768 ∷ [])))) }
{
    one_more(a, own(author, MIDDLE))
}

// "2. Else if a is missing or a proper prefix of b, let y be b's first tuple after a."
fn close_by(page: &[u8], a: Span, b: Span, author: Author) -> Result<Parts, Refusal>
    requires { Lies page.now a × Lies page.now b }
    ensures { Means page.now result (answer_name (close_by author (row_at page.now a) (rest (row_at page.now a) (row_at page.now b)))) }
{
    if b.count <= a.count {
        return right_after(a, author);
    }
    if !is_prefix(page, a, b) {
        return right_after(a, author);
    }
    let y = slots::read_tuple(page, b.at + TUPLE * a.count);
    before_tuple(a, y, author)
}

// "1. If they differ by 2 or more: one tuple, position half their sum rounded down, author's node and sequence, offset 0."
fn new_between(page: &[u8], a: Span, b: Span, author: Author) -> Result<Parts, Refusal>
    requires { Lies page.now a × Lies page.now b }
    ensures { Means page.now result (answer_name (new_name author (row_at page.now a) (row_at page.now b))) }
{
    let low = first_position(page, a, LOWEST);
    let high = first_position(page, b, HIGHEST);
    if low + 2 <= high {
        return one_more(
            Span { at: 0, count: 0 },
            // `as`: half the sum of two positions fits.
            own(author, ((low + high) / 2) as u16),
        );
    }
    close_by(page, a, b, author)
}

// Where the name before a gap stands; before the first slot there is none.
fn span_before(page: &[u8], gap: usize) -> Span
    ensures { Lies page.now result × (row_at page.now result ≡ name_before gap (names_of page.now)) }
{
    if gap < 1 {
        return Span { at: 0, count: 0 };
    }
    pages::span_of(page, gap - 1)
}

// 1, 2, 4, 16, 12, 6; else of what the new name for a gap is made.
fn parts_for(page: &[u8], gap: usize, author: Author) -> Result<Parts, Refusal>
    ensures { Means page.now result (new_name_outcome page.now gap author) }
{
    let n = pages::check_page(page)?;
    if author.node < 1 {
        return Err(Refusal::NoAuthor);
    }
    if n < gap {
        return Err(Refusal::NoGap);
    }
    let a = span_before(page, gap);
    let b = pages::span_of(page, gap);
    new_between(page, a, b, author)
}

// Tuple k of those that stand at `a` and the two more.
fn part_at(page: &[u8], p: Parts, k: usize) -> Tuple
    requires { Within page.now p.a × (k < p.a.count + 2) }
    ensures { result ≡ get_or (parts_of page.now p) k m }
{
    if k < p.a.count {
        return slots::read_tuple(page, p.a.at + TUPLE * k);
    }
    if k == p.a.count {
        return p.first;
    }
    p.second
}

// The name, made where it is returned: one array, with zeros after the tuples.
fn made(page: &[u8], p: Parts) -> Name
    requires { Stands page.now p }
    ensures { result ≡ value_of (made_of page.now p) }
{
    let mut tuples = [name_values::low_marker(); LIMIT];
    for k in 0..p.depth {
        tuples[k] = part_at(page, p, k);
    }
    Name {
        depth: p.depth,
        tuples,
    }
}

// 1, 2, 4, 16, 12, 6; else a new name for the gap before slot `gap`, or after the last.
pub fn new_name(page: &[u8], gap: usize, author: Author) -> Result<Name, Refusal>
    ensures { Says result (new_name_outcome page.now gap author) }
{
    let parts = parts_for(page, gap, author)?;
    Ok(made(page, parts))
}
