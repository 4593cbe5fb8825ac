// Names made by value: the empty one, one tuple more, two joined, one below. Document 01, "Names"; the definitions are in
// crates/names.

#![tactic(auto)]

ghost use Rattle.std.specs.Prelude.{◌≡◌, [], ◌∷◌, ◌++◌, true, ◌+◌, ◌≤◌, ◌<◌, length};
ghost use Rattle.std.specs.Int.Signed.{non_neg};
ghost use Rattle.names.specs.Names.{limit, row_of, value_of, joined, lowered, one_below, is_name, m, M};

use names::{LIMIT, Name, Tuple};

// "Two end markers exist": m, below every ordinary tuple ..
pub fn low_marker() -> Tuple
    ensures { result ≡ m }
{
    Tuple {
        position: 0,
        node: 0,
        sequence: 0,
        offset: 0,
    }
}

// .. and M, above.
pub fn high_marker() -> Tuple
    ensures { result ≡ M }
{
    Tuple {
        position: u16::MAX,
        node: u16::MAX,
        sequence: u32::MAX,
        offset: i32::MAX,
    }
}

// The row of no tuples, zeros after it: no name, or a name that is missing.
pub fn empty() -> Name
    ensures { result ≡ value_of [] }
{
    Name {
        depth: 0,
        tuples: [low_marker(); LIMIT],
    }
}

// One tuple more, of a row with zeros after it.
pub fn push(a: Name, t: Tuple) -> Name
    requires { (a ≡ value_of (row_of a)) × (length (row_of a) < limit) }
    ensures { result ≡ value_of (row_of a ++ (t ∷ [])) }
{
    let mut tuples = a.tuples;
    tuples[a.depth] = t;
    Name {
        depth: a.depth + 1,
        tuples,
    }
}

// The name of one tuple.
pub fn one(t: Tuple) -> Name
    ensures { result ≡ value_of (t ∷ []) }
{
    push(empty(), t)
}

// The tuples of b after those of a, which has zeros after them.
fn append(a: Name, b: Name) -> Name
    requires { (a ≡ value_of (row_of a)) × (length (row_of a) + length (row_of b) ≤ limit) }
    ensures { result ≡ value_of (row_of a ++ row_of b) }
{
    let mut r = a;
    for t in b.row() {
        r = push(r, *t);
    }
    r
}

// "a·b means the tuples of a, then those of b": a·t·b, with the tuple t between. Where these are more than LIMIT there is no name.
pub fn join_by(a: Name, t: Tuple, b: Name) -> Option<Name>
    ensures { result ≡ joined (row_of a) (t ∷ row_of b) }
{
    if LIMIT <= names::tuples_in(a) + names::tuples_in(b) {
        return None;
    }
    Some(append(push(append(empty(), a), t), b))
}

pub fn not_below_zero(z: i32) -> bool
    ensures { result ≡ non_neg z }
{
    !z.is_negative()
}

// A tuple one offset lower.
pub fn one_lower(t: Tuple) -> Tuple
    requires { non_neg t.offset ≡ true }
    ensures { result ≡ lowered t }
{
    Tuple {
        offset: t.offset - 1,
        ..t
    }
}

// "'One below' a name is that name with its last offset less 1; offset 0 gives −1."
pub fn one_below(a: Name) -> Name
    requires { is_name (row_of a) ≡ true }
    ensures { row_of result ≡ one_below (row_of a) }
{
    let mut tuples = a.tuples;
    let n = names::tuples_in(a);
    tuples[n - 1] = one_lower(tuples[n - 1]);
    Name { depth: n, tuples }
}
