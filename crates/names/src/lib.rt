// Names of lines and their order. Document 01, "Names"; the definitions are in specs/.

#![tactic(auto)]

ghost use Rattle.std.specs.Prelude.{◌≡◌, ◌≤◌, length};
ghost use Rattle.std.specs.Ordering.{is_lt};
ghost use Rattle.names.specs.Names.{limit, row_of};
ghost use Rattle.names.specs.Ordering.{compare_tuples, compare_rows};

use std::cmp::Ordering;

// The most tuples that a name has. 02, P8: "Raise the depth limit to sixteen."
pub const LIMIT: usize = 16;

// "Tuples compare by position, node, sequence, offset, in that order, offset signed": the derived order is that of the fields.
#[derive(Clone, Copy, Debug, PartialEq, Eq, PartialOrd, Ord)]
pub struct Tuple {
    pub position: u16,
    pub node: u16,
    pub sequence: u32,
    pub offset: i32,
}

// "A name is a row of at most eight tuples, passed as a whole" (02, P8: sixteen): the first depth of the tuples are the name's. A
// depth above LIMIT counts as LIMIT. An array with its length beside, since there is no heap; and no derived equality or order, since the tuples after
// the first depth are not the name's.
#[derive(Clone, Copy)]
pub struct Name {
    pub depth: usize,
    pub tuples: [Tuple; LIMIT],
}

impl Name {
    // The tuples of the name.
    pub fn row(&self) -> &[Tuple]
        ensures { result.now ≡ row_of self.now }
    {
        &self.tuples[..self.depth.min(LIMIT)]
    }
}

// "author (A, s)": whoever renames a book, or makes a name.
#[derive(Clone, Copy, Debug, PartialEq, Eq)]
pub struct Author {
    pub node: u16,
    pub sequence: u32,
}

// "Tuples compare by position, node, sequence, offset, in that order, offset signed."
#[tactic(auto, using(crate::proofs::DerivedOrder::tuples_ordered))]
pub fn compare_tuples(s: Tuple, t: Tuple) -> Ordering
    ensures { result ≡ compare_tuples s t }
{
    s.cmp(&t)
}

// How many tuples a name has.
pub fn tuples_in(a: Name) -> usize
    ensures { (result ≡ length (row_of a)) × (result ≤ limit) }
{
    a.row().len()
}

// "Names compare at the first tuple that differs"; a proper prefix is smaller: so do slices. The loop that 01 names stands where names in bytes compare,
// in `slots::compare_rows`.
#[tactic(auto, using(crate::proofs::DerivedOrder::rows_compared))]
pub fn compare(a: Name, b: Name) -> Ordering
    ensures { result ≡ compare_rows (row_of a) (row_of b) }
{
    a.row().cmp(b.row())
}

// a is below b.
pub fn is_below(a: Name, b: Name) -> bool
    ensures { result ≡ is_lt (compare_rows (row_of a) (row_of b)) }
{
    compare(a, b).is_lt()
}
