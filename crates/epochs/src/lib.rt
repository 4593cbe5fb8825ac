// Epochs: the table and its check, the tree, the target, the next step and adding an epoch. Document 01, "Pages, logs, epochs",
// "Epoch tree" and "What comes back", with 02's P1. What a table and its tree are is defined in epoch_tree/specs, what the calls give in
// specs/. An epoch is the index of its entry in the table.

#![tactic(auto)]

ghost use Rattle.std.specs.Prelude.{◌≡◌, true, cond, not, ◌&&◌, ◌+◌, ◌/◌, ◌≤◌, ◌<◌, length, take, drop};
ghost use Rattle.std.specs.List.{list_any};
ghost use Rattle.std.specs.declared.cmp.Ordering.TheVariants.{Less, Greater};
ghost use Rattle.std.specs.Ordering.{ordering_then, is_lt};
ghost use Rattle.names.specs.Names.{within};
ghost use Rattle.numbers.specs.Bytes.{put};
ghost use Rattle.answers.specs.Answers.{leaves};
ghost use Rattle.epoch_tree.specs.Tables.{entry_size, max_entries, entry_of, entries_in, entries_of, entry_at, entry_bytes, is_first, is_count, same_pair, listed, keeps_entry, keeps_from, is_table, keeps_table};
ghost use Rattle.epoch_tree.specs.Tree.{parent_of, compare_keys, compare_epochs, greater, target as target_of, step_to, next_step};
ghost use Rattle.epochs.specs.Pairs.{pair_number, rest_number, key_number, groups, group_of, Under};
ghost use Rattle.epochs.specs.Calls.{check_table, step_number, step_index, number_in, index_in, answer_of, next_step_outcome, entry_by, add_outcome};

use answers::{Answer, Refusal};
use epoch_tree::Step;
use names::Author;

// "node u16, sequence u32, parent index u16", and 02, P1: "Entries become 10 bytes, the count after the parent index": the entry's size, and
// the places in it.
pub const ENTRY: usize = 10;

const SEQUENCE: usize = 2;

const PARENT: usize = 6;

const COUNT: usize = 8;

// "the number of names in its rename's log (u16, 1..256)": the most names of a log.
// `as`: no constant comes of From.
const NAMES: u16 = pages::SLOTS as u16;

// "An epoch table is 1..32 entries": the most entries, and the bytes of the largest table.
pub const ENTRIES: usize = 32;

pub const TABLE: usize = ENTRIES * ENTRY;

// ── entries ──

// How many nodes, sequences, parent indices and counts there are: the factors by which numbers that stand side by side are one.
const NODES: u64 = 65536;

const SEQUENCES: u64 = 4294967296;

const PARENTS: u64 = 65536;

const COUNTS: u32 = 65536;

// "node u16, sequence u32" as one number: the compiler makes one load of it, of which it takes both. Tried and slower: a read of each number by
// itself, which needs more registers than there are where the check of a table is part of `add`.
fn pair_of(entry: &[u8; ENTRY]) -> u64
    ensures { result ≡ pair_number (entry_of entry.now) }
{
    numbers::read_u64(entry, 0) / PARENTS
}

fn node_of(entry: &[u8; ENTRY]) -> u16
    ensures { result ≡ (entry_of entry.now).node }
{
    // `as`: what is left of the pair fits.
    (pair_of(entry) / SEQUENCES) as u16
}

fn sequence_of(entry: &[u8; ENTRY]) -> u32
    ensures { result ≡ (entry_of entry.now).sequence }
{
    // `as`: the remainder fits.
    (pair_of(entry) % SEQUENCES) as u32
}

// "parent index u16" and "the count after the parent index", likewise.
fn rest_of(entry: &[u8; ENTRY]) -> u32
    ensures { result ≡ rest_number (entry_of entry.now) }
{
    numbers::read_u32(entry, PARENT)
}

fn parent_of(entry: &[u8; ENTRY]) -> usize
    ensures { result ≡ (entry_of entry.now).parent }
{
    // `as`: std has no From that way.
    (rest_of(entry) / COUNTS) as usize
}

fn count_of(entry: &[u8; ENTRY]) -> u16
    ensures { result ≡ (entry_of entry.now).count }
{
    // `as`: the remainder fits.
    (rest_of(entry) % COUNTS) as u16
}

// ── the layout ──

// "the number of names in its rename's log (u16, 1..256)"
fn count_ok(count: u16) -> bool
    ensures { result ≡ is_count count }
{
    (1..=NAMES).contains(&count)
}

// "entry 0 stays all zero"
fn first_ok(entry: &[u8; ENTRY]) -> bool
    ensures { result ≡ is_first (entry_of entry.now) }
{
    node_of(entry) == 0 && sequence_of(entry) == 0 && parent_of(entry) == 0 && count_of(entry) == 0
}

// The entry has that (node, sequence).
fn pair_is(entry: &[u8; ENTRY], author: Author) -> bool
    ensures { result ≡ same_pair (entry_by author 0 0) (entry_of entry.now) }
{
    u64::from(author.node) * SEQUENCES + u64::from(author.sequence) == pair_of(entry)
}

// One of the entries has that (node, sequence).
fn is_listed(entries: &[[u8; ENTRY]], author: Author) -> bool
    ensures { result ≡ list_any (λ s. same_pair (entry_by author 0 0) (entry_of s)) entries.now }
{
    entries.iter().any(|entry| pair_is(entry, author))
}

// The nodes in groups: of each group the check keeps the greatest sequence so far. A unit counts its sequences up, so that the next of its
// own is above it.
const GROUPS: usize = 8;

fn group_of(node: u16) -> usize
    ensures { (result ≡ group_of node) × (result < groups) }
{
    usize::from(node) % GROUPS
}

// No entry before entry i has its (node, sequence): a sequence above the greatest of its group is none of theirs, and is kept; another is held
// against each.
fn is_new(entries: &[[u8; ENTRY]], i: usize, tops: &mut [u32; GROUPS]) -> bool
    requires { (i < length entries.now) × Under (entries_in entries.now) i tops.old }
    ensures value { result ≡ not (listed (entry_at (entries_in entries.now) i) (take i (entries_in entries.now))) }
    ensures under { Under (entries_in entries.now) (i + 1) tops.new }
{
    let node = node_of(&entries[i]);
    let sequence = sequence_of(&entries[i]);
    let group = group_of(node);
    if tops[group] < sequence {
        tops[group] = sequence;
        return true;
    }
    !is_listed(&entries[..i], Author { node, sequence })
}

// "Every other entry has node at least 1, a parent index below its own index, and a (node, sequence) that no other entry has"; "a count
// outside 1..256 in an entry other than entry 0 is 13". The greatest sequences before it are `tops`, which then has its own too.
fn entry_ok(entries: &[[u8; ENTRY]], i: usize, tops: &mut [u32; GROUPS]) -> bool
    requires { (i < length entries.now) × Under (entries_in entries.now) i tops.old }
    ensures value { result ≡ keeps_entry (entries_in entries.now) i (entry_at (entries_in entries.now) i) }
    ensures under { result ≡ true → Under (entries_in entries.now) (i + 1) tops.new }
{
    let entry = &entries[i];
    1 <= node_of(entry)
        && parent_of(entry) < i
        && count_ok(count_of(entry))
        && is_new(entries, i, tops)
}

// Entry 0, which is all zero, and every other entry.
fn entries_ok(entries: &[[u8; ENTRY]]) -> bool
    requires { 0 < length entries.now }
    ensures { result ≡ (is_first (entry_at (entries_in entries.now) 0) && keeps_from (entries_in entries.now) 1 (drop 1 (entries_in entries.now))) }
{
    if !first_ok(&entries[0]) {
        return false;
    }
    let mut tops = [0u32; GROUPS];
    for i in 1..entries.len() {
        if !entry_ok(entries, i, &mut tops) {
            return false;
        }
    }
    true
}

// "An epoch table is 1..32 entries"
fn size_ok(entries: usize) -> bool
    ensures { result ≡ within 1 max_entries entries }
{
    (1..=ENTRIES).contains(&entries)
}

// The layout of an epoch table.
pub fn table_ok(table: &[u8]) -> bool
    ensures { result ≡ keeps_table table.now }
{
    let (entries, rest) = table.as_chunks::<ENTRY>();
    rest.is_empty() && size_ok(entries.len()) && entries_ok(entries)
}

// 13; else the count of the table's entries.
pub fn check_table(table: &[u8]) -> Answer
    ensures { result ≡ check_table table.now }
{
    if !table_ok(table) {
        return Err(Refusal::BadTable);
    }
    Ok(table.len() / ENTRY)
}

// ── the comparison ──

// "by that number first, then node, then sequence": the key of the comparison stands here, and nowhere else. The three are one number, the
// count its highest part, so that keys compare as these numbers do.
fn key_of(entry: &[u8; ENTRY]) -> u64
    ensures { result ≡ key_number (entry_of entry.now) }
{
    u64::from(count_of(entry)) * NODES * SEQUENCES + pair_of(entry)
}

// The key of the first entry is below that of the second.
fn is_below(entry: &[u8; ENTRY], other: &[u8; ENTRY]) -> bool
    ensures { result ≡ is_lt (compare_keys (entry_of entry.now) (entry_of other.now)) }
{
    key_of(entry) < key_of(other)
}

// ── the tree ──

// A checked table, whose epochs are a tree. A reference to it is one number, and the compiler makes a loop of a method that ends by calling
// itself where each other parameter is a number or a bool: so the recursion needs no stack.
#[derive(Clone, Copy)]
struct Tree<'a> {
    entries: &'a [[u8; ENTRY]],
    ghost is_table: { is_table (entries_in entries.now) ≡ true },
}

impl<'a> Tree<'a> {
    // A parent's index is below 32, so that its second byte is all of it.
    fn parent(&self, k: usize) -> usize
        requires { k < length self.now.entries.now }
        ensures { result ≡ parent_of (entries_in self.now.entries.now) k }
    {
        usize::from(self.entries[k][PARENT + 1])
    }

    // The first of two epochs is the smaller by their paths, each "traced back through parents, each with a smaller index"; `tie` is what
    // two equal ones come to. Of two that have different parents the one with the greater parent index, say i under p, is compared by p: j
    // is not under p, since its parent's index is below p, so p's path decides as i's would, and where p is j itself, i's path goes on and
    // is the greater.
    fn is_smaller(&self, i: usize, j: usize, tie: bool) -> bool
        requires { (i < length self.now.entries.now) × (j < length self.now.entries.now) }
        ensures { result ≡ is_lt (ordering_then (compare_epochs (entries_in self.now.entries.now) i j) (cond tie Less Greater)) }
    {
        if i == j {
            return tie;
        }
        if i < 1 {
            return true;
        }
        if j < 1 {
            return false;
        }
        let p = self.parent(i);
        let q = self.parent(j);
        if p == q {
            return is_below(&self.entries[i], &self.entries[j]);
        }
        if q < p {
            return self.is_smaller(p, j, false);
        }
        self.is_smaller(i, q, true)
    }

    // The one of two epochs with the greater path.
    fn greater(&self, i: usize, j: usize) -> usize
        requires { (i < length self.now.entries.now) × (j < length self.now.entries.now) }
        ensures { result ≡ greater (entries_in self.now.entries.now) i j }
    {
        if self.is_smaller(i, j, false) { j } else { i }
    }

    // "The target is the greatest."
    fn target(&self) -> usize
        ensures { result ≡ target_of (entries_in self.now.entries.now) }
    {
        let mut best = 0;
        for k in 1..self.entries.len() {
            best = self.greater(best, k);
        }
        best
    }

    // Of d's path, "traced back through parents, each with a smaller index", the last epoch whose index is above c: it is under c where c
    // is on the path, since no other then is.
    fn above(&self, d: usize, c: usize) -> usize
        requires { (d < length self.now.entries.now) × (c < d) }
        ensures c_value { step_to (entries_in self.now.entries.now) result c ≡ step_to (entries_in self.now.entries.now) d c }
        ensures lower_bound { (c < result) × (result ≤ d) × (parent_of (entries_in self.now.entries.now) result ≤ c) }
    {
        let p = self.parent(d);
        if p <= c {
            return d;
        }
        self.above(p, c)
    }

    // The step from c towards d: c can be on d's path only where its index is the smaller, and the epoch on it whose parent is c is the
    // child that the step goes down to.
    fn step_to(&self, d: usize, c: usize) -> Step
        requires { (d < length self.now.entries.now) × (c < length self.now.entries.now) }
        ensures { result ≡ step_to (entries_in self.now.entries.now) d c }
    {
        if d == c {
            return Step::Stay;
        }
        if d < c {
            return Step::Up(self.parent(c));
        }
        let child = self.above(d, c);
        if self.parent(child) == c {
            return Step::Down(child);
        }
        Step::Up(self.parent(c))
    }

    // The step from c towards the target.
    fn next_step(&self, c: usize) -> Step
        requires { c < length self.now.entries.now }
        ensures { result ≡ next_step (entries_in self.now.entries.now) c }
    {
        self.step_to(self.target(), c)
    }
}

// ── the next step ──

// What comes back of a question for the next step.
pub type Next = Result<Step, Refusal>;

// 0 stay, 1 up, 2 down.
fn number_of(s: Step) -> u8
    ensures { result ≡ step_number s }
{
    match s {
        Step::Stay => 0,
        Step::Up(_) => 1,
        Step::Down(_) => 2,
    }
}

// The parent's or the child's index; 0 where the step is to stay.
fn index_of(s: Step) -> usize
    ensures { result ≡ step_index s }
{
    match s {
        Step::Stay => 0,
        Step::Up(i) | Step::Down(i) => i,
    }
}

// The number and the index of the step in what comes back; a refusal has zeros.
pub fn step_number(n: Next) -> u8
    ensures { result ≡ number_in n }
{
    n.map_or(0, number_of)
}

pub fn step_index(n: Next) -> usize
    ensures { result ≡ index_in n }
{
    n.map_or(0, index_of)
}

// The answer in what comes back, whose count is 0.
pub fn answer(n: Next) -> Answer
    ensures { result ≡ answer_of n }
{
    n.map(|_| 0)
}

// 13, 14; else the next step.
pub fn next_step(table: &[u8], current: usize) -> Next
    ensures { result ≡ next_step_outcome table.now current }
{
    let n = check_table(table)?;
    if n <= current {
        return Err(Refusal::NoEpoch);
    }
    let (entries, _) = table.as_chunks::<ENTRY>();
    let tree = Tree { entries };
    Ok(tree.next_step(current))
}

// ── adding ──

// An entry from p on.
fn write_entry(out: &mut [u8], p: usize, author: Author, parent: usize, count: u16)
    requires { (p + entry_size ≤ length out.old) × (parent < 65536) }
    ensures { out.new ≡ put out.old p (entry_bytes (entry_by author parent count)) }
{
    numbers::write_u16(out, p, author.node);
    numbers::write_u32(out, p + SEQUENCE, author.sequence);
    // `as`: it fits by the contract.
    numbers::write_u16(out, p + PARENT, parent as u16);
    numbers::write_u16(out, p + COUNT, count);
}

// 13 (table), 14, 4, 13 (the given count), 17, 18, 8; else the table with the author's epoch under the parent, whose rename's log has so
// many names.
pub fn add(table: &[u8], parent: usize, author: Author, count: u16, out: &mut [u8]) -> Answer
    ensures value { result ≡ (add_outcome table.now parent author count (length out.old)).answer }
    ensures out_after { out.new ≡ leaves (add_outcome table.now parent author count (length out.old)) out.old }
{
    let n = check_table(table)?;
    if n <= parent {
        return Err(Refusal::NoEpoch);
    }
    if author.node < 1 {
        return Err(Refusal::NoAuthor);
    }
    if !count_ok(count) {
        return Err(Refusal::BadTable);
    }
    let (entries, _) = table.as_chunks::<ENTRY>();
    if is_listed(entries, author) {
        return Err(Refusal::Listed);
    }
    if ENTRIES <= n {
        return Err(Refusal::TableFull);
    }
    if out.len() < table.len() + ENTRY {
        return Err(Refusal::Short);
    }
    numbers::copy(out, 0, table);
    write_entry(out, table.len(), author, parent, count);
    Ok(n + 1)
}
