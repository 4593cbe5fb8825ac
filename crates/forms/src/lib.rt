// Forms in bytes: a group read where it stands, one look at a whole form, and what stands before a group's line numbers written. 02, P2;
// what a group and a form are is defined in `groups`, how the code speaks of them in specs/.

#![tactic(auto)]

ghost use Rattle.std.specs.Prelude.{◌≡◌, true, ◌+◌, ◌*◌, ◌-◌, ◌≤◌, ◌<◌, length, drop, IfSome};
ghost use Rattle.names.specs.Names.{is_name};
ghost use Rattle.numbers.specs.Bytes.{at32, put};
ghost use Rattle.slots.specs.Tuples.{row_at, Within, Lies, tuple_size};
ghost use Rattle.fields.specs.Fields.{field_head};
ghost use Rattle.runs.specs.Runs.{onward};
ghost use Rattle.groups.specs.Groups.{line_size, is_group};
ghost use Rattle.groups.specs.Forms.{group_stands};
ghost use Rattle.forms.specs.Blocks.{no_block, block_here, block_at, end_of, group_of, Stood, Sound, after_group_of, after_run, after_name, sought, looked, sizes_bytes, head_bytes};

use fields::{Cursor, FIELD};
use groups::{AFTER_NAME, FIRST_TAG, GROUP, LENGTH, LENGTH_TAG, LINE, LINES_TAG, MOST};
use names::LIMIT;
use runs::{OFFSET_SIZE, Stand};
use slots::{Span, TUPLE};
use std::cmp::Ordering;

// A group where it stands in a form: its first name, where its line numbers stand, and how many slots it has.
#[derive(Clone, Copy, Debug, PartialEq, Eq)]
pub struct Block {
    pub name: Span,
    pub lines: usize,
    pub count: usize,
}

// "offset −1..2147483646": one more than the greatest.
const OFFSETS: usize = 2147483647;

// ── a group where it stands ──

// What stands beside a group where there is none: a group of no slots. No Option: each who asks tests for slots anyway, and a group of none answers as no
// group does.
pub fn no_block() -> Block
    ensures { result ≡ no_block }
{
    Block {
        name: Span { at: 0, count: 0 },
        lines: 0,
        count: 0,
    }
}

// The eight bytes between the name and the line numbers of a group of no slots as one number: the field of the length, and tag and length of
// the field of the line numbers.
const SIZES: u64 = 0x0700_0200_0008_0000;

// How much more each slot makes of it: one more in the length, four more in the length of the other field.
const SLOT_SIZES: u64 = 0x0100_0004;

// The group whose fields stand one after the other from the cursor on, or none. That all but its line numbers is within the form is asked first: where
// it would end is then known before its bytes are tested.
pub fn block_at(form: &[u8], cursor: Cursor) -> Option<Block>
    requires { cursor.at ≤ length form.now }
    ensures value { result ≡ block_at form.now cursor.at }
    ensures stood { IfSome result (λ block. Stood form.now block) }
{
    let at = cursor.at;
    let left = form.len() - at;
    if left < GROUP {
        return None;
    }
    let size = fields::size_at(form, cursor);
    if left - GROUP < size {
        return None;
    }
    let after = at + FIELD + size;
    let lines = after + AFTER_NAME;
    let slots = numbers::read_u16(form, after + FIELD);
    let count = usize::from(slots);
    let end = lines + LINE * count;
    let depth = size / TUPLE;
    if form[at] != FIRST_TAG {
        return None;
    }
    if TUPLE * depth < size {
        return None;
    }
    if MOST < count {
        return None;
    }
    if numbers::read_u64(form, after) != SIZES + SLOT_SIZES * u64::from(slots) {
        return None;
    }
    if form.len() < end {
        return None;
    }
    Some(Block {
        name: Span {
            at: at + FIELD,
            count: depth,
        },
        lines,
        count,
    })
}

// The same where one stands. `block_at` makes its group itself, of what it has read: a call of this costs some instructions a group.
pub fn block_here(form: &[u8], cursor: Cursor) -> Block
    requires { (cursor.at ≤ length form.now) × (group_stands (drop cursor.at form.now) ≡ true) }
    ensures value { result ≡ block_here form.now cursor.at }
    ensures stood { Stood form.now result }
{
    let size = fields::size_at(form, cursor);
    let at = cursor.at + FIELD;
    let after = at + size;
    Block {
        name: Span {
            at,
            count: size / TUPLE,
        },
        lines: after + AFTER_NAME,
        count: usize::from(numbers::read_u16(form, after + FIELD)),
    }
}

// Where a group begins, and where it ends.
pub fn start_of(block: Block) -> usize
    requires { field_head ≤ block.name.at }
    ensures { result ≡ block.name.at - field_head }
{
    block.name.at - FIELD
}

pub fn end_of(block: Block) -> usize
    requires { end_of block ≤ 18446744073709551615 }
    ensures { result ≡ end_of block }
{
    block.lines + LINE * block.count
}

// ── the check of a form ──

// The last offset of a name.
fn last_offset(form: &[u8], name: Span) -> usize
    requires { Within form.now name × (1 ≤ name.count) }
    ensures { result ≡ at32 form.now (name.at + tuple_size * name.count - 4) }
{
    // `as`: std has no From that way.
    numbers::read_u32(form, name.at + TUPLE * name.count - OFFSET_SIZE) as usize
}

// A group has a slot, its first name is a name, and its run does not pass the greatest offset.
fn group_ok(form: &[u8], block: Block) -> bool
    requires { Stood form.now block }
    ensures { result ≡ is_group (group_of form.now block) }
{
    let name = block.name;
    1 <= block.count
        && 1 <= name.count
        && name.count <= LIMIT
        && slots::is_name_at(form, name.at, name.count)
        && last_offset(form, name) + block.count <= OFFSETS
}

// How a name comes after a group: as the next of its run, above its last name, or not.
#[derive(Clone, Copy, Debug, PartialEq, Eq)]
enum After {
    Joins,
    Falls,
    Rises,
}

// By where the name stands beside the group's run of so many names.
fn after_run(stand: Stand, count: usize) -> After
    requires { 1 ≤ count }
    ensures { result ≡ after_run stand count }
{
    match stand {
        Stand::Below | Stand::Before => After::Falls,
        Stand::At(i) => {
            if i < count {
                After::Falls
            } else if i == count {
                After::Joins
            } else {
                After::Rises
            }
        }
        Stand::Beyond(i) => {
            if i < count - 1 {
                After::Falls
            } else {
                After::Rises
            }
        }
        Stand::Above => After::Rises,
    }
}

// After no group every name rises.
fn after_block(form: &[u8], last: Block, name: Span) -> After
    requires { Sound form.now last × Within form.now name × (is_name (row_at form.now name) ≡ true) }
    ensures { result ≡ after_group_of (group_of form.now last) (row_at form.now name) }
{
    if last.count < 1 {
        return After::Rises;
    }
    after_run(runs::beside(form, last.name, form, name), last.count)
}

// ── where a name would stand ──

// How many groups, from the first on, have a first name that is not above a given one, and where the last of them begins and the one before
// it. It is sought until a group's first name is above; no Option in place of `sought`, since the three numbers are what is told in the end.
#[derive(Clone, Copy, Debug, PartialEq, Eq)]
pub struct Place {
    pub sought: bool,
    pub groups: usize,
    pub here: usize,
    pub before: usize,
}

// One group further, whose first name stands at `first` and which begins at `at`.
fn seek(form: &[u8], first: Span, at: usize, slot: &[u8], name: Span, place: Place) -> Place
    requires { Within form.now first × Within slot.now name × (place.groups < 18446744073709551615) }
    ensures { result ≡ sought (row_at slot.now name) at (row_at form.now first) place }
{
    if !place.sought {
        return place;
    }
    match slots::compare_rows(form, first.at, first.count, slot, name.at, name.count) {
        Ordering::Less | Ordering::Equal => Place {
            groups: place.groups + 1,
            here: at,
            before: place.here,
            ..place
        },
        Ordering::Greater => Place {
            sought: false,
            ..place
        },
    }
}

// ── one look at a form ──

// What one look at a form tells, its order and the number of its slots apart: whether its names rise; how many slots it has; and where a
// name would stand.
#[derive(Clone, Copy, Debug, PartialEq, Eq)]
pub struct Looked {
    pub rises: bool,
    pub slots: usize,
    pub place: Place,
}

// Group by group, each after the one before it; of what is no form nothing is told. 15 comes before 2 wherever it stands, so that a name that
// does not rise ends nothing. The name for which a place is sought stands in `slot`; the row of no tuples is below every name, so that none is
// sought for it.
pub fn look(form: &[u8], slot: &[u8], name: Span) -> Option<Looked>
    requires { Within slot.now name }
    ensures { result ≡ looked form.now (row_at slot.now name) }
{
    let mut place = Place {
        sought: true,
        groups: 0,
        here: 0,
        before: 0,
    };
    let mut last = no_block();
    let mut rises = true;
    let mut slots: usize = 0;
    let mut at: usize = 0;
    // A `while`: the next group begins where this one ends.
    while at < form.len() {
        let block = block_at(form, Cursor { at })?;
        if !group_ok(form, block) {
            return None;
        }
        match after_block(form, last, block.name) {
            After::Joins => return None,
            After::Falls => {
                rises = false;
            }
            After::Rises => {}
        }
        place = seek(form, block.name, at, slot, name, place);
        slots += block.count;
        last = block;
        at = end_of(block);
    }
    Some(Looked {
        rises,
        slots,
        place,
    })
}

// ── writing ──

// What stands between the name and the line numbers of a group of so many slots.
pub fn write_sizes(out: &mut [u8], p: usize, count: usize)
    requires { (line_size * count ≤ 65535) × (p + after_name ≤ length out.old) }
    ensures { out.new ≡ put out.old p (sizes_bytes count) }
{
    // `as`: the sizes fit by the contract.
    fields::write_field_head(out, p, LENGTH_TAG, LENGTH as u16);
    numbers::write_u16(out, p + FIELD, count as u16);
    fields::write_field_head(out, p + FIELD + LENGTH, LINES_TAG, (LINE * count) as u16);
}

// What stands before the line numbers of a group of so many slots, whose first name comes k after the one at `name`; and the place after it.
pub fn write_head(out: &mut [u8], p: usize, s: &[u8], name: Span, k: u32, count: usize) -> usize
    requires lies { Lies s.now name × (1 ≤ name.count) × (line_size * count ≤ 65535) × (at32 s.now (name.at + tuple_size * name.count - 4) + k < 2147483648) }
    requires count_in_bounds { p + length (head_bytes (onward k (row_at s.now name)) count) ≤ length out.old }
    ensures value { result ≡ p + length (head_bytes (onward k (row_at s.now name)) count) }
    ensures out_after { out.new ≡ put out.old p (head_bytes (onward k (row_at s.now name)) count) }
{
    let size = TUPLE * name.count;
    // `as`: a name has 16 tuples at most.
    fields::write_field_head(out, p, FIRST_TAG, size as u16);
    runs::copy_onward(out, p + FIELD, s, name, k);
    let sizes = p + FIELD + size;
    write_sizes(out, sizes, count);
    sizes + AFTER_NAME
}
