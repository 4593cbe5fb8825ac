// Insert and remove on a page's grouped form, in its bytes: groups are split and joined where they stand, and no page is made. 02, P2: "Insert
// and remove should also work on the grouped form, splitting and joining, and agree with the page." What they give is defined in `groups`;
// how the code speaks of a place and of a change is in specs/.

#![tactic(auto)]

ghost use Rattle.std.specs.Prelude.{◌≡◌, true, false, cond, ◌+◌, ◌≤◌, ◌<◌, length, drop};
ghost use Rattle.names.specs.Ordering.{compare_rows};
ghost use Rattle.names.specs.Names.{is_name};
ghost use Rattle.slots.specs.Tuples.{row_at, Within, Lies};
ghost use Rattle.slots.specs.Slots.{slot_size, name_of};
ghost use Rattle.answers.specs.Answers.{in_order, leaves};
ghost use Rattle.fields.specs.Fields.{field_head};
ghost use Rattle.groups.specs.Forms.{group_stands, slots_of_form};
ghost use Rattle.groups.specs.Calls.{insert_form_outcome, remove_form_outcome};
ghost use Rattle.std.specs.Ordering.{is_le};
ghost use Rattle.forms.specs.Blocks.{end_of, Stood, all_told};
ghost use Rattle.form_edits.specs.Choices.{met_by, is_here, met_in, block_by, after_block, precedes_in, goes_on, head_of, split_by, bridge_by, append_by, prepend_by, alone_at, between_by, part_from, part_by, close_by, vanish_by};
ghost use Rattle.form_edits.specs.Edits.{place_in, reached_in, preceded_in, taken_in, edit_tests, Edited, Inserts};
ghost use Rattle.runs.specs.declared.Stand.TheVariants.{At, Beyond};

use answers::{Answer, Refusal};
use fields::Cursor;
use form_changes::{Change, Head};
use forms::{Block, Looked, Place};
use groups::LINE;
use pages::SLOTS;
use runs::OFFSET_SIZE;
use slots::{HEAD, SLOT, Span, TUPLE};

// ── where the given name stands ──

// Where a slot's name stands; what is no slot has none.
fn name_in(slot: &[u8]) -> Span
    ensures lies { Lies slot.now result }
    ensures result_value { length slot.now ≡ slot_size → row_at slot.now result ≡ name_of slot.now }
{
    if slot.len() < SLOT {
        return Span { at: 0, count: 0 };
    }
    let count = slots::depth(slot);
    Span { at: HEAD, count }
}

// The group at a place, or none: a group of no slots, and no Option, as `forms::no_block` says.
fn block_by(form: &[u8], found: bool, at: usize) -> Block
    requires { found ≡ true → (at ≤ length form.now) × (group_stands (drop at form.now) ≡ true) }
    ensures value { result ≡ block_by form.now found at }
    ensures stood { Stood form.now result }
{
    if !found {
        return forms::no_block();
    }
    forms::block_here(form, Cursor { at })
}

// Where the groups after the last one begin whose first name is not above the given one.
fn after_place(block: Block) -> usize
    requires { end_of block ≤ 18446744073709551615 }
    ensures { result ≡ after_block block }
{
    if block.count < 1 {
        return 0;
    }
    forms::end_of(block)
}

// Where a name stands in a group whose first name is not above it: it is the name of that slot, it lies before that slot, within the group, or
// it is above them all, and would go on with the run or not. That bool is a fact of the name and switches no step on; likewise `ends` and `joins` below.
#[derive(Clone, Copy, Debug, PartialEq, Eq)]
enum Met {
    Here(usize),
    Inside(usize),
    After(bool),
}

// By how many the last offset of the group's first name falls short of the one in its place, and whether the name ends there.
fn met_after(steps: usize, count: usize, ends: bool) -> Met
    requires { steps < 4294967296 }
    ensures { result ≡ met_by (cond ends (At steps) (Beyond steps)) count }
{
    if ends {
        if steps < count {
            Met::Here(steps)
        } else {
            Met::After(steps == count)
        }
    } else if steps + 1 < count {
        Met::Inside(steps + 1)
    } else {
        Met::After(false)
    }
}

// Without a group the name is after none, and goes on with no run.
fn meet(form: &[u8], block: Block, slot: &[u8], name: Span) -> Met
    requires within { Within form.now block.name × Lies slot.now name × (is_name (row_at slot.now name) ≡ true) }
    requires name_value { 1 ≤ block.name.count → (is_name (row_at form.now block.name) ≡ true) × (is_le (compare_rows (row_at form.now block.name) (row_at slot.now name)) ≡ true) }
    ensures { result ≡ met_in form.now block (row_at slot.now name) }
{
    let n = block.name.count;
    if name.count < n {
        return Met::After(false);
    }
    if n < 1 {
        return Met::After(false);
    }
    if !runs::same_but_last(form, block.name.at, slot, name.at, n) {
        return Met::After(false);
    }
    let last = TUPLE * n - OFFSET_SIZE;
    let steps = numbers::read_u32(slot, name.at + last)
        - numbers::read_u32(form, block.name.at + last);
    // `as`: std has no From that way.
    met_after(steps as usize, block.count, name.count == n)
}

// ── insert ──

// How a slot is put into a form: the change, and the head of its name, of as many slots as it begins.
#[derive(Clone, Copy, Debug, PartialEq, Eq)]
struct Insertion {
    head: Head,
    change: Change,
}

// Of the given name, or without slots none.
fn head_of(name: Span, slots: usize) -> Head
    ensures { result ≡ head_of name slots }
{
    Head {
        name,
        onward: 0,
        slots,
    }
}

// Within a group: it is split, and the slot is a group between its parts.
fn splits(block: Block, index: usize, name: Span) -> Insertion
    requires { (end_of block ≤ 18446744073709551615) × (index ≤ block.count) × (index < 4294967296) }
    ensures { result ≡ split_by block index name }
{
    let from = block.lines + LINE * index;
    Insertion {
        head: head_of(name, 1),
        change: Change {
            from,
            to: from,
            lines: block.lines,
            count: index,
            rest: Head {
                name: block.name,
                // `as`: it fits by the contract.
                onward: index as u32,
                slots: block.count - index,
            },
        },
    }
}

// Between the last name of a group and the first of the next, which is two later: the three are one.
fn bridges(block: Block, next: Block, name: Span) -> Insertion
    requires { (end_of block ≤ 18446744073709551615) × (block.count + 1 + next.count ≤ 65535) }
    ensures { result ≡ bridge_by block next name }
{
    Insertion {
        head: head_of(name, 0),
        change: Change {
            from: forms::end_of(block),
            to: next.lines,
            lines: block.lines,
            count: block.count + 1 + next.count,
            rest: head_of(name, 0),
        },
    }
}

// Right after a group.
fn appends(block: Block, name: Span) -> Insertion
    requires { (end_of block ≤ 18446744073709551615) × (block.count ≤ 65535) }
    ensures { result ≡ append_by block name }
{
    let end = forms::end_of(block);
    Insertion {
        head: head_of(name, 0),
        change: Change {
            from: end,
            to: end,
            lines: block.lines,
            count: block.count + 1,
            rest: head_of(name, 0),
        },
    }
}

// Right before a group: the name is its first.
fn prepends(next: Block, name: Span) -> Insertion
    requires { (field_head ≤ next.name.at) × (next.count ≤ 65535) }
    ensures { result ≡ prepend_by next name }
{
    Insertion {
        head: head_of(name, 1 + next.count),
        change: Change {
            from: forms::start_of(next),
            to: next.lines,
            lines: next.lines,
            count: 0,
            rest: head_of(name, 0),
        },
    }
}

// A group by itself, before the groups that begin at `at`.
fn stands_alone(at: usize, name: Span) -> Insertion
    ensures { result ≡ alone_at at name }
{
    Insertion {
        head: head_of(name, 1),
        change: Change {
            from: at,
            to: at,
            lines: at,
            count: 0,
            rest: head_of(name, 0),
        },
    }
}

// The name comes right before the group's first.
fn comes_before(form: &[u8], next: Block, slot: &[u8], name: Span) -> bool
    requires within { Within form.now next.name × (1 ≤ next.count → is_name (row_at form.now next.name) ≡ true) }
    requires within_2 { Within slot.now name × (is_name (row_at slot.now name) ≡ true) }
    ensures { result ≡ precedes_in form.now (row_at slot.now name) next }
{
    1 <= next.count
        && name.count == next.name.count
        && runs::is_onward(slot, name.at, form, next.name.at, name.count, 1)
}

// A name above the group and below the next one, which begins at `end`: whether it is the next of the group's run, and comes right before the
// next group's. Two bools, since they are two facts, and each pair of them is a case.
fn between(
    block: Block,
    next: Block,
    end: usize,
    joins: bool,
    precedes: bool,
    name: Span,
) -> Insertion
    requires block_bound { joins ≡ true → (end_of block ≤ 18446744073709551615) × (block.count ≤ 16383) }
    requires field_head_le_at { precedes ≡ true → (field_head ≤ next.name.at) × (next.count ≤ 16383) }
    ensures { result ≡ between_by block next end joins precedes name }
{
    match (joins, precedes) {
        (true, true) => bridges(block, next, name),
        (true, false) => appends(block, name),
        (false, true) => prepends(next, name),
        (false, false) => stands_alone(end, name),
    }
}

// Of a name above all of the group, or of none: whether it is the next of its run.
fn placed_after(form: &[u8], block: Block, joins: bool, slot: &[u8], name: Span) -> Insertion
    requires { Edited form.now slot.now name × (block ≡ reached_in form.now (name_of slot.now)) × (met_in form.now block (name_of slot.now) ≡ Met.After joins) }
    ensures { Inserts form.now slot.now result }
{
    let end = after_place(block);
    let next = block_by(form, end < form.len(), end);
    let first = comes_before(form, next, slot, name);
    between(block, next, end, joins, first, name)
}

// Of a name that the form lacks, by where it was met. One that it has is not asked for.
fn placed(form: &[u8], block: Block, met: Met, slot: &[u8], name: Span) -> Insertion
    requires { Edited form.now slot.now name × (block ≡ reached_in form.now (name_of slot.now)) × (met ≡ met_in form.now block (name_of slot.now)) × (is_here met ≡ false) }
    ensures { Inserts form.now slot.now result }
{
    match met {
        Met::Here(_) => stands_alone(0, name),
        Met::Inside(i) => splits(block, i, name),
        Met::After(joins) => placed_after(form, block, joins, slot, name),
    }
}

fn is_here(met: Met) -> bool
    ensures { result ≡ is_here met }
{
    matches!(met, Met::Here(_))
}

// 9, 11, 8; else the form with the slot. The tests before these have passed.
fn insert_into(
    form: &[u8],
    slots: usize,
    place: Place,
    slot: &[u8],
    name: Span,
    out: &mut [u8],
) -> Answer
    requires { Edited form.now slot.now name × (slots ≡ length (slots_of_form form.now)) × (place ≡ place_in form.now (name_of slot.now)) }
    ensures value { result ≡ (insert_form_outcome form.now slot.now (length out.old)).answer }
    ensures out_after { out.new ≡ leaves (insert_form_outcome form.now slot.now (length out.old)) out.old }
{
    let block = block_by(form, 0 < place.groups, place.here);
    let met = meet(form, block, slot, name);
    if is_here(met) {
        return Err(Refusal::Present);
    }
    let insertion = placed(form, block, met, slot, name);
    if SLOTS <= slots {
        return Err(Refusal::Full);
    }
    form_changes::put_in(form, slot, insertion.head, insertion.change, out)
}

// ── remove ──

// Where the bytes begin that give way where slot `index` of several goes: of the first, the group's own head goes too.
fn part_from(block: Block, index: usize) -> usize
    requires { (field_head ≤ block.name.at) × (end_of block ≤ 18446744073709551615) × (index < block.count) }
    ensures { result ≡ part_from block index }
{
    if index < 1 {
        return forms::start_of(block);
    }
    block.lines + LINE * index
}

// One of several: what is left of the group before it and after it, under its own first name each.
fn leaves_parts(block: Block, index: usize) -> Change
    requires field_head_le_at { (field_head ≤ block.name.at) × (end_of block ≤ 18446744073709551615) }
    requires index_lt_count { (index < block.count) × (index + 1 < 4294967296) }
    ensures { result ≡ part_by block index }
{
    let next = index + 1;
    Change {
        from: part_from(block, index),
        to: block.lines + LINE * next,
        lines: block.lines,
        count: index,
        rest: Head {
            name: block.name,
            // `as`: it fits by the contract.
            onward: next as u32,
            slots: block.count - next,
        },
    }
}

// The only one of its group, and the next group goes on where the group before ends: the three become one.
fn closes(before: Block, next: Block) -> Change
    requires { (end_of before ≤ 18446744073709551615) × (before.count + next.count ≤ 65535) }
    ensures { result ≡ close_by before next }
{
    Change {
        from: forms::end_of(before),
        to: next.lines,
        lines: before.lines,
        count: before.count + next.count,
        rest: head_of(next.name, 0),
    }
}

// The only one of its group, which goes.
fn vanishes(block: Block) -> Change
    requires { (field_head ≤ block.name.at) × (end_of block ≤ 18446744073709551615) }
    ensures { result ≡ vanish_by block }
{
    Change {
        from: forms::start_of(block),
        to: forms::end_of(block),
        lines: block.lines,
        count: 0,
        rest: head_of(block.name, 0),
    }
}

// The next group goes on where the group before ends.
fn goes_on(form: &[u8], before: Block, next: Block) -> bool
    requires within { Within form.now before.name × (1 ≤ before.count → is_name (row_at form.now before.name) ≡ true) × (before.count ≤ 65535) }
    requires within_2 { Within form.now next.name × (1 ≤ next.count → is_name (row_at form.now next.name) ≡ true) }
    ensures { result ≡ goes_on form.now before next }
{
    1 <= before.count
        && 1 <= next.count
        && before.name.count == next.name.count
        && runs::is_onward(
            form,
            before.name.at,
            form,
            next.name.at,
            before.name.count,
            // `as`: it fits by the contract.
            before.count as u32,
        )
}

// Without slot `index` of the group, which the group before precedes and the next one follows.
fn taken_out(
    form: &[u8],
    before: Block,
    block: Block,
    index: usize,
    slot: &[u8],
    name: Span,
) -> Change
    requires edited { Edited form.now slot.now name × (before ≡ preceded_in form.now (name_of slot.now)) × (block ≡ reached_in form.now (name_of slot.now)) }
    requires slot_value { met_in form.now block (name_of slot.now) ≡ Met.Here index }
    ensures { result ≡ taken_in form.now before block index }
{
    if 1 < block.count {
        return leaves_parts(block, index);
    }
    let end = forms::end_of(block);
    let next = block_by(form, end < form.len(), end);
    if goes_on(form, before, next) {
        return closes(before, next);
    }
    vanishes(block)
}

// 10, 8; else the form without the slot. The tests before these have passed.
fn remove_from(form: &[u8], place: Place, slot: &[u8], name: Span, out: &mut [u8]) -> Answer
    requires { Edited form.now slot.now name × (place ≡ place_in form.now (name_of slot.now)) }
    ensures value { result ≡ (remove_form_outcome form.now slot.now (length out.old)).answer }
    ensures out_after { out.new ≡ leaves (remove_form_outcome form.now slot.now (length out.old)) out.old }
{
    let block = block_by(form, 0 < place.groups, place.here);
    let before = block_by(form, 1 < place.groups, place.before);
    match meet(form, block, slot, name) {
        Met::Here(i) => form_changes::cut_out(
            form,
            taken_out(form, before, block, i, slot, name),
            out,
        ),
        Met::Inside(_) | Met::After(_) => Err(Refusal::Absent),
    }
}

// ── the calls ──

// 15, 2, 11, 1 (slot); else what one look at the form tells.
fn check_edit(form: &[u8], slot: &[u8], name: Span) -> Result<Looked, Refusal>
    requires { Lies slot.now name }
    ensures { result ≡ in_order (edit_tests form.now slot.now) Err (Ok (all_told form.now (row_at slot.now name))) }
{
    let looked = forms::look(form, slot, name).ok_or(Refusal::Malformed)?;
    if !looked.rises {
        return Err(Refusal::NotRising);
    }
    if SLOTS < looked.slots {
        return Err(Refusal::Full);
    }
    if !pages::slot_ok(slot) {
        return Err(Refusal::BadLayout);
    }
    Ok(looked)
}

// 15, 2, 11, 1 (slot), 9, 11, 8; else the form of the page with the slot at its rising place.
pub fn insert(form: &[u8], slot: &[u8], out: &mut [u8]) -> Answer
    ensures value { result ≡ (insert_form_outcome form.now slot.now (length out.old)).answer }
    ensures out_after { out.new ≡ leaves (insert_form_outcome form.now slot.now (length out.old)) out.old }
{
    let name = name_in(slot);
    let looked = check_edit(form, slot, name)?;
    insert_into(form, looked.slots, looked.place, slot, name, out)
}

// 15, 2, 11, 1 (slot), 10, 8; else the form of the page without the slot of that name.
pub fn remove(form: &[u8], slot: &[u8], out: &mut [u8]) -> Answer
    ensures value { result ≡ (remove_form_outcome form.now slot.now (length out.old)).answer }
    ensures out_after { out.new ≡ leaves (remove_form_outcome form.now slot.now (length out.old)) out.old }
{
    let name = name_in(slot);
    let looked = check_edit(form, slot, name)?;
    remove_from(form, looked.place, slot, name, out)
}
