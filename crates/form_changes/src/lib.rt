// A change of a form, in its bytes: those between two places give way to a given slot or to nothing, the group before has another number of slots then, and
// what follows goes on as a group of its own or in the one before. 02, P2: "splitting and joining". What a change is, is in specs/; which one an edit makes is
// said by `form_edits`.

#![tactic(auto)]

ghost use Rattle.std.specs.Prelude.{◌≡◌, cond, [], map, ◌+◌, ◌*◌, ◌≤◌, length, eqb};
ghost use Rattle.names.specs.Names.{limit};
ghost use Rattle.numbers.specs.Bytes.{put};
ghost use Rattle.slots.specs.Tuples.{tuple_size};
ghost use Rattle.answers.specs.Answers.{write, leaves};
ghost use Rattle.fields.specs.Fields.{single};
ghost use Rattle.groups.specs.Forms.{group_head};
ghost use Rattle.form_changes.specs.Changes.{head_in, front, back, given, changed, Headed, Fits, Given};

use answers::{Answer, Refusal};
use groups::{AFTER_NAME, GROUP, LINE};
use slots::{Span, TUPLE};

// What stands before the line numbers of a group: its first name, which comes `onward` after the one at `name`, and how many slots it has. Without slots
// nothing stands there.
#[derive(Clone, Copy, Debug, PartialEq, Eq)]
pub struct Head {
    pub name: Span,
    pub onward: u32,
    pub slots: usize,
}

// The bytes from `from` up to `to` give way. Of those before, the group whose line numbers begin at `lines` has `count` slots then; with 0 they stay as they
// are. Those after are of a group with the head `rest`, or without one go on in the group before.
#[derive(Clone, Copy, Debug, PartialEq, Eq)]
pub struct Change {
    pub from: usize,
    pub to: usize,
    pub lines: usize,
    pub count: usize,
    pub rest: Head,
}

// ── how many bytes ──

fn head_size(head: Head) -> usize
    requires { 1 ≤ head.slots → head.name.count ≤ limit }
    ensures { (result ≡ cond (eqb head.slots 0) 0 (group_head + tuple_size * head.name.count)) × (result ≤ group_head + tuple_size * limit) }
{
    if head.slots < 1 {
        return 0;
    }
    GROUP + TUPLE * head.name.count
}

// Of the form as changed, with nothing between.
fn changed_size(form: &[u8], c: Change) -> usize
    requires { Fits form.now c }
    ensures { (result ≡ length (changed form.now [] c)) × (result ≤ length form.now + (group_head + tuple_size * limit)) }
{
    c.from + head_size(c.rest) + (form.len() - c.to)
}

// ── writing ──

// A head from p on; and the place after it.
fn write_head(out: &mut [u8], p: usize, s: &[u8], head: Head) -> usize
    requires { Headed s.now head × (p + length (head_in s.now head) ≤ length out.old) }
    ensures value { result ≡ p + length (head_in s.now head) }
    ensures out_after { out.new ≡ put out.old p (head_in s.now head) }
{
    if head.slots < 1 {
        return p;
    }
    forms::write_head(out, p, s, head.name, head.onward, head.slots)
}

// What stands before the change, from the start of out.
fn write_front(form: &[u8], c: Change, out: &mut [u8])
    requires { Fits form.now c × (c.from ≤ length out.old) }
    ensures { out.new ≡ put out.old 0 (front form.now c) }
{
    slots::copy_long(out, 0, &form[..c.from]);
    if 0 < c.count {
        forms::write_sizes(out, c.lines - AFTER_NAME, c.count);
    }
}

// The given slot from p on, its line number behind a head or behind none; and the place after it.
fn write_given(out: &mut [u8], p: usize, slot: &[u8], head: Head) -> usize
    requires { (8 ≤ length slot.now) × Headed slot.now head × (p + length (head_in slot.now head) + 4 ≤ length out.old) }
    ensures value { result ≡ p + length (head_in slot.now head) + 4 }
    ensures out_after { out.new ≡ put out.old p (given slot.now head) }
{
    let line = write_head(out, p, slot, head);
    numbers::write_u32(out, line, numbers::read_u32(slot, slots::LINE));
    line + LINE
}

// What stands after the change, from p on.
fn write_back(form: &[u8], c: Change, out: &mut [u8], p: usize)
    requires { Fits form.now c × (p + length (back form.now c) ≤ length out.old) }
    ensures { out.new ≡ put out.old p (back form.now c) }
{
    let rest = write_head(out, p, form, c.rest);
    slots::copy_long(out, rest, &form[c.to..]);
}

// ── the two changes ──

// 8; else the form as changed, with the given slot between: `head` is that of its name, of as many slots as it then begins.
pub fn put_in(form: &[u8], slot: &[u8], head: Head, c: Change, out: &mut [u8]) -> Answer
    requires { Fits form.now c × Given slot.now head }
    ensures value { result ≡ (write (map single (changed form.now (given slot.now head) c)) (length out.old)).answer }
    ensures out_after { out.new ≡ leaves (write (map single (changed form.now (given slot.now head) c)) (length out.old)) out.old }
{
    let size = changed_size(form, c) + head_size(head) + LINE;
    if out.len() < size {
        return Err(Refusal::Short);
    }
    write_front(form, c, out);
    let p = write_given(out, c.from, slot, head);
    write_back(form, c, out, p);
    Ok(size)
}

// 8; else the form as changed, with nothing between.
pub fn cut_out(form: &[u8], c: Change, out: &mut [u8]) -> Answer
    requires { Fits form.now c }
    ensures value { result ≡ (write (map single (changed form.now [] c)) (length out.old)).answer }
    ensures out_after { out.new ≡ leaves (write (map single (changed form.now [] c)) (length out.old)) out.old }
{
    let size = changed_size(form, c);
    if out.len() < size {
        return Err(Refusal::Short);
    }
    write_front(form, c, out);
    write_back(form, c, out, c.from);
    Ok(size)
}
