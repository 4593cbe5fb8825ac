// A page as its grouped form and back: 02, P2. What grouping and ungrouping give is defined in `groups`.

#![tactic(auto)]

ghost use Rattle.std.specs.Prelude.{◌≡◌, true, ◌+◌, ◌*◌, ◌-◌, ◌≤◌, ◌<◌, length, take, drop, get_or, leb};
ghost use mathlib.Core.List.{[], map, flatten};
ghost use Rattle.numbers.specs.Bytes.{put};
ghost use Rattle.names.specs.Names.{limit};
ghost use Rattle.slots.specs.Tuples.{tuple_size};
ghost use Rattle.slots.specs.Slots.{slot_size};
ghost use Rattle.answers.specs.Answers.{leaves};
ghost use Rattle.pages.specs.Pages.{slots_of, names_of, pieces, keeps_layout};
ghost use Rattle.runs.specs.Runs.{is_next};
ghost use Rattle.groups.specs.Groups.{line_size, line_in, slots_in, grouped, is_group};
ghost use Rattle.groups.specs.Forms.{group_head, line_bytes, form_bytes, slots_of_form, keeps_form};
ghost use Rattle.groups.specs.Calls.{group_outcome, ungroup_outcome};
ghost use Rattle.forms.specs.Blocks.{group_of, Stood};
ghost use Rattle.grouping.specs.FirstGroup.{first_run, slot_bytes_in};

use answers::{Answer, Refusal};
use fields::Cursor;
use forms::Block;
use groups::{GROUP, LINE};
use names::LIMIT;
use pages::SLOTS;
use slots::{SLOT, Span, TUPLE};

// The bytes of a group of one slot whose name has as many tuples as a name can have.
const ALONE: usize = GROUP + TUPLE * LIMIT + LINE;

// ── from a page ──

// The name of slot k comes next after that of the slot before it.
fn is_next(page: &[u8], k: usize) -> bool
    requires { (keeps_layout page.now ≡ true) × (1 ≤ k) × (k < length (slots_of page.now)) }
    ensures { result ≡ is_next (get_or (names_of page.now) (k - 1) []) (get_or (names_of page.now) k []) }
{
    let x = pages::span_of(page, k - 1);
    let y = pages::span_of(page, k);
    x.count == y.count && runs::is_onward(page, x.at, page, y.at, x.count, 1)
}

// How many slots from slot k on are one run: "Groups are as long as possible".
fn run_from(page: &[u8], k: usize) -> usize
    requires { (keeps_layout page.now ≡ true) × (k < length (slots_of page.now)) }
    ensures { (result ≡ first_run (drop k (slots_of page.now))) × (1 ≤ result) × (k + result ≤ length (slots_of page.now)) }
{
    let n = page.len() / SLOT;
    for i in k + 1..n {
        if !is_next(page, i) {
            return i - k;
        }
    }
    n - k
}

// How many bytes slot k brings to the form: its line number, and where it begins a group what stands before that.
fn slot_size(page: &[u8], k: usize) -> usize
    requires { (keeps_layout page.now ≡ true) × (k < length (slots_of page.now)) }
    ensures { (result ≡ slot_bytes_in (slots_of page.now) k) × (result ≤ group_head + tuple_size * limit + line_size) }
{
    if 0 < k && is_next(page, k) {
        return LINE;
    }
    GROUP + TUPLE * pages::span_of(page, k).count + LINE
}

// How many bytes the form has.
fn form_size(page: &[u8]) -> usize
    requires { keeps_layout page.now ≡ true }
    ensures { result ≡ length (form_bytes (grouped (slots_of page.now))) }
{
    let mut size: usize = 0;
    for k in 0..page.len() / SLOT {
        size += slot_size(page, k);
    }
    size
}

// The form has room. It is never longer than with a group for each slot, so that its size is asked for only where there is less room than for that.
fn has_room(page: &[u8], room: usize) -> bool
    requires { keeps_layout page.now ≡ true }
    ensures { result ≡ leb (length (form_bytes (grouped (slots_of page.now)))) room }
{
    ALONE * (page.len() / SLOT) <= room || form_size(page) <= room
}

// The line numbers of n slots from slot k on, from p on.
fn write_lines(page: &[u8], k: usize, n: usize, out: &mut [u8], p: usize)
    requires { (k + n ≤ length (slots_of page.now)) × (p + line_size * n ≤ length out.old) }
    ensures { out.new ≡ put out.old p (line_bytes (map line_in (take n (drop k (slots_of page.now))))) }
{
    for i in 0..n {
        let line = numbers::read_u32(page, SLOT * (k + i) + slots::LINE);
        numbers::write_u32(out, p + LINE * i, line);
    }
}

// The page's groups, from the start of out; and how many bytes they have.
fn write_form(page: &[u8], out: &mut [u8]) -> usize
    requires { (keeps_layout page.now ≡ true) × (length (form_bytes (grouped (slots_of page.now))) ≤ length out.old) }
    ensures value { result ≡ length (form_bytes (grouped (slots_of page.now))) }
    ensures out_after { out.new ≡ put out.old 0 (form_bytes (grouped (slots_of page.now))) }
{
    let n = page.len() / SLOT;
    let mut k: usize = 0;
    let mut p: usize = 0;
    // A `while`: the next run begins where this one ends.
    while k < n {
        let run = run_from(page, k);
        p = forms::write_head(out, p, page, pages::span_of(page, k), 0, run);
        write_lines(page, k, run, out, p);
        p += LINE * run;
        k += run;
    }
    p
}

// 1, 2, 8; else the page's form.
pub fn group(page: &[u8], out: &mut [u8]) -> Answer
    ensures value { result ≡ (group_outcome page.now (length out.old)).answer }
    ensures out_after { out.new ≡ leaves (group_outcome page.now (length out.old)) out.old }
{
    pages::check_page(page)?;
    if !has_room(page, out.len()) {
        return Err(Refusal::Short);
    }
    Ok(write_form(page, out))
}

// ── and back ──

// The slots of a group, from slot i of out on.
fn write_run(form: &[u8], block: Block, i: usize, out: &mut [u8])
    requires { Stood form.now block × (is_group (group_of form.now block) ≡ true) × (slot_size * (i + block.count) ≤ length out.old) }
    ensures { out.new ≡ put out.old (slot_size * i) (flatten (pieces (slots_in (group_of form.now block)))) }
{
    for k in 0..block.count {
        let line = numbers::read_u32(form, block.lines + LINE * k);
        // `as`: it fits, since a group has no more slots than its field has room for.
        runs::copy_slot_onward(out, SLOT * (i + k), line, form, block.name, k as u32);
    }
}

// The slots of the form's groups, from the start of out.
fn write_slots(form: &[u8], out: &mut [u8])
    requires { (keeps_form form.now ≡ true) × (slot_size * length (slots_of_form form.now) ≤ length out.old) }
    ensures { out.new ≡ put out.old 0 (flatten (pieces (slots_of_form form.now))) }
{
    let mut i: usize = 0;
    let mut at: usize = 0;
    // A `while`: the next group begins where this one ends.
    while at < form.len() {
        let block = forms::block_here(form, Cursor { at });
        write_run(form, block, i, out);
        i += block.count;
        at = forms::end_of(block);
    }
}

// 15, 2, 11, 8; else the page of the form.
pub fn ungroup(form: &[u8], out: &mut [u8]) -> Answer
    ensures value { result ≡ (ungroup_outcome form.now (length out.old)).answer }
    ensures out_after { out.new ≡ leaves (ungroup_outcome form.now (length out.old)) out.old }
{
    let looked = forms::look(form, form, Span { at: 0, count: 0 }).ok_or(Refusal::Malformed)?;
    if !looked.rises {
        return Err(Refusal::NotRising);
    }
    if SLOTS < looked.slots {
        return Err(Refusal::Full);
    }
    if out.len() < SLOT * looked.slots {
        return Err(Refusal::Short);
    }
    write_slots(form, out);
    Ok(looked.slots)
}
