// Pages and logs as bytes: the checks of a page, a log and a slot, where a slot's name stands, and finding a name.
// Document 01, "Pages, logs, epochs" and "What comes back"; the definitions are in specs/.

#![tactic(auto)]

ghost use Rattle.std.specs.Prelude.{◌≡◌, true, ◌+◌, ◌≤◌, [], length, get_or};
ghost use Rattle.names.specs.Names.{limit, row_of};
ghost use Rattle.slots.specs.Tuples.{row_at, Lies};
ghost use Rattle.std.specs.List.{list_all};
ghost use Rattle.numbers.specs.Bytes.{is_zero};
ghost use Rattle.slots.specs.Slots.{keeps_over, slot_size, line_of, name_of, keeps_slot};
ghost use Rattle.slots.specs.Looks.{seen};
ghost use Rattle.pages.specs.Pages.{parts_over, rises_over, parts_of, names_of, rises, line_is_zero, keeps_layout, is_log, check_over, check_page, check_log};
ghost use Rattle.pages.specs.Looks.{seen_over, seen_in};
ghost use Rattle.pages.specs.Places.{place_of};

use answers::{Answer, Refusal};
use names::{LIMIT, Name};
use slots::{HEAD, SLOT, Seen, Span, TUPLE};
use std::cmp::Ordering;

// "A page is 0..256 slots": the most slots, and the bytes of the largest page.
pub const SLOTS: usize = 256;

pub const PAGE: usize = SLOTS * SLOT;

// The layout of slots with room for so many tuples and the order of their names, in one pass: each after the one before it, the first
// after none. 1 comes before 2 wherever it stands, so that a name that does not rise ends nothing.
fn look_along(page: &[u8], room: usize) -> Seen
    requires { room ≤ limit }
    ensures { result ≡ seen (list_all (keeps_over room) (parts_over room page.now)) (rises_over room page.now) }
{
    let size = HEAD + TUPLE * room;
    let mut rising = true;
    let mut before = page;
    let mut n = 0;
    for slot in page.chunks_exact(size) {
        match slots::look_after(before, n, slot, room) {
            Seen::Broken => return Seen::Broken,
            Seen::NotRising => {
                rising = false;
            }
            Seen::Rising => {}
        }
        n = slots::depth_over(slot, room);
        before = slot;
    }
    if rising {
        Seen::Rising
    } else {
        Seen::NotRising
    }
}

// A page whose slots have room for so many tuples: its layout, and the order of its names.
pub fn look_over(page: &[u8], room: usize) -> Seen
    requires { room ≤ limit }
    ensures { result ≡ seen_over room page.now }
{
    let size = HEAD + TUPLE * room;
    if page.len() % size != 0 || SLOTS < page.len() / size {
        return Seen::Broken;
    }
    look_along(page, room)
}

// A page's layout, and the order of its names.
pub fn look(page: &[u8]) -> Seen
    ensures { result ≡ seen_in page.now }
{
    look_over(page, LIMIT)
}

// The layout of a slot that is given by itself: a page of one slot, so that there is one place where slots are looked at.
pub fn slot_ok(slot: &[u8]) -> bool
    ensures { result ≡ keeps_slot slot.now }
{
    slot.len() == SLOT && !matches!(look_along(slot, LIMIT), Seen::Broken)
}

// 1, 2; else the count of the slots, each with room for so many tuples: what the look at them comes to.
fn check_looked(page: &[u8], room: usize, looked: Seen) -> Answer
    requires { (room ≤ limit) × (looked ≡ seen_over room page.now) }
    ensures { result ≡ check_over room page.now }
{
    match looked {
        Seen::Broken => Err(Refusal::BadLayout),
        Seen::NotRising => Err(Refusal::NotRising),
        Seen::Rising => Ok(page.len() / (HEAD + TUPLE * room)),
    }
}

// 1, 2; else the count of the slots, each with room for so many tuples.
pub fn check_over(page: &[u8], room: usize) -> Answer
    requires { room ≤ limit }
    ensures { result ≡ check_over room page.now }
{
    check_looked(page, room, look_over(page, room))
}

// 1, 2; else the count of the page's slots.
pub fn check_page(page: &[u8]) -> Answer
    ensures { result ≡ check_page page.now }
{
    check_looked(page, LIMIT, look(page))
}

// The line number in a slot is 0.
fn line_is_zero(slot: &[u8]) -> bool
    requires { length slot.now ≡ slot_size }
    ensures { result ≡ is_zero (line_of slot.now) }
{
    slots::read_line(slot) == 0
}

// The line number of every slot is 0.
fn lines_are_zero(page: &[u8]) -> bool
    ensures { result ≡ list_all (λ s. is_zero (line_of s)) (parts_of page.now) }
{
    let (slots, _) = page.as_chunks::<SLOT>();
    slots.iter().all(|slot| line_is_zero(slot))
}

// "A log is a page of 1..256 slots whose line numbers are 0."
pub fn log_ok(log: &[u8]) -> bool
    ensures { result ≡ is_log log.now }
{
    check_page(log).is_ok() && SLOT <= log.len() && lines_are_zero(log)
}

// 3; else the count of the log's slots.
pub fn check_log(log: &[u8]) -> Answer
    ensures { result ≡ check_log log.now }
{
    if log_ok(log) {
        Ok(log.len() / SLOT)
    } else {
        Err(Refusal::BadLog)
    }
}

// Where the name of slot k stands; beyond the page there is none.
pub fn span_of(page: &[u8], k: usize) -> Span
    ensures { Lies page.now result × (row_at page.now result ≡ get_or (names_of page.now) k []) }
{
    if page.len() / SLOT <= k {
        return Span { at: 0, count: 0 };
    }
    let at = SLOT * k;
    Span {
        at: at + HEAD,
        count: slots::depth(&page[at..at + SLOT]),
    }
}

// The name of slot k, or none beyond the page.
pub fn name_of(page: &[u8], k: usize) -> Name
    ensures { row_of result ≡ get_or (names_of page.now) k [] }
{
    let Span { at, count } = span_of(page, k);
    slots::read_row(page, at, count)
}

// Where a name stands in a page, or would stand. No Result: a gap is no error, and in specs/ it reads as 01's gap.
#[derive(Clone, Copy, Debug, PartialEq, Eq)]
pub enum Place {
    // The slot of that name.
    Here(usize),
    // Before that slot, or after the last.
    Gap(usize),
}

// The place of a slot's name in a rising page, by halving. By hand: `binary_search_by` goes on once it has found the name, and a name that is there
// takes 10 to 13 % longer.
pub fn find(page: &[u8], slot: &[u8]) -> Place
    requires { (length slot.now ≡ slot_size) × (rises page.now ≡ true) }
    ensures { result ≡ place_of (name_of slot.now) (names_of page.now) }
{
    let mut low = 0;
    let mut high = page.len() / SLOT;
    while low < high {
        let middle = low + (high - low) / 2;
        let at = SLOT * middle;
        match slots::compare_slots(&page[at..at + SLOT], slot, LIMIT) {
            Ordering::Less => {
                low = middle + 1;
            }
            Ordering::Equal => return Place::Here(middle),
            Ordering::Greater => {
                high = middle;
            }
        }
    }
    Place::Gap(low)
}
