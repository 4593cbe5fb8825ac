// Insert and remove. Document 01, "Taking it back", last paragraph, and "What comes back"; the definitions are in specs/.

#![tactic(auto)]

ghost use Rattle.std.specs.Prelude.{◌≡◌, true, ◌++◌, ◌+◌, ◌*◌, ◌≤◌, ◌<◌, length, take, drop};
ghost use Rattle.numbers.specs.Bytes.{put};
ghost use Rattle.slots.specs.Slots.{slot_size, name_of, keeps_slot};
ghost use Rattle.pages.specs.Pages.{names_of, keeps_layout, rises};
ghost use Rattle.pages.specs.Places.{place_of};
ghost use Rattle.answers.specs.Answers.{in_order, leaves};
ghost use Rattle.edits.specs.Edits.{edit_tests, insert_outcome, remove_outcome};

use answers::{Answer, Refusal};
use pages::{PAGE, Place};
use slots::SLOT;

// The page with the slot before slot k, from the start of out. What is copied is copied once; `slot[..SLOT]` is all of the slot, in a length that
// the compiler knows.
fn write_with(page: &[u8], slot: &[u8], k: usize, out: &mut [u8])
    requires { (slot_size * k ≤ length page.now) × (length slot.now ≡ slot_size) × (length page.now + slot_size ≤ length out.old) }
    ensures { out.new ≡ put out.old 0 (take (slot_size * k) page.now ++ slot.now ++ drop (slot_size * k) page.now) }
{
    let p = SLOT * k;
    slots::copy_long(out, 0, &page[..p]);
    numbers::copy(out, p, &slot[..SLOT]);
    slots::copy_long(out, p + SLOT, &page[p..]);
}

// The page without slot k, from the start of out.
fn write_without(page: &[u8], k: usize, out: &mut [u8])
    requires { (slot_size * k + slot_size ≤ length page.now) × (length page.now ≤ length out.old + slot_size) }
    ensures { out.new ≡ put out.old 0 (take (slot_size * k) page.now ++ drop (slot_size * k + slot_size) page.now) }
{
    let p = SLOT * k;
    let q = p + SLOT;
    slots::copy_long(out, 0, &page[..p]);
    slots::copy_long(out, p, &page[q..]);
}

// 1 (page), 1 (slot), 2. The slot is looked at first, since both refuse with 1.
fn check_edit(page: &[u8], slot: &[u8]) -> Result<(), Refusal>
    ensures { result ≡ in_order (edit_tests page.now slot.now) Err (Ok tt) }
{
    if !pages::slot_ok(slot) {
        return Err(Refusal::BadLayout);
    }
    pages::check_page(page)?;
    Ok(())
}

// 11, 8; else the page with the slot before slot k, its rising place. The tests before these have passed.
fn insert_at(page: &[u8], slot: &[u8], k: usize, out: &mut [u8]) -> Answer
    requires page_value { (keeps_layout page.now ≡ true) × (keeps_slot slot.now ≡ true) × (rises page.now ≡ true) }
    requires page_value_2 { place_of (name_of slot.now) (names_of page.now) ≡ Place.Gap k }
    ensures value { result ≡ (insert_outcome page.now slot.now (length out.old)).answer }
    ensures out_after { out.new ≡ leaves (insert_outcome page.now slot.now (length out.old)) out.old }
{
    if PAGE <= page.len() {
        return Err(Refusal::Full);
    }
    if out.len() < page.len() + SLOT {
        return Err(Refusal::Short);
    }
    write_with(page, slot, k, out);
    Ok(page.len() / SLOT + 1)
}

// 8; else the page without slot k, which has the name. The tests before this have passed.
fn remove_at(page: &[u8], slot: &[u8], k: usize, out: &mut [u8]) -> Answer
    requires page_value { (keeps_layout page.now ≡ true) × (keeps_slot slot.now ≡ true) × (rises page.now ≡ true) }
    requires page_value_2 { place_of (name_of slot.now) (names_of page.now) ≡ Place.Here k }
    ensures value { result ≡ (remove_outcome page.now slot.now (length out.old)).answer }
    ensures out_after { out.new ≡ leaves (remove_outcome page.now slot.now (length out.old)) out.old }
{
    if out.len() < page.len() - SLOT {
        return Err(Refusal::Short);
    }
    write_without(page, k, out);
    Ok(page.len() / SLOT - 1)
}

// 1 (page), 1 (slot), 2, 9, 11, 8; else the page with the slot at its rising place.
pub fn insert(page: &[u8], slot: &[u8], out: &mut [u8]) -> Answer
    ensures value { result ≡ (insert_outcome page.now slot.now (length out.old)).answer }
    ensures out_after { out.new ≡ leaves (insert_outcome page.now slot.now (length out.old)) out.old }
{
    check_edit(page, slot)?;
    match pages::find(page, slot) {
        Place::Here(_) => Err(Refusal::Present),
        Place::Gap(k) => insert_at(page, slot, k, out),
    }
}

// 1 (page), 1 (slot), 2, 10, 8; else the page without the slot of that name.
pub fn remove(page: &[u8], slot: &[u8], out: &mut [u8]) -> Answer
    ensures value { result ≡ (remove_outcome page.now slot.now (length out.old)).answer }
    ensures out_after { out.new ≡ leaves (remove_outcome page.now slot.now (length out.old)) out.old }
{
    check_edit(page, slot)?;
    match pages::find(page, slot) {
        Place::Here(k) => remove_at(page, slot, k, out),
        Place::Gap(_) => Err(Refusal::Absent),
    }
}
