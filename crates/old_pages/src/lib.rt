// Pages of before the limit was sixteen tuples, and their conversion to pages and back. Document 02, P8; the definitions are in specs/.

#![tactic(auto)]

ghost use Rattle.std.specs.Prelude.{◌≡◌, true, ◌*◌, ◌/◌, ◌≤◌, length};
ghost use mathlib.Core.List.{flatten};
ghost use Rattle.numbers.specs.Bytes.{put};
ghost use Rattle.std.specs.List.{list_all};
ghost use Rattle.slots.specs.Slots.{slot_size, name_of};
ghost use Rattle.pages.specs.Pages.{parts_of, slots_of, names_of, pieces, keeps_layout};
ghost use Rattle.answers.specs.Answers.{leaves};
ghost use Rattle.old_pages.specs.OldPages.{old_size, keeps_old, old_slots_of, old_pieces, fits_old, from_old_outcome, to_old_outcome};

use answers::{Answer, Refusal};
use slots::{HEAD, SLOT, TUPLE};

// The most tuples of a name in an old page, and the bytes of an old slot.
pub const OLD_LIMIT: usize = 8;

pub const OLD_SLOT: usize = HEAD + TUPLE * OLD_LIMIT;

// The words of four bytes that a slot has after those of an old one.
const MORE_WORDS: usize = (SLOT - OLD_SLOT) / 4;

// The slots of an old page as those of a page, from the start of out: each with zeros after it.
fn write_new(old: &[u8], out: &mut [u8])
    requires { (keeps_old old.now ≡ true) × (slot_size * (length old.now / old_size) ≤ length out.old) }
    ensures { out.new ≡ put out.old 0 (flatten (pieces (old_slots_of old.now))) }
{
    let (slots, _) = old.as_chunks::<OLD_SLOT>();
    for (k, slot) in slots.iter().enumerate() {
        let p = SLOT * k;
        numbers::copy(out, p, slot);
        numbers::write_zeros(out, p + OLD_SLOT, MORE_WORDS);
    }
}

// The depth of a slot is one of an old page.
fn depth_fits(slot: &[u8]) -> bool
    requires { length slot.now ≡ slot_size }
    ensures { result ≡ fits_old (name_of slot.now) }
{
    slots::depth(slot) <= OLD_LIMIT
}

// The depth of every slot of a page is one of an old page.
fn depths_fit(page: &[u8]) -> bool
    ensures { result ≡ list_all (λ s. fits_old (name_of s)) (parts_of page.now) }
{
    let (slots, _) = page.as_chunks::<SLOT>();
    slots.iter().all(|slot| depth_fits(slot))
}

// The slots of a page as those of an old page, from the start of out: each without its last tuples, which are zero.
fn write_old(page: &[u8], out: &mut [u8])
    requires { (keeps_layout page.now ≡ true) × (list_all fits_old (names_of page.now) ≡ true) × (old_size * (length page.now / slot_size) ≤ length out.old) }
    ensures { out.new ≡ put out.old 0 (flatten (old_pieces (slots_of page.now))) }
{
    let (slots, _) = page.as_chunks::<SLOT>();
    for (k, slot) in slots.iter().enumerate() {
        numbers::copy(out, OLD_SLOT * k, &slot[..OLD_SLOT]);
    }
}

// 1, 2, 8; else the page with the names and line numbers of the old page.
pub fn from_old(old: &[u8], out: &mut [u8]) -> Answer
    ensures value { result ≡ (from_old_outcome old.now (length out.old)).answer }
    ensures out_after { out.new ≡ leaves (from_old_outcome old.now (length out.old)) out.old }
{
    let n = pages::check_over(old, OLD_LIMIT)?;
    if out.len() < SLOT * n {
        return Err(Refusal::Short);
    }
    write_new(old, out);
    Ok(n)
}

// 1, 2, 6, 8; else the old page with the names and line numbers of the page.
pub fn to_old(page: &[u8], out: &mut [u8]) -> Answer
    ensures value { result ≡ (to_old_outcome page.now (length out.old)).answer }
    ensures out_after { out.new ≡ leaves (to_old_outcome page.now (length out.old)) out.old }
{
    let n = pages::check_page(page)?;
    if !depths_fit(page) {
        return Err(Refusal::TooDeep);
    }
    if out.len() < OLD_SLOT * n {
        return Err(Refusal::Short);
    }
    write_old(page, out);
    Ok(n)
}
