// Renaming a page and taking a rename back. Document 01, "Taking it back" and "What comes back"; the definitions are in specs/, and what
// becomes of one name is that of crates/name_renames, by crates/one_name.

#![tactic(auto)]

ghost use Rattle.std.specs.Prelude.{◌≡◌, true, false, ◌&&◌, ◌||◌, ◌+◌, ◌-◌, ◌*◌, ◌/◌, ◌≤◌, ◌<◌, leb, ltb, length, get_or};
ghost use mathlib.Core.List.{[], flatten};
ghost use Rattle.names.specs.Ordering.{compare_rows};
ghost use Rattle.std.specs.Ordering.{is_lt};
ghost use Rattle.names.specs.Names.{limit, fits};
ghost use Rattle.std.specs.List.{list_all};
ghost use Rattle.numbers.specs.Bytes.{put};
ghost use Rattle.slots.specs.Slots.{slot_size, name_of, slot_of, slot_bytes, keeps_slot};
ghost use Rattle.pages.specs.Pages.{keeps_layout, parts_of, slots_of, names_of, pieces, rises, is_log};
ghost use Rattle.answers.specs.Answers.{in_order, leaves};
ghost use Rattle.answers.specs.Laws.{Passed};
ghost use Rattle.name_renames.specs.Renaming.{rename as rename_row, take_back as take_back_row, fresh};
ghost use Rattle.name_renames.specs.Alone.{alone as is_alone};
ghost use Rattle.one_name.specs.Backs.{deepest_of, shallowest_of};
ghost use Rattle.one_name.specs.Stems.{clear_from, may_meet, row_of_stem, StemLies};
ghost use Rattle.one_name.specs.Markers.{unmarked_from};
ghost use Rattle.page_renames.specs.Renames.{carry, carried, all_fit, opening_tests, rename_tests, take_back_tests, rename_outcome, take_back_outcome};

use answers::{Answer, Refusal};
use names::{Author, LIMIT};
use one_name::Stem;
use slots::{HEAD, SLOT, Span};

// ── renaming a page: what decides ──

// The name in a slot does not have (A, s) as node and sequence of its first tuple.
fn is_fresh(slot: &[u8], author: Author) -> bool
    requires { keeps_slot slot.now ≡ true }
    ensures { result ≡ fresh author (name_of slot.now) }
{
    let t = slots::read_tuple(slot, HEAD);
    t.node != author.node || t.sequence != author.sequence
}

// "no name .. has (A, s) as node and sequence of its first tuple", of a page or of a log. A `for`, here and below: what is called asks that the slot keeps the
// layout, which the search does not find along `all`.
fn all_fresh(page: &[u8], author: Author) -> bool
    requires { keeps_layout page.now ≡ true }
    ensures { result ≡ list_all (fresh author) (names_of page.now) }
{
    let (slots, _) = page.as_chunks::<SLOT>();
    for slot in slots {
        if !is_fresh(slot, author) {
            return false;
        }
    }
    true
}

// The name in a slot, renamed, has at most LIMIT tuples. "a name gains at most one tuple", so only a name of LIMIT tuples is looked for in the
// log, and found by halving: the walk along page and log has then one place, where it writes, and the compiler makes it part of that loop.
fn renamed_fits(log: &[u8], author: Author, slot: &[u8]) -> bool
    requires { (is_log log.now ≡ true) × (keeps_slot slot.now ≡ true) }
    ensures { result ≡ fits (rename_row author (names_of log.now) (name_of slot.now)) }
{
    let count = slots::depth(slot);
    if count < LIMIT {
        return true;
    }
    let place = pages::find(log, slot);
    let case = one_name::case_at(log, author, place, slot, Span { at: HEAD, count });
    !one_name::gains(one_name::change_of(log, author, case))
}

// Every name of the page, renamed, has at most LIMIT tuples.
fn all_renamed_fit(page: &[u8], log: &[u8], author: Author) -> bool
    requires { (keeps_layout page.now ≡ true) × (is_log log.now ≡ true) }
    ensures { result ≡ all_fit (rename_row author (names_of log.now)) page.now }
{
    let (slots, _) = page.as_chunks::<SLOT>();
    for slot in slots {
        if !renamed_fits(log, author, slot) {
            return false;
        }
    }
    true
}

// ── writing ──

// The page renamed, from the start of out. Page and log are walked side by side. An accepted rename's names rise, so that nothing is compared
// here: page_renames/specs/Laws.antt, rename_page.
fn write_renamed(page: &[u8], log: &[u8], author: Author, out: &mut [u8])
    requires page_value { (keeps_layout page.now ≡ true) × (rises page.now ≡ true) × (is_log log.now ≡ true) × (length page.now ≤ length out.old) }
    requires page_value_2 { all_fit (rename_row author (names_of log.now)) page.now ≡ true }
    ensures { out.new ≡ put out.old 0 (flatten (pieces (carried (rename_row author (names_of log.now)) (slots_of page.now)))) }
{
    let (slots, _) = page.as_chunks::<SLOT>();
    let mut below: usize = 0;
    for (i, slot) in slots.iter().enumerate() {
        let walked = one_name::walk(log, author, page, pages::span_of(page, i), below);
        let change = one_name::change_of(log, author, walked.case);
        renamed_slots::write_changed(out, SLOT * i, slot, change);
        below = walked.below;
    }
}

// Slot i of the page taken back, at its place in out. Where the name is known to be taken back alone, it is not compared with the log again.
fn write_one_back(page: &[u8], log: &[u8], author: Author, alone: bool, i: usize, out: &mut [u8])
    requires page_value { (keeps_layout page.now ≡ true) × (is_log log.now ≡ true) × (i < length page.now / slot_size) × (length page.now ≤ length out.old) }
    requires i_value { (fits (take_back_row author (names_of log.now) (get_or (names_of page.now) i [])) ≡ true) × (alone ≡ true → is_alone author (names_of log.now) (get_or (names_of page.now) i []) ≡ true) }
    ensures { out.new ≡ put out.old (slot_size * i) (slot_bytes (carry (take_back_row author (names_of log.now)) (slot_of (get_or (parts_of page.now) i [])))) }
{
    let (slots, _) = page.as_chunks::<SLOT>();
    let slot = &slots[i];
    let c = pages::span_of(page, i);
    if alone {
        let single = one_name::alone_of(log, author, page, c);
        renamed_slots::write_single(out, SLOT * i, slot, log, single);
    } else {
        let back = one_name::back_of(log, author, page, c);
        renamed_slots::write_back(out, SLOT * i, slot, log, back);
    }
}

// The page taken back, from the start of out. `alone` was found of the whole page and is handed on: asked slot by slot it would be the comparison that
// it spares.
fn write_back(page: &[u8], log: &[u8], author: Author, alone: bool, out: &mut [u8])
    requires page_value { (keeps_layout page.now ≡ true) × (is_log log.now ≡ true) × (length page.now ≤ length out.old) }
    requires page_value_2 { all_fit (take_back_row author (names_of log.now)) page.now ≡ true }
    requires page_value_3 { alone ≡ true → list_all (is_alone author (names_of log.now)) (names_of page.now) ≡ true }
    ensures { out.new ≡ put out.old 0 (flatten (pieces (carried (take_back_row author (names_of log.now)) (slots_of page.now)))) }
{
    for i in 0..page.len() / SLOT {
        write_one_back(page, log, author, alone, i, out);
    }
}

// ── the calls ──

// 1, 2, 3, 4.
fn check(page: &[u8], log: &[u8], author: Author) -> Result<(), Refusal>
    ensures { result ≡ in_order (opening_tests page.now log.now author) Err (Ok tt) }
{
    pages::check_page(page)?;
    pages::check_log(log)?;
    if author.node < 1 {
        return Err(Refusal::NoAuthor);
    }
    Ok(())
}

// 5, 6.
fn check_rename(page: &[u8], log: &[u8], author: Author) -> Result<(), Refusal>
    requires { Passed (opening_tests page.now log.now author) }
    ensures { result ≡ in_order (rename_tests page.now log.now author) Err (Ok tt) }
{
    if !all_fresh(page, author) || !all_fresh(log, author) {
        return Err(Refusal::NotFresh);
    }
    if !all_renamed_fit(page, log, author) {
        return Err(Refusal::TooDeep);
    }
    Ok(())
}

// Slot i is taken back to a name above that of the slot before it.
fn pair_rises(page: &[u8], log: &[u8], author: Author, i: usize) -> bool
    requires { (keeps_layout page.now ≡ true) × (is_log log.now ≡ true) × (1 ≤ i) × (i < length (names_of page.now)) }
    ensures { result ≡ is_lt (compare_rows (take_back_row author (names_of log.now) (get_or (names_of page.now) (i - 1) [])) (take_back_row author (names_of log.now) (get_or (names_of page.now) i []))) }
{
    let (slots, _) = page.as_chunks::<SLOT>();
    let last = one_name::back_of(log, author, page, pages::span_of(page, i - 1));
    let here = one_name::back_of(log, author, page, pages::span_of(page, i));
    renamed_slots::backs_rise(&slots[i - 1], last, &slots[i], here, log)
}

// It went so before (`rises`, an outcome that is carried on and no switch), and slot i, where it is not the first, rises too. The two names are compared
// only where a marker stands so that they could meet: elsewhere they rise by a theorem, `apart_kept` (one_name/proofs/Neighbours.antt; in
// specs/Laws.antt `apart_kept`).
fn still_rises(
    page: &[u8],
    log: &[u8],
    author: Author,
    rises: bool,
    i: usize,
    last: Stem,
    here: Stem,
) -> bool
    requires page_value { (keeps_layout page.now ≡ true) × (is_log log.now ≡ true) × (i < length (names_of page.now)) }
    requires stem_lies { (1 ≤ i → StemLies page.now log.now last) × StemLies page.now log.now here }
    requires i_value { 1 ≤ i → may_meet last.behind here.ahead (row_of_stem page.now log.now last) (row_of_stem page.now log.now here) ≡ false → is_lt (compare_rows (take_back_row author (names_of log.now) (get_or (names_of page.now) (i - 1) [])) (take_back_row author (names_of log.now) (get_or (names_of page.now) i []))) ≡ true }
    ensures { result ≡ (rises && (ltb i 1 || is_lt (compare_rows (take_back_row author (names_of log.now) (get_or (names_of page.now) (i - 1) [])) (take_back_row author (names_of log.now) (get_or (names_of page.now) i []))))) }
{
    rises
        && (i < 1 || !one_name::may_meet(log, page, last, here) || pair_rises(page, log, author, i))
}

// 6, 7 of any page: one walk along it, which keeps the stem of the name before.
fn check_back(page: &[u8], log: &[u8], author: Author) -> Result<(), Refusal>
    requires { Passed (opening_tests page.now log.now author) }
    ensures { result ≡ in_order (take_back_tests page.now log.now author) Err (Ok tt) }
{
    let mut last = Stem {
        behind: false,
        ahead: false,
        logged: false,
        row: Span { at: 0, count: 0 },
        depth: 0,
    };
    let mut rises = true;
    for i in 0..page.len() / SLOT {
        let c = pages::span_of(page, i);
        let back = one_name::back_of(log, author, page, c);
        let here = one_name::stem_of(log, page, c, back);
        if LIMIT < here.depth {
            return Err(Refusal::TooDeep);
        }
        rises = still_rises(page, log, author, rises, i, last, here);
        last = here;
    }
    if !rises {
        return Err(Refusal::NotRisingBack);
    }
    Ok(())
}

// Every name of the page is taken back alone: to a name of the log, or to tuples of its own.
fn all_alone(page: &[u8], log: &[u8], author: Author) -> bool
    requires { is_log log.now ≡ true }
    ensures { result ≡ list_all (is_alone author (names_of log.now)) (names_of page.now) }
{
    for i in 0..page.len() / SLOT {
        if !one_name::is_alone(log, author, page, pages::span_of(page, i)) {
            return false;
        }
    }
    true
}

// No name of the log has an end marker behind as many tuples as every name of the log has, and no name of the page that is taken back to tuples of its own,
// so that no two names could meet; and none is so deep that it could come to have more than LIMIT tuples.
fn is_clear(page: &[u8], log: &[u8], author: Author) -> bool
    requires { (keeps_layout page.now ≡ true) × (is_log log.now ≡ true) }
    ensures { result ≡ (list_all (unmarked_from (shallowest_of (names_of log.now))) (names_of log.now) && list_all (clear_from author (names_of log.now) (shallowest_of (names_of log.now))) (names_of page.now) && leb (deepest_of (names_of log.now) + 1 + deepest_of (names_of page.now)) limit) }
{
    let from = one_name::shallowest(log);
    one_name::all_unmarked(log, from)
        && one_name::all_clear(page, log, author, from)
        && one_name::deepest(log) + 1 + one_name::deepest(page) <= LIMIT
}

// 6, 7, where a theorem does not answer both for the whole page. If every name is taken back alone, each has at most LIMIT tuples and they rise, markers
// or not: `alone_fits` and `alone_mono` (name_renames/proofs/Alone.antt; in specs/Laws.antt `alone_is` and `alone_kept`). If page and log are clear, so
// it is by `back_depth` (name_renames/proofs/BackDepth.antt) and `clear_kept` (one_name/proofs/Neighbours.antt; in specs/Laws.antt `clear_kept`).
fn check_names(page: &[u8], log: &[u8], author: Author, alone: bool) -> Result<(), Refusal>
    requires author_value { Passed (opening_tests page.now log.now author) }
    requires page_value { alone ≡ true → list_all (is_alone author (names_of log.now)) (names_of page.now) ≡ true }
    ensures { result ≡ in_order (take_back_tests page.now log.now author) Err (Ok tt) }
{
    if alone || is_clear(page, log, author) {
        return Ok(());
    }
    check_back(page, log, author)
}

// 5, 6, 8; else the page renamed. Nothing is written before every refusal is ruled out.
fn rename_checked(page: &[u8], log: &[u8], author: Author, out: &mut [u8]) -> Answer
    requires { Passed (opening_tests page.now log.now author) }
    ensures value { result ≡ (rename_outcome page.now log.now author (length out.old)).answer }
    ensures out_after { out.new ≡ leaves (rename_outcome page.now log.now author (length out.old)) out.old }
{
    check_rename(page, log, author)?;
    if out.len() < page.len() {
        return Err(Refusal::Short);
    }
    write_renamed(page, log, author, out);
    let renamed = page.len() / SLOT;
    Ok(renamed)
}

// 6, 7, 8; else the page taken back. Nothing is written before every refusal is ruled out.
fn take_back_checked(page: &[u8], log: &[u8], author: Author, out: &mut [u8]) -> Answer
    requires { Passed (opening_tests page.now log.now author) }
    ensures value { result ≡ (take_back_outcome page.now log.now author (length out.old)).answer }
    ensures out_after { out.new ≡ leaves (take_back_outcome page.now log.now author (length out.old)) out.old }
{
    let alone = all_alone(page, log, author);
    check_names(page, log, author, alone)?;
    if out.len() < page.len() {
        return Err(Refusal::Short);
    }
    write_back(page, log, author, alone, out);
    let taken_back = page.len() / SLOT;
    Ok(taken_back)
}

// 1, 2, 3, 4, 5, 6, 8; else the page with its names renamed.
pub fn rename(page: &[u8], log: &[u8], author: Author, out: &mut [u8]) -> Answer
    ensures value { result ≡ (rename_outcome page.now log.now author (length out.old)).answer }
    ensures out_after { out.new ≡ leaves (rename_outcome page.now log.now author (length out.old)) out.old }
{
    check(page, log, author)?;
    rename_checked(page, log, author, out)
}

// 1, 2, 3, 4, 6, 7, 8; else the page with its names taken back. "Taking back asks for no freshness."
pub fn take_back(page: &[u8], log: &[u8], author: Author, out: &mut [u8]) -> Answer
    ensures value { result ≡ (take_back_outcome page.now log.now author (length out.old)).answer }
    ensures out_after { out.new ≡ leaves (take_back_outcome page.now log.now author (length out.old)) out.old }
{
    check(page, log, author)?;
    take_back_checked(page, log, author, out)
}
