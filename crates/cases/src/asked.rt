// What the lines ask for.
ghost use Rattle.std.specs.Prelude.{◌≡◌, true};
ghost use Rattle.pages.specs.Pages.{is_log};

use crate::line::{NAMES, author, name, number, put_names};
use answers::{Answer, Refusal};
use listing_text::TEXT;
use names::{Author, Name, Tuple};
use pages::PAGE;
use slots::SLOT;
use std::io;
use std::slice::Iter;

// The line number of the slots.
const LINE: u32 = 7;

// What comes back, after the line: two numbers.
fn say(rt: &impl Print, a: u32, b: usize) -> io::Result<()> {
    println!(rt; ": {a} {b}")
}

fn say_answer(rt: &impl Print, a: Answer) -> io::Result<()> {
    say(rt, answers::number(a), answers::count(a))
}

fn show(rt: &impl Print, page: &[u8]) -> io::Result<()> {
    let mut text = [0u8; TEXT];
    let end = listing_text::list(page, b"", &mut text);
    rt.write_all(&text[..end])
}

// ── renames ──

// The page of the names that come after the author, renamed or taken back.
fn page_case<F: Fn(&[u8], Author, &mut [u8]) -> Answer>(
    rt: &impl Print,
    mut bytes: Iter<u8>,
    call: F,
) -> io::Result<()>
    requires { F.IsAlwaysCallable call }
{
    let by = author(&mut bytes);
    let mut page = [0u8; NAMES * SLOT];
    let size = SLOT * put_names(&mut page, LINE, &mut bytes);
    let mut out = [0u8; NAMES * SLOT];
    let a = call(&page[..size], by, &mut out);
    say_answer(rt, a)?;
    if a.is_ok() {
        show(rt, &out[..size])?;
    }
    Ok(())
}

// One name by value; 6 where what it becomes has more than sixteen tuples.
fn name_case<F: Fn(Author, Name) -> Option<Name>>(
    rt: &impl Print,
    mut bytes: Iter<u8>,
    call: F,
) -> io::Result<()>
    requires { F.IsAlwaysCallable call }
{
    let by = author(&mut bytes);
    let (x, _) = name(&mut bytes);
    let Some(x) = call(by, x) else {
        return say_answer(rt, Err(Refusal::TooDeep));
    };
    let mut slot = [0u8; SLOT];
    slots::write_slot(&mut slot, 0, LINE, x);
    say_answer(rt, Ok(1))?;
    show(rt, &slot)
}

// ── a page of 256 slots ──

fn counted(k: u32) -> Name {
    name_values::one(Tuple {
        position: 9,
        node: 2,
        sequence: k,
        offset: 0,
    })
}

fn insert_case(rt: &impl Print, mut bytes: Iter<u8>) -> io::Result<()> {
    let mut page = [0u8; PAGE];
    for (k, slot) in page.chunks_exact_mut(SLOT).enumerate() {
        // `as`: an index of a page fits, and std has no From that way.
        slots::write_slot(slot, 0, LINE, counted(k as u32));
    }
    let mut slot = [0u8; SLOT];
    let (k, _) = number(&mut bytes);
    slots::write_slot(&mut slot, 0, LINE, counted(k));
    let mut out = [0u8; PAGE];
    say_answer(rt, edits::insert(&page, &slot, &mut out))
}

// ── epochs ──

// "(1,1) and (2,2) under the first, (1,1) with child (3,6), (2,2) with child (2,7)": node, sequence, parent and count of each; "01's
// epoch case stands with equal counts" (02, P1), of which each here is 3
const EPOCHS: [u8; 50] =
    *b"\0\0\0\0\0\0\0\0\0\0\0\x01\0\0\0\x01\0\0\0\x03\0\x02\0\0\0\x02\0\0\0\x03\0\x03\0\0\0\x06\0\x01\0\x03\0\x02\0\0\0\x07\0\x02\0\x03";

// 02, P1, "The logger from the drawer": the crew's (2,41), (1,57) and (3,63), one under the other, of 180, 200 and 214 names, and the
// spare logger's (900,5) under the first, of three
const DRAWER: [u8; 50] =
    *b"\0\0\0\0\0\0\0\0\0\0\0\x02\0\0\0\x29\0\0\0\xb4\0\x01\0\0\0\x39\0\x01\0\xc8\0\x03\0\0\0\x3f\0\x02\0\xd6\x03\x84\0\0\0\x05\0\0\0\x03";

// the same with equal counts, so that node and sequence decide alone
const LEVEL: [u8; 50] =
    *b"\0\0\0\0\0\0\0\0\0\0\0\x02\0\0\0\x29\0\0\0\x03\0\x01\0\0\0\x39\0\x01\0\x03\0\x03\0\0\0\x3f\0\x02\0\x03\x03\x84\0\0\0\x05\0\0\0\x03";

fn step_case(rt: &impl Print, mut bytes: Iter<u8>, table: &[u8]) -> io::Result<()> {
    let (k, _) = number(&mut bytes);
    // `as`: std has no From that way.
    let next = epochs::next_step(table, k as usize);
    say(
        rt,
        u32::from(epochs::step_number(next)),
        epochs::step_index(next),
    )
}

// ── lines ──

// A line: it is written, and what it asks for is done. A word ends before a space or a byte below it, and what it asks for stands after that.
fn run(rt: &impl Print, line: &[u8], log: &[u8]) -> io::Result<()>
    requires { is_log log.now ≡ true }
{
    rt.write_all(line)?;
    let mut parts = line.splitn(2, |b| *b <= b' ');
    let word = parts.next();
    let bytes = parts.next().unwrap_or(b"").iter();
    match word {
        Some(b"rename") => page_case(
            rt,
            bytes,
            |page, by, out| page_renames::rename(page, log, by, out),
        ),
        Some(b"back") => page_case(
            rt,
            bytes,
            |page, by, out| page_renames::take_back(page, log, by, out),
        ),
        Some(b"rename-name") => name_case(rt, bytes, |by, x| one_name::rename_name(log, by, x)),
        Some(b"back-name") => name_case(rt, bytes, |by, x| one_name::take_back_name(log, by, x)),
        Some(b"insert") => insert_case(rt, bytes),
        Some(b"step") => step_case(rt, bytes, &EPOCHS),
        Some(b"spare") => step_case(rt, bytes, &DRAWER),
        Some(b"level") => step_case(rt, bytes, &LEVEL),
        _ => println!(rt),
    }
}

// "Log L: r0 = (9,2,0,0), r1 = (9,2,0,0)(6,1,0,0), r2 = (9,2,0,1)"
const L: &[u8] = b"9.2.0.0 9.2.0.0/6.1.0.0 9.2.0.1";

// The lines of a text, with log L.
pub(crate) fn run_text(rt: &impl Print, text: &[u8]) -> io::Result<()> {
    let mut log = [0u8; NAMES * SLOT];
    put_names(&mut log, 0, &mut L.iter());
    // What takes one name by value asks for a log that was checked.
    if pages::log_ok(&log) {
        for line in text.split_inclusive(|b| *b == b'\n') {
            run(rt, line.strip_suffix(b"\n").unwrap_or(line), &log)?;
        }
    }
    Ok(())
}
