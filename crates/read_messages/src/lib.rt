// Reading a message: document 01, "Messages" and "What comes back". One pass over the bytes by a reader, and a second that writes the
// names. What a message is and what reading gives are defined in `messages`.

#![tactic(auto)]

ghost use Rattle.std.specs.Prelude.{◌≡◌, true, cond, ◌&&◌, ◌+◌, ◌*◌, ◌≤◌, eqb, length, drop, is_some, IfSome, IfOk, IfErr};
ghost use mathlib.Core.List.{map, flatten};
ghost use Rattle.names.specs.Ordering.{compare_rows};
ghost use Rattle.std.specs.Ordering.{is_lt};
ghost use Rattle.names.specs.Names.{limit};
ghost use Rattle.numbers.specs.Bytes.{at32, put};
ghost use Rattle.std.specs.List.{list_all};
ghost use Rattle.slots.specs.Tuples.{row_at, Within};
ghost use Rattle.slots.specs.Slots.{slot_size, slot_bytes};
ghost use Rattle.slots.specs.Looks.{leads};
ghost use Rattle.answers.specs.Answers.{leaves};
ghost use Rattle.pages.specs.Pages.{pieces};
ghost use Rattle.fields.specs.Fields.{field_head};
ghost use Rattle.name_fields.specs.NameFields.{name_fits, tuples_in};
ghost use Rattle.messages.specs.Messages.{insert, pair_size, is_kind, is_epoch, is_author, is_line, name_stands, names_within, after_names, epoch_place, names_place, pair_in, kind_in, rest_in, numbers_in, ends_as};
ghost use Rattle.messages.specs.Calls.{bare, read_outcome, numbers_read};
ghost use Rattle.read_messages.specs.FirstPass.{numbers_stand, good_names, telling};

use answers::Refusal;
use fields::{Cursor, FIELD};
use messages::{
    AUTHOR, AUTHOR_TAG, EPOCH, EPOCH_TAG, INSERT, KIND, KIND_TAG, LINE, LINE_TAG, NAME_TAG, NAMES,
    Numbers, PAIR, SEQUENCE,
};
use names::{Author, LIMIT};
use slots::{SLOT, Span, TUPLE};

// ── what stands at a cursor ──

// Where the tuples of the name stand whose field stands at the cursor.
fn span_in(message: &[u8], cursor: Cursor) -> Span
    requires { name_stands (drop cursor.at message.now) ≡ true }
    ensures { Within message.now result × (row_at message.now result ≡ tuples_in (drop cursor.at message.now)) }
{
    let at = cursor.at + FIELD;
    let count = fields::size_at(message, cursor) / TUPLE;
    Span { at, count }
}

// The tuples are 1 to LIMIT, are a name, and rise above the last. What the two names share is looked at once.
fn name_follows(message: &[u8], last: Span, name: Span) -> bool
    requires { Within message.now last × (leads (row_at message.now last) ≡ true) × Within message.now name }
    ensures { result ≡ (name_fits (row_at message.now name) && is_lt (compare_rows (row_at message.now last) (row_at message.now name))) }
{
    if name.count < 1 || LIMIT < name.count {
        return false;
    }
    slots::follows(message, last.at, last.count, message, name.at, name.count)
}

// The fields of kind, epoch and author stand one after the other from the cursor on.
fn numbers_stand(message: &[u8], cursor: Cursor) -> bool
    requires { cursor.at ≤ length message.now }
    ensures { result ≡ numbers_stand (drop cursor.at message.now) }
{
    if !fields::field_stands(message, cursor, KIND_TAG, KIND) {
        return false;
    }
    let epoch = fields::after_field(message, cursor);
    if !fields::field_stands(message, epoch, EPOCH_TAG, PAIR) {
        return false;
    }
    let author = fields::after_field(message, epoch);
    fields::field_stands(message, author, AUTHOR_TAG, PAIR)
}

fn kind_in(message: &[u8], cursor: Cursor) -> u8
    requires { cursor.at + epoch_place ≤ length message.now }
    ensures { result ≡ kind_in (drop cursor.at message.now) }
{
    message[cursor.at + FIELD]
}

// Node and sequence of the field at the cursor.
fn pair_in(message: &[u8], cursor: Cursor) -> Author
    requires { cursor.at + (field_head + pair_size) ≤ length message.now }
    ensures { result ≡ pair_in message.now cursor.at }
{
    let p = cursor.at + FIELD;
    Author {
        node: numbers::read_u16(message, p),
        sequence: numbers::read_u32(message, p + SEQUENCE),
    }
}

// What follows the names: for insert "tag 5 (line number, 4 bytes)", and "nothing after".
fn ends(message: &[u8], cursor: Cursor, kind: u8) -> bool
    requires { cursor.at ≤ length message.now }
    ensures { result ≡ ends_as kind (drop cursor.at message.now) }
{
    if kind != INSERT {
        return cursor.at == message.len();
    }
    fields::field_stands(message, cursor, LINE_TAG, LINE)
        && fields::after_field(message, cursor).at == message.len()
}

// "line number (0 unless insert)", of the field at the cursor.
fn line_in(message: &[u8], cursor: Cursor, kind: u8) -> u32
    requires { ends_as kind (drop cursor.at message.now) ≡ true }
    ensures { result ≡ cond (eqb kind insert) (at32 (drop cursor.at message.now) field_head) 0 }
{
    if kind == INSERT {
        numbers::read_u32(message, cursor.at + FIELD)
    } else {
        0
    }
}

// All that the message from the cursor on says but the names, which end at `end`.
fn numbers_in(message: &[u8], cursor: Cursor, end: Cursor) -> Numbers
    requires names_place_in_bounds { (cursor.at + names_place ≤ length message.now) × (drop end.at message.now ≡ rest_in (drop cursor.at message.now)) }
    requires message_value { ends_as (kind_in (drop cursor.at message.now)) (rest_in (drop cursor.at message.now)) ≡ true }
    ensures { result ≡ numbers_in (drop cursor.at message.now) }
{
    let kind = kind_in(message, cursor);
    let epoch = pair_in(
        message,
        Cursor {
            at: cursor.at + EPOCH,
        },
    );
    let author = pair_in(
        message,
        Cursor {
            at: cursor.at + AUTHOR,
        },
    );
    let line = line_in(message, end, kind);
    Numbers {
        kind,
        epoch,
        author,
        line,
    }
}

// ── the first pass ──

// What a message says but for the names: how many they are, and its numbers.
#[derive(Clone, Copy, Debug, PartialEq, Eq)]
pub struct Reading {
    pub names: usize,
    pub numbers: Numbers,
}

// How many names were passed, and the place after their fields.
#[derive(Clone, Copy, Debug, PartialEq, Eq)]
struct Passed {
    names: usize,
    end: Cursor,
}

// The names whose fields stand one after the other from the cursor on, at most so many; None where they are no names or don't rise. Kept
// of the last is where it stands; at first that is the row of no tuples, which is below every name.
fn pass_names(message: &[u8], cursor: Cursor, most: usize) -> Option<Passed>
    requires { cursor.at ≤ length message.now }
    ensures good { is_some result ≡ good_names (names_within most (drop cursor.at message.now)) }
    ensures count { IfSome result (λ p. p.names ≡ length (names_within most (drop cursor.at message.now))) }
    ensures rest { IfSome result (λ p. (drop p.end.at message.now ≡ after_names most (drop cursor.at message.now)) × (p.end.at ≤ length message.now)) }
{
    let mut last = Span {
        at: cursor.at,
        count: 0,
    };
    let mut end = cursor;
    for names in 0..most {
        let Some(count) = name_fields::name_field(message, end, NAME_TAG) else {
            return Some(Passed { names, end });
        };
        let name = Span {
            at: end.at + FIELD,
            count,
        };
        if !name_follows(message, last, name) {
            return None;
        }
        last = name;
        end = Cursor {
            at: name.at + TUPLE * count,
        };
    }
    Some(Passed { names: most, end })
}

// One pass over the message from the cursor on; None where there is no message.
fn tell(message: &[u8], cursor: Cursor) -> Option<Reading>
    requires { cursor.at ≤ length message.now }
    ensures { result ≡ telling (drop cursor.at message.now) }
{
    if !numbers_stand(message, cursor) {
        return None;
    }
    let kind = kind_in(message, cursor);
    let first = Cursor {
        at: cursor.at + NAMES,
    };
    let Passed { names, end } = pass_names(message, first, messages::most_names(kind))?;
    if names == 0 || !ends(message, end, kind) {
        return None;
    }
    let numbers = numbers_in(message, cursor, end);
    messages::numbers_ok(numbers).then_some(Reading { names, numbers })
}

// ── the reader ──

// "a reader that holds the bytes and its place"
#[derive(Clone, Copy)]
struct Reader<'a> {
    message: &'a [u8],
    cursor: Cursor,
}

impl<'a> Reader<'a> {
    // A reader at the beginning of a message.
    fn of(message: &'a [u8]) -> Reader<'a>
        ensures { (result.message ≡ message.entry) × (result.cursor.at ≡ 0) }
    {
        Reader {
            message,
            cursor: Cursor { at: 0 },
        }
    }

    // What a message says that stands at the reader's place; beyond the end there is none.
    fn tell(self) -> Option<Reading>
        ensures { result ≡ telling (drop self.entry.cursor.at self.entry.message.now) }
    {
        if self.message.len() < self.cursor.at {
            return None;
        }
        tell(self.message, self.cursor)
    }
}

// ── the second pass ──

// "the names, in slots with line number 0": the name whose field stands at the cursor, in slot i of out.
fn write_slot(message: &[u8], cursor: Cursor, i: usize, out: &mut [u8])
    requires { (name_stands (drop cursor.at message.now) ≡ true) × (length (tuples_in (drop cursor.at message.now)) ≤ limit) × (slot_size * i + slot_size ≤ length out.old) }
    ensures { out.new ≡ put out.old (slot_size * i) (slot_bytes (bare (tuples_in (drop cursor.at message.now)))) }
{
    slots::copy_slot(out, SLOT * i, 0, message, span_in(message, cursor));
}

// The n names whose fields stand from the cursor on, from the start of out.
fn write_each(message: &[u8], cursor: Cursor, n: usize, out: &mut [u8])
    requires { (length (names_within n (drop cursor.at message.now)) ≡ n) × (list_all name_fits (names_within n (drop cursor.at message.now)) ≡ true) × (slot_size * n ≤ length out.old) }
    ensures { out.new ≡ put out.old 0 (flatten (pieces (map bare (names_within n (drop cursor.at message.now))))) }
{
    let mut here = cursor;
    for i in 0..n {
        write_slot(message, here, i, out);
        here = fields::after_field(message, here);
    }
}

// The same, with no loop for the one name of an insert or a remove, which most messages are.
fn write_slots(message: &[u8], cursor: Cursor, n: usize, out: &mut [u8])
    requires { (length (names_within n (drop cursor.at message.now)) ≡ n) × (list_all name_fits (names_within n (drop cursor.at message.now)) ≡ true) × (slot_size * n ≤ length out.old) }
    ensures { out.new ≡ put out.old 0 (flatten (pieces (map bare (names_within n (drop cursor.at message.now))))) }
{
    if n == 1 {
        write_slot(message, cursor, 0, out);
    } else {
        write_each(message, cursor, n, out);
    }
}

// 15, 8; else the numbers and how many names there are, and the names in slots with line number 0. One pass over the bytes, and a second
// that writes.
pub fn read(message: &[u8], out: &mut [u8]) -> Result<Reading, Refusal>
    ensures count { IfOk result (λ r. (read_outcome message.now (length out.old)).answer ≡ Ok r.names) }
    ensures numbers { IfOk result (λ r. r.numbers ≡ numbers_read message.now (length out.old)) }
    ensures refusal { IfErr result (λ r. (read_outcome message.now (length out.old)).answer ≡ Err r) }
    ensures out_after { out.new ≡ leaves (read_outcome message.now (length out.old)) out.old }
{
    let Some(told) = Reader::of(message).tell() else {
        return Err(Refusal::Malformed);
    };
    if out.len() / SLOT < told.names {
        return Err(Refusal::Short);
    }
    write_slots(message, Cursor { at: NAMES }, told.names, out);
    Ok(told)
}
