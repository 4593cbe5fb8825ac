// Writing a message: document 01, "Messages" and "What comes back". What may be written and what writing gives are defined in `messages`.

#![tactic(auto)]

ghost use Rattle.std.specs.Prelude.{◌≡◌, true, cond, ◌+◌, ◌*◌, ◌≤◌, eqb, length};
ghost use mathlib.Core.List.{[], ◌∷◌, ◌++◌, map, flatten};
ghost use Rattle.names.specs.Names.{limit};
ghost use Rattle.slots.specs.Tuples.{tuple_size};
ghost use Rattle.numbers.specs.Bytes.{put};
ghost use Rattle.answers.specs.Answers.{leaves};
ghost use Rattle.pages.specs.Pages.{max_slots, names_of, keeps_layout};
ghost use Rattle.fields.specs.Fields.{field_head, field_bytes};
ghost use Rattle.messages.specs.Messages.{insert, kind_tag, epoch_tag, author_tag, kind_size, pair_size, line_size, pair_bytes, name_field, line_fields, message_bytes, names_place};
ghost use Rattle.messages.specs.Calls.{parts_given, may_write, write_outcome};

use answers::{Answer, Refusal};
use fields::FIELD;
use messages::{
    AUTHOR, AUTHOR_TAG, EPOCH, EPOCH_TAG, INSERT, KIND, KIND_TAG, LINE, LINE_TAG, NAME_TAG, NAMES,
    Numbers, PAIR, SEQUENCE,
};
use names::Author;
use slots::{SLOT, TUPLE};

// ── the fields ──

fn write_kind(out: &mut [u8], p: usize, kind: u8)
    requires { p + (field_head + kind_size) ≤ length out.old }
    ensures { out.new ≡ put out.old p (field_bytes kind_tag (kind ∷ [])) }
{
    // `as`: a size of one field fits; std has no From that way.
    fields::write_field_head(out, p, KIND_TAG, KIND as u16);
    out[p + FIELD] = kind;
}

// "node and sequence in 6 bytes"
fn write_pair(out: &mut [u8], p: usize, tag: u8, x: Author)
    requires { p + (field_head + pair_size) ≤ length out.old }
    ensures { out.new ≡ put out.old p (field_bytes tag (pair_bytes x)) }
{
    // `as`: likewise.
    fields::write_field_head(out, p, tag, PAIR as u16);
    numbers::write_u16(out, p + FIELD, x.node);
    numbers::write_u32(out, p + FIELD + SEQUENCE, x.sequence);
}

// The fields of fixed sizes.
fn write_numbers(out: &mut [u8], x: Numbers)
    requires { names_place ≤ length out.old }
    ensures { out.new ≡ put out.old 0 (field_bytes kind_tag (x.kind ∷ []) ++ (field_bytes epoch_tag (pair_bytes x.epoch) ++ field_bytes author_tag (pair_bytes x.author))) }
{
    write_kind(out, 0, x.kind);
    write_pair(out, EPOCH, EPOCH_TAG, x.epoch);
    write_pair(out, AUTHOR, AUTHOR_TAG, x.author);
}

// The fields of the names in the slots from p on, and the place after them.
fn write_names(names: &[u8], out: &mut [u8], p: usize) -> usize
    requires { p + length (flatten (map name_field (names_of names.now))) ≤ length out.old }
    ensures value { result ≡ p + length (flatten (map name_field (names_of names.now))) }
    ensures out_after { out.new ≡ put out.old p (flatten (map name_field (names_of names.now))) }
{
    let mut place = p;
    for k in 0..names.len() / SLOT {
        place = name_fields::write_name(out, place, NAME_TAG, names, pages::span_of(names, k));
    }
    place
}

// "for insert .. tag 5 (line number, 4 bytes)"
fn write_line(out: &mut [u8], p: usize, kind: u8, line: u32)
    requires { p + length (flatten (line_fields kind line)) ≤ length out.old }
    ensures { out.new ≡ put out.old p (flatten (line_fields kind line)) }
{
    if kind == INSERT {
        // `as`: likewise.
        fields::write_field_head(out, p, LINE_TAG, LINE as u16);
        numbers::write_u32(out, p + FIELD, line);
    }
}

// "in this order, nothing after"
fn write_fields(x: Numbers, names: &[u8], out: &mut [u8])
    requires { length (message_bytes (parts_given x names.now)) ≤ length out.old }
    ensures { out.new ≡ put out.old 0 (message_bytes (parts_given x names.now)) }
{
    write_numbers(out, x);
    let end = write_names(names, out, NAMES);
    write_line(out, end, x.kind, x.line);
}

// ── what may be written, and how long it is ──

// "15 for any parts that reading can't give": the slots are asked for a log, with no more names than the kind has.
fn may_write(x: Numbers, names: &[u8]) -> bool
    ensures { result ≡ may_write x names.now }
{
    messages::numbers_ok(x)
        && pages::log_ok(names)
        && names.len() / SLOT <= messages::most_names(x.kind)
}

fn line_size(kind: u8) -> usize
    ensures { (result ≡ cond (eqb kind insert) (field_head + line_size) 0) × (result ≤ field_head + line_size) }
{
    if kind == INSERT { FIELD + LINE } else { 0 }
}

// How many bytes the names' fields have.
fn names_size(names: &[u8]) -> usize
    requires { keeps_layout names.now ≡ true }
    ensures { (result ≡ length (flatten (map name_field (names_of names.now)))) × (result ≤ max_slots * (field_head + tuple_size * limit)) }
{
    let mut size = 0;
    for k in 0..names.len() / SLOT {
        size += FIELD + TUPLE * pages::span_of(names, k).count;
    }
    size
}

// How many bytes the message has.
fn message_size(x: Numbers, names: &[u8]) -> usize
    requires { keeps_layout names.now ≡ true }
    ensures { result ≡ length (message_bytes (parts_given x names.now)) }
{
    NAMES + names_size(names) + line_size(x.kind)
}

// 15, 8; else the message of the numbers and the names in the slots.
pub fn write(numbers: Numbers, names: &[u8], out: &mut [u8]) -> Answer
    ensures value { result ≡ (write_outcome numbers names.now (length out.old)).answer }
    ensures out_after { out.new ≡ leaves (write_outcome numbers names.now (length out.old)) out.old }
{
    if !may_write(numbers, names) {
        return Err(Refusal::Malformed);
    }
    let size = message_size(numbers, names);
    if out.len() < size {
        return Err(Refusal::Short);
    }
    write_fields(numbers, names, out);
    Ok(size)
}
