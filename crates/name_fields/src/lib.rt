// Names in fields, read where they stand and written: document 01, "Messages": "a name's tuples, 12 bytes each". The definitions are in
// specs/.

#![tactic(auto)]

ghost use Rattle.std.specs.Prelude.{◌≡◌, ◌+◌, ◌≤◌, length, drop};
ghost use Rattle.numbers.specs.Bytes.{put};
ghost use Rattle.slots.specs.Tuples.{row_at, Lies};
ghost use Rattle.name_fields.specs.NameFields.{field_of_name, field_in};

use fields::{Cursor, FIELD};
use slots::{Span, TUPLE};

// How many tuples stand in the whole field of a name at the cursor, or None where there is no such field: "a name's tuples, 12 bytes
// each". Their number is found once, with the test that the content is a whole number of them.
pub fn name_field(bytes: &[u8], cursor: Cursor, tag: u8) -> Option<usize>
    requires { cursor.at ≤ length bytes.now }
    ensures { result ≡ field_in tag (drop cursor.at bytes.now) }
{
    if bytes.len() - cursor.at < FIELD {
        return None;
    }
    let size = fields::size_at(bytes, cursor);
    let count = size / TUPLE;
    let whole = fields::field_stands(bytes, cursor, tag, size) && TUPLE * count == size;
    whole.then_some(count)
}

// The field of a name that stands in s, and the place after it.
pub fn write_name(out: &mut [u8], p: usize, tag: u8, s: &[u8], name: Span) -> usize
    requires { Lies s.now name × (p + length (field_of_name tag (row_at s.now name)) ≤ length out.old) }
    ensures value { result ≡ p + length (field_of_name tag (row_at s.now name)) }
    ensures out_after { out.new ≡ put out.old p (field_of_name tag (row_at s.now name)) }
{
    let size = TUPLE * name.count;
    // `as`: a name has 16 tuples at most.
    fields::write_field_head(out, p, tag, size as u16);
    slots::copy_row(out, p + FIELD, s, name.at, name.count);
    p + FIELD + size
}
