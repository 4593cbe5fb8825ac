// "Fields of one-byte tag, two-byte length, content": document 01, "Messages". What the tags and the contents are is said by who uses
// them. The definitions are in specs/.

#![tactic(auto)]

ghost use Rattle.std.specs.Prelude.{◌≡◌, ◌∷◌, ◌+◌, ◌≤◌, length, drop};
ghost use Rattle.numbers.specs.Bytes.{bytes16, put};
ghost use Rattle.fields.specs.Fields.{field_head, longest_content, size_in, stands};

// The bytes before the content, and where the length stands.
pub const FIELD: usize = 3;

const SIZE: usize = 1;

// ── reading ──

// A place in some bytes. The clauses speak of the bytes from there on.
#[derive(Clone, Copy, Debug, PartialEq, Eq)]
pub struct Cursor {
    pub at: usize,
}

// How many bytes of content the field at the cursor says that it has.
pub fn size_at(bytes: &[u8], cursor: Cursor) -> usize
    requires { cursor.at + field_head ≤ length bytes.now }
    ensures { (result ≡ size_in (drop cursor.at bytes.now)) × (result ≤ longest_content) }
{
    usize::from(numbers::read_u16(bytes, cursor.at + SIZE))
}

// A field with this tag and a content of this many bytes stands whole at the cursor.
pub fn field_stands(bytes: &[u8], cursor: Cursor, tag: u8, size: usize) -> bool
    requires { cursor.at ≤ length bytes.now }
    ensures { result ≡ stands tag size (drop cursor.at bytes.now) }
{
    let rest = bytes.len() - cursor.at;
    rest >= FIELD
        && rest - FIELD >= size
        && bytes[cursor.at] == tag
        && size_at(bytes, cursor) == size
}

// The place after the field at the cursor.
pub fn after_field(bytes: &[u8], cursor: Cursor) -> Cursor
    requires { cursor.at + (field_head + size_in (drop cursor.at bytes.now)) ≤ length bytes.now }
    ensures { result.at ≡ cursor.at + (field_head + size_in (drop cursor.at bytes.now)) }
{
    Cursor {
        at: cursor.at + FIELD + size_at(bytes, cursor),
    }
}

// ── writing ──

// A field's tag and length.
pub fn write_field_head(out: &mut [u8], p: usize, tag: u8, size: u16)
    requires { p + field_head ≤ length out.old }
    ensures { out.new ≡ put out.old p (tag ∷ bytes16 size) }
{
    out[p] = tag;
    numbers::write_u16(out, p + SIZE, size);
}
