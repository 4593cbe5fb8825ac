// The text of a listing. Document 01, "Cases", from "The listing program" on; the definitions are in specs/.

#![tactic(auto)]

ghost use Rattle.std.specs.Prelude.{◌≡◌, true, [], ◌∷◌, ◌++◌, ◌+◌, ◌*◌, ◌/◌, ◌≤◌, length, take};
ghost use Rattle.numbers.specs.Bytes.{put};
ghost use Rattle.slots.specs.Tuples.{tuples_at, tuple_size};
ghost use Rattle.slots.specs.Slots.{slot_size, depth_of, slot_of};
ghost use Rattle.pages.specs.Pages.{slots_of, keeps_layout};
ghost use Rattle.listing_text.specs.Listing.{decimal, decimal_ℤ, tuple_text, name_text, line_text, header, lines_text, refused_text, check_input, listing, number_room, offset_room, tuple_room, line_room};

use answers::{Answer, Refusal};
use names::{LIMIT, Tuple};
use pages::SLOTS;
use slots::{HEAD, SLOT, TUPLE};

// The most bytes of a number: a u32 has ten digits. Of an offset: its minus, and the digits of a number.
const NUMBER_TEXT: usize = 10;

const OFFSET_TEXT: usize = 1 + NUMBER_TEXT;

// Of a tuple: three numbers with a `.` after each, and the offset; 44.
const TUPLE_TEXT: usize = 3 * (NUMBER_TEXT + 1) + OFFSET_TEXT;

// Of a line: two numbers with a space after each, and LIMIT tuples, each with a `/` or, the last, the newline after it; 742.
const LINE: usize = 2 * (NUMBER_TEXT + 1) + LIMIT * (TUPLE_TEXT + 1);

const HEADER_TEXT: usize = 16;

// Of a listing: the header and a line for each slot; 189,968. A refusal takes less.
pub const TEXT: usize = HEADER_TEXT + SLOTS * LINE;

// "It writes the fixed line `line depth name`"
pub const HEADER: [u8; HEADER_TEXT] = *b"line depth name\n";

// Each function `put_..` writes a text into out from p on and answers where it ends. It requires room for the most bytes
// that the text takes, and promises the whole output. std's `Display` and `Write` do not take their place: they promise what is
// written where the answer is Ok, and never that it is, and `list` cannot fail.

fn put_byte(out: &mut [u8], p: usize, b: u8) -> usize
    requires { p + 1 ≤ length out.old }
    ensures { (result ≡ p + 1) × (out.new ≡ put out.old p (b ∷ [])) }
{
    out[p] = b;
    p + 1
}

// "all in decimal": the digits before the last, which are those of n / 10, and the last. As a loop it would find the last digit first, and
// need bytes of its own to turn them round.
fn put_decimal(out: &mut [u8], p: usize, n: u32) -> usize
    requires { p + number_room ≤ length out.old }
    ensures value { (result ≡ p + length (decimal n)) × (out.new ≡ put out.old p (decimal n)) }
    ensures upper_bound { result ≤ p + number_room }
{
    // `as`: the remainder fits.
    let last = b'0' + (n % 10) as u8;
    if n < 10 {
        return put_byte(out, p, last);
    }
    let q = put_decimal(out, p, n / 10);
    put_byte(out, q, last)
}

// "a negative offset with `-`"
fn put_offset(out: &mut [u8], p: usize, z: i32) -> usize
    requires { p + offset_room ≤ length out.old }
    ensures value { (result ≡ p + length (decimal_ℤ z)) × (out.new ≡ put out.old p (decimal_ℤ z)) }
    ensures upper_bound { result ≤ p + offset_room }
{
    if !z.is_negative() {
        return put_decimal(out, p, z.unsigned_abs());
    }
    let q = put_byte(out, p, b'-');
    put_decimal(out, q, z.unsigned_abs())
}

// A number and what stands after it.
fn put_number(out: &mut [u8], p: usize, n: u32, after: u8) -> usize
    requires { p + number_room + 1 ≤ length out.old }
    ensures value { (result ≡ p + length (decimal n ++ (after ∷ []))) × (out.new ≡ put out.old p (decimal n ++ (after ∷ []))) }
    ensures upper_bound { result ≤ p + number_room + 1 }
{
    let q = put_decimal(out, p, n);
    put_byte(out, q, after)
}

// "position.node.sequence.offset"
fn put_tuple(out: &mut [u8], p: usize, t: Tuple) -> usize
    requires { p + tuple_room ≤ length out.old }
    ensures value { (result ≡ p + length (tuple_text t)) × (out.new ≡ put out.old p (tuple_text t)) }
    ensures upper_bound { result ≤ p + tuple_room }
{
    let node = put_number(out, p, u32::from(t.position), b'.');
    let sequence = put_number(out, node, u32::from(t.node), b'.');
    let offset = put_number(out, sequence, t.sequence, b'.');
    put_offset(out, offset, t.offset)
}

// "the tuples .. joined by `/`": the n tuples that stand at `at` in s.
fn put_name(out: &mut [u8], p: usize, s: &[u8], at: usize, n: usize) -> usize
    requires { (1 ≤ n) × (at + tuple_size * n ≤ length s.now) × (p + (tuple_room + 1) * n ≤ length out.old) }
    ensures value { (result ≡ p + length (name_text (tuples_at s.now at n))) × (out.new ≡ put out.old p (name_text (tuples_at s.now at n))) }
    ensures result_bound { result + 1 ≤ p + (tuple_room + 1) * n }
{
    let mut end = put_tuple(out, p, slots::read_tuple(s, at));
    for k in 1..n {
        let next = put_byte(out, end, b'/');
        end = put_tuple(out, next, slots::read_tuple(s, at + TUPLE * k));
    }
    end
}

// "per slot: line number, depth, and the tuples .., each line ended by one newline"
fn put_line(out: &mut [u8], p: usize, slot: &[u8]) -> usize
    requires { (length slot.now ≡ slot_size) × (1 ≤ depth_of slot.now) × (p + line_room ≤ length out.old) }
    ensures value { (result ≡ p + length (line_text (slot_of slot.now))) × (out.new ≡ put out.old p (line_text (slot_of slot.now))) }
    ensures upper_bound { result ≤ p + line_room }
{
    let d = slots::depth(slot);
    let depth = put_number(out, p, slots::read_line(slot), b' ');
    // `as`: a depth fits.
    let name = put_number(out, depth, d as u32, b' ');
    let end = put_name(out, name, slot, HEAD, d);
    put_byte(out, end, b'\n')
}

// The bytes of s.
fn put_bytes(out: &mut [u8], p: usize, s: &[u8]) -> usize
    requires { p + length s.now ≤ length out.old }
    ensures { (result ≡ p + length s.now) × (out.new ≡ put out.old p s.now) }
{
    numbers::copy(out, p, s);
    p + s.len()
}

// "the fixed line `line depth name`"
fn put_header(out: &mut [u8], p: usize) -> usize
    requires { p + length header ≤ length out.old }
    ensures { (result ≡ p + length header) × (out.new ≡ put out.old p header) }
{
    put_bytes(out, p, &HEADER)
}

// A line for each slot of the page.
fn put_lines(out: &mut [u8], p: usize, page: &[u8]) -> usize
    requires { (keeps_layout page.now ≡ true) × (p + line_room * (length page.now / slot_size) ≤ length out.old) }
    ensures value { (result ≡ p + length (lines_text (slots_of page.now))) × (out.new ≡ put out.old p (lines_text (slots_of page.now))) }
    ensures upper_bound { result ≤ p + line_room * (length page.now / slot_size) }
{
    let (slots, _) = page.as_chunks::<SLOT>();
    let mut q = p;
    // By index, so that an edit that leaves out the first slot (must-fail/first_slot_unlisted) is refused for what it lists.
    for k in 0..slots.len() {
        q = put_line(out, q, &slots[k]);
    }
    q
}

// "A bad page gives only the line `refused 1` or `refused 2`"
fn put_refused(out: &mut [u8], p: usize, n: u32) -> usize
    requires { p + line_room ≤ length out.old }
    ensures value { (result ≡ p + length (refused_text n)) × (out.new ≡ put out.old p (refused_text n)) }
    ensures upper_bound { result ≤ p + line_room }
{
    let q = put_bytes(out, p, b"refused ");
    put_number(out, q, n, b'\n')
}

// "input above 26,624 bytes is `refused 1`" (02, P8: "a page is at most 51,200 bytes")
fn check_input(page: &[u8], rest: &[u8]) -> Answer
    ensures { result ≡ check_input page.now rest.now }
{
    if !rest.is_empty() {
        return Err(Refusal::BadLayout);
    }
    pages::check_page(page)
}

// What the listing program writes, and how many bytes it takes: page is what was read into a buffer for a whole page, rest what
// was read after that buffer was full.
pub fn list(page: &[u8], rest: &[u8], out: &mut [u8; TEXT]) -> usize
    ensures value { (result ≡ length (listing page.now rest.now)) × (out.new ≡ put out.old 0 (listing page.now rest.now)) }
    ensures upper_bound { (result ≤ length out.new) × (result ≡ length (take result out.new)) }
{
    match check_input(page, rest) {
        Ok(_) => {
            let p = put_header(out, 0);
            put_lines(out, p, page)
        }
        Err(r) => put_refused(out, 0, u32::from(r)),
    }
}
