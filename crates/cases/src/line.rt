// Reading a line: each function takes what it reads off the front of the bytes, up to the byte that ends it and with that byte. A
// line that has ended goes on with numbers 0, which a byte 0 ends.
ghost use Rattle.std.specs.Prelude.{◌≤◌};

use names::{Author, LIMIT, Name, Tuple};
use slots::SLOT;
use std::slice::Iter;

// The most names in a line.
pub(crate) const NAMES: usize = 3;

// The digits that come next, as a number modulo 2^32, and the byte that ends them.
fn digits(bytes: &mut Iter<u8>) -> (u32, u8) {
    let mut value: u32 = 0;
    for b in bytes {
        if !b.is_ascii_digit() {
            return (value, *b);
        }
        value = value.wrapping_mul(10).wrapping_add(u32::from(*b - b'0'));
    }
    (value, 0)
}

// A number with or without a minus, in two's complement, and the byte that ends it. By hand, since what `parse` refuses, as a number
// that does not fit, counts here.
pub(crate) fn number(bytes: &mut Iter<u8>) -> (u32, u8) {
    let (value, end) = digits(bytes);
    if end != b'-' {
        return (value, end);
    }
    let (value, end) = digits(bytes);
    (value.wrapping_neg(), end)
}

// A number modulo 2^16.
fn short(bytes: &mut Iter<u8>) -> u16 {
    let (value, _) = number(bytes);
    // `as`: the remainder fits.
    (value % 65536) as u16
}

// The author whose node and sequence come next.
pub(crate) fn author(bytes: &mut Iter<u8>) -> Author {
    let node = short(bytes);
    let (sequence, _) = number(bytes);
    Author { node, sequence }
}

// The tuple that comes next, and the byte that ends it.
fn tuple(bytes: &mut Iter<u8>) -> (Tuple, u8) {
    let position = short(bytes);
    let node = short(bytes);
    let (sequence, _) = number(bytes);
    let (offset, end) = number(bytes);
    let tuple = Tuple {
        position,
        node,
        sequence,
        offset: offset.cast_signed(),
    };
    (tuple, end)
}

// The name that comes next, of LIMIT tuples at most, and the byte that ends it.
pub(crate) fn name(bytes: &mut Iter<u8>) -> (Name, u8) {
    let mut name = name_values::empty();
    for k in 0..LIMIT {
        let (tuple, end) = tuple(bytes);
        name.tuples[k] = tuple;
        name.depth = k + 1;
        if end != b'/' {
            return (name, end);
        }
    }
    (name, b'/')
}

// The names that come next, NAMES at most, as the slots of a page with that line number; how many they are.
pub(crate) fn put_names(page: &mut [u8; NAMES * SLOT], line: u32, bytes: &mut Iter<u8>) -> usize
    ensures { result ≤ 3 }
{
    for k in 0..NAMES {
        let (name, end) = name(bytes);
        slots::write_slot(page, SLOT * k, line, name);
        if end != b' ' {
            return k + 1;
        }
    }
    NAMES
}
