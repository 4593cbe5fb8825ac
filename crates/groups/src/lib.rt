// Groups and the grouped form of a page: 02, P2. The definitions of groups, of the form's bytes and of what the four calls give are in
// specs/, with what holds of them (specs/Laws.antt). `forms` reads and checks a form, `grouping` makes one of a page and back, and
// `form_edits` edits one. Here are the numbers of the layout.

#![tactic(auto)]

use fields::FIELD;

// "tag 6 a name, tag 7 a length of two bytes, tag 8 the line numbers, four bytes each"
pub const FIRST_TAG: u8 = 6;

pub const LENGTH_TAG: u8 = 7;

pub const LINES_TAG: u8 = 8;

pub const LENGTH: usize = 2;

pub const LINE: usize = 4;

// The most slots of a group: so many line numbers have room in a field.
// `as`: no constant comes of From.
pub const MOST: usize = u16::MAX as usize / LINE;

// The bytes of a group beside its tuples and its line numbers, and those of them that stand after the tuples.
pub const GROUP: usize = FIELD + AFTER_NAME;

pub const AFTER_NAME: usize = FIELD + LENGTH + FIELD;
