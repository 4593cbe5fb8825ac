// What a message says and which numbers can be said: document 01, "Messages". The definitions of a message, and of what reading and
// writing one give, are in specs/, with what holds of them (specs/Laws.antt). `read_messages` reads and `write_messages` writes.

#![tactic(auto)]

ghost use Rattle.std.specs.Prelude.{◌≡◌, ◌&&◌};
ghost use Rattle.messages.specs.Messages.{is_kind, is_epoch, is_author, is_line, most_names};

use fields::FIELD;
use names::Author;
use pages::SLOTS;

// "Reading gives kind, epoch, author, line number (0 unless insert) and the names": all of it but the names. An epoch goes by the
// author of the rename that began it, the first epoch by zeros.
#[derive(Clone, Copy, Debug, PartialEq, Eq)]
pub struct Numbers {
    pub kind: u8,
    pub epoch: Author,
    pub author: Author,
    pub line: u32,
}

// "1 insert, 2 remove, 3 rename". Kinds are numbers and no enum: `numbers_ok` and `most_names`, and the C functions that stand on them,
// take any byte there.
pub const INSERT: u8 = 1;

const RENAME: u8 = 3;

// "Tag 1: kind", "Tag 2: epoch", "Tag 3: author", "tag 4 (a name's tuples ..)", "tag 5 (line number ..)"
pub const KIND_TAG: u8 = 1;

pub const EPOCH_TAG: u8 = 2;

pub const AUTHOR_TAG: u8 = 3;

pub const NAME_TAG: u8 = 4;

pub const LINE_TAG: u8 = 5;

// "kind, one byte", "node and sequence in 6 bytes", "line number, 4 bytes"
pub const KIND: usize = 1;

pub const PAIR: usize = 6;

pub const LINE: usize = 4;

// Where the sequence stands in a pair, after the node.
pub const SEQUENCE: usize = 2;

// Where the fields of fixed sizes begin, and the names after them.
pub const EPOCH: usize = FIELD + KIND;

pub const AUTHOR: usize = EPOCH + FIELD + PAIR;

pub const NAMES: usize = AUTHOR + FIELD + PAIR;

fn kind_ok(kind: u8) -> bool
    ensures { result ≡ is_kind kind }
{
    matches!(kind, INSERT..=RENAME)
}

// "six zeros for the first epoch; node 0 with another sequence is malformed"
fn epoch_ok(epoch: Author) -> bool
    ensures { result ≡ is_epoch epoch }
{
    epoch.node >= 1 || epoch.sequence == 0
}

// "author, 6 bytes, node at least 1"
fn author_ok(author: Author) -> bool
    ensures { result ≡ is_author author }
{
    author.node >= 1
}

// "a line number other than 0 where the kind isn't insert"
fn line_ok(kind: u8, line: u32) -> bool
    ensures { result ≡ is_line kind line }
{
    kind == INSERT || line == 0
}

// "a bad kind, epoch, author .., a line number other than 0 where the kind isn't insert"
pub fn numbers_ok(x: Numbers) -> bool
    ensures { result ≡ (is_kind x.kind && is_epoch x.epoch && is_author x.author && is_line x.kind x.line) }
{
    kind_ok(x.kind) && epoch_ok(x.epoch) && author_ok(x.author) && line_ok(x.kind, x.line)
}

// "for insert tag 4 ..; for remove one tag 4; for rename 1..256 tags 4": the most names.
pub fn most_names(kind: u8) -> usize
    ensures { result ≡ most_names kind }
{
    if kind == RENAME { SLOTS } else { 1 }
}
