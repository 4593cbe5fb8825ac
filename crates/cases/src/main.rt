// The cases of document 01, "Cases", but for the listing's, and the story of 02's P1, run over the crates themselves and
// compared. Each line of standard input asks for one, and is written again with what comes back: the answer's number and its
// count, and the listing of what was written. A line is a word and what it asks for:
//
//   # TITLE                         a title
//   rename NODE SEQUENCE NAME ..    the page of these names, of which each has line 7, renamed with log L by that author
//   back NODE SEQUENCE NAME ..      the same page, taken back
//   rename-name NODE SEQUENCE NAME  one name by value, renamed
//   back-name NODE SEQUENCE NAME    one name by value, taken back
//   insert SEQUENCE                 (9, 2, SEQUENCE, 0) into a page of 256 slots (9, 2, 0, 0), (9, 2, 1, 0), ..
//   step INDEX                      the next step from that entry of 01's epochs: 0 stay, 1 up, 2 down, and the index it leads to
//   spare INDEX                     the same of the epochs of 02's P1, where a spare logger's rename is of three names
//   level INDEX                     the same of these with equal counts
//
// A name is written as the listing shows it; a line has three at most.

#![tactic(auto)]

mod asked;
mod line;

use std::io;

fn main(rt: HostRuntime) -> io::Result<()> {
    let mut text = [0u8; 4096];
    let n = inputs::read_full(&mut rt.stdin(), &mut text)?;
    asked::run_text(&rt, &text[..n])
}
