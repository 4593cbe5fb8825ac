// The listing program: a page from standard input, its listing to standard output. Document 01, "Cases". Everything that
// decides anything is in `listing_text`; here it is read and written.

#![tactic(auto)]

use listing_text::TEXT;
use pages::PAGE;
use std::io;

fn main(rt: HostRuntime) -> io::Result<()> {
    // "with buffers set to zero for a whole page"
    let mut page = [0u8; PAGE];
    let mut input = rt.stdin();
    let n = inputs::read_full(&mut input, &mut page)?;
    // One byte more tells whether the input goes on after a whole page.
    let mut rest = [0u8; 1];
    let more = inputs::read_full(&mut input, &mut rest)?;
    let mut text = [0u8; TEXT];
    let end = listing_text::list(&page[..n], &rest[..more], &mut text);
    rt.write_all(&text[..end])
}
