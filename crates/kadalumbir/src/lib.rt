// The library that firmware links: each function calls one function of the crates below and packs what comes back. Everything is
// checked by the callee. The header is include/kadalumbir.h.

#![tactic(auto)]

ghost use Rattle.std.specs.Prelude.{◌≡◌, ◌<◌, length};
ghost use Rattle.answers.specs.Answers.{count_of, leaves};
ghost use Rattle.pages.specs.Pages.{check_page, check_log};
ghost use Rattle.edits.specs.Edits.{insert_outcome, remove_outcome};
ghost use Rattle.old_pages.specs.OldPages.{from_old_outcome, to_old_outcome};
ghost use Rattle.page_renames.specs.Renames.{rename_outcome, take_back_outcome};
ghost use Rattle.epochs.specs.Calls.{check_table, number_in, index_in, answer_of, next_step_outcome, add_outcome};
ghost use Rattle.messages.specs.Calls.{read_outcome, numbers_read, write_outcome};
ghost use Rattle.groups.specs.Calls.{group_outcome, ungroup_outcome, insert_form_outcome, remove_form_outcome};
ghost use Rattle.kadalumbir.specs.Library.{packed, written, answer_in, numbers_in, new_slot_outcome, numbers};

use answers::{Answer, Refusal};
use messages::Numbers;
use names::{Author, Name};
use read_messages::Reading;
use slots::SLOT;

// answer × 2³² + count
fn pack(a: Answer) -> u64
    requires { count_of a < 4294967296 }
    ensures { result ≡ packed a }
{
    // `as`: std has no From that way.
    u64::from(answers::number(a)) * 4294967296 + answers::count(a) as u64
}

// ── checks ──

#[unsafe(no_mangle)]
pub extern "C" fn kadalumbir_check_page(page: &[u8]) -> u64
    ensures { result ≡ packed (check_page page.now) }
{
    pack(pages::check_page(page))
}

#[unsafe(no_mangle)]
pub extern "C" fn kadalumbir_check_log(log: &[u8]) -> u64
    ensures { result ≡ packed (check_log log.now) }
{
    pack(pages::check_log(log))
}

#[unsafe(no_mangle)]
pub extern "C" fn kadalumbir_check_epochs(table: &[u8]) -> u64
    ensures { result ≡ packed (check_table table.now) }
{
    pack(epochs::check_table(table))
}

// ── lines ──

#[unsafe(no_mangle)]
pub extern "C" fn kadalumbir_insert(page: &[u8], slot: &[u8], out: &mut [u8]) -> u64
    ensures value { result ≡ packed (insert_outcome page.now slot.now (length out.old)).answer }
    ensures out_after { out.new ≡ leaves (insert_outcome page.now slot.now (length out.old)) out.old }
{
    pack(edits::insert(page, slot, out))
}

#[unsafe(no_mangle)]
pub extern "C" fn kadalumbir_remove(page: &[u8], slot: &[u8], out: &mut [u8]) -> u64
    ensures value { result ≡ packed (remove_outcome page.now slot.now (length out.old)).answer }
    ensures out_after { out.new ≡ leaves (remove_outcome page.now slot.now (length out.old)) out.old }
{
    pack(edits::remove(page, slot, out))
}

// ── old pages ──

#[unsafe(no_mangle)]
pub extern "C" fn kadalumbir_from_old(old: &[u8], out: &mut [u8]) -> u64
    ensures value { result ≡ packed (from_old_outcome old.now (length out.old)).answer }
    ensures out_after { out.new ≡ leaves (from_old_outcome old.now (length out.old)) out.old }
{
    pack(old_pages::from_old(old, out))
}

#[unsafe(no_mangle)]
pub extern "C" fn kadalumbir_to_old(page: &[u8], out: &mut [u8]) -> u64
    ensures value { result ≡ packed (to_old_outcome page.now (length out.old)).answer }
    ensures out_after { out.new ≡ leaves (to_old_outcome page.now (length out.old)) out.old }
{
    pack(old_pages::to_old(page, out))
}

// ── new names ──

// The refusal; 8; else the name as one slot with line number 0.
fn write_name(made: Result<Name, Refusal>, out: &mut [u8]) -> Answer
    ensures value { result ≡ (written made (length out.old)).answer }
    ensures out_after { out.new ≡ leaves (written made (length out.old)) out.old }
{
    let name = made?;
    if out.len() < SLOT {
        return Err(Refusal::Short);
    }
    slots::write_slot(out, 0, 0, name);
    Ok(0)
}

#[unsafe(no_mangle)]
pub extern "C" fn kadalumbir_new_name(
    page: &[u8],
    gap: usize,
    node: u16,
    sequence: u32,
    out: &mut [u8],
) -> u64
    ensures value { result ≡ packed (new_slot_outcome page.now gap (record { node = node; sequence = sequence }) (length out.old)).answer }
    ensures out_after { out.new ≡ leaves (new_slot_outcome page.now gap (record { node = node; sequence = sequence }) (length out.old)) out.old }
{
    let made = new_names::new_name(page, gap, Author { node, sequence });
    pack(write_name(made, out))
}

// ── renames ──

#[unsafe(no_mangle)]
pub extern "C" fn kadalumbir_rename(
    page: &[u8],
    log: &[u8],
    node: u16,
    sequence: u32,
    out: &mut [u8],
) -> u64
    ensures value { result ≡ packed (rename_outcome page.now log.now (record { node = node; sequence = sequence }) (length out.old)).answer }
    ensures out_after { out.new ≡ leaves (rename_outcome page.now log.now (record { node = node; sequence = sequence }) (length out.old)) out.old }
{
    pack(page_renames::rename(page, log, Author { node, sequence }, out))
}

#[unsafe(no_mangle)]
pub extern "C" fn kadalumbir_take_back(
    page: &[u8],
    log: &[u8],
    node: u16,
    sequence: u32,
    out: &mut [u8],
) -> u64
    ensures value { result ≡ packed (take_back_outcome page.now log.now (record { node = node; sequence = sequence }) (length out.old)).answer }
    ensures out_after { out.new ≡ leaves (take_back_outcome page.now log.now (record { node = node; sequence = sequence }) (length out.old)) out.old }
{
    pack(page_renames::take_back(page, log, Author { node, sequence }, out))
}

// ── epochs ──

#[unsafe(no_mangle)]
pub extern "C" fn kadalumbir_next_step(
    table: &[u8],
    current: usize,
    step: &mut u8,
    index: &mut u32,
) -> u64
    ensures value { result ≡ packed (answer_of (next_step_outcome table.now current)) }
    ensures step_after { step.new ≡ number_in (next_step_outcome table.now current) }
    ensures index_after { index.new ≡ index_in (next_step_outcome table.now current) }
{
    let next = epochs::next_step(table, current);
    *step = epochs::step_number(next);
    // `as`: an index of a table fits.
    *index = epochs::step_index(next) as u32;
    pack(epochs::answer(next))
}

#[unsafe(no_mangle)]
pub extern "C" fn kadalumbir_add_epoch(
    table: &[u8],
    parent: usize,
    node: u16,
    sequence: u32,
    count: u16,
    out: &mut [u8],
) -> u64
    ensures value { result ≡ packed (add_outcome table.now parent (record { node = node; sequence = sequence }) count (length out.old)).answer }
    ensures out_after { out.new ≡ leaves (add_outcome table.now parent (record { node = node; sequence = sequence }) count (length out.old)) out.old }
{
    pack(epochs::add(table, parent, Author { node, sequence }, count, out))
}

// ── messages ──

#[unsafe(no_mangle)]
pub extern "C" fn kadalumbir_write_message(
    kind: u8,
    epoch_node: u16,
    epoch_sequence: u32,
    author_node: u16,
    author_sequence: u32,
    line: u32,
    names: &[u8],
    out: &mut [u8],
) -> u64
    ensures value { result ≡ packed (write_outcome (numbers kind epoch_node epoch_sequence author_node author_sequence line) names.now (length out.old)).answer }
    ensures out_after { out.new ≡ leaves (write_outcome (numbers kind epoch_node epoch_sequence author_node author_sequence line) names.now (length out.old)) out.old }
{
    let numbers = Numbers {
        kind,
        epoch: Author {
            node: epoch_node,
            sequence: epoch_sequence,
        },
        author: Author {
            node: author_node,
            sequence: author_sequence,
        },
        line,
    };
    pack(write_messages::write(numbers, names, out))
}

// "a refused read gives kind, epoch, author and line number as zeros"
const NOTHING: Numbers = Numbers {
    kind: 0,
    epoch: Author {
        node: 0,
        sequence: 0,
    },
    author: Author {
        node: 0,
        sequence: 0,
    },
    line: 0,
};

fn numbers_in(read: Result<Reading, Refusal>) -> Numbers
    ensures { result ≡ numbers_in read }
{
    read.map_or(NOTHING, |r| r.numbers)
}

// How many names, which are in the output.
fn answer_in(read: Result<Reading, Refusal>) -> Answer
    ensures { result ≡ answer_in read }
{
    read.map(|r| r.names)
}

#[unsafe(no_mangle)]
pub extern "C" fn kadalumbir_read_message(
    message: &[u8],
    kind: &mut u8,
    epoch_node: &mut u16,
    epoch_sequence: &mut u32,
    author_node: &mut u16,
    author_sequence: &mut u32,
    line: &mut u32,
    out: &mut [u8],
) -> u64
    ensures value { result ≡ packed (read_outcome message.now (length out.old)).answer }
    ensures line_after { numbers kind.new epoch_node.new epoch_sequence.new author_node.new author_sequence.new line.new ≡ numbers_read message.now (length out.old) }
    ensures out_after { out.new ≡ leaves (read_outcome message.now (length out.old)) out.old }
{
    let read = read_messages::read(message, out);
    let numbers = numbers_in(read);
    *kind = numbers.kind;
    *epoch_node = numbers.epoch.node;
    *epoch_sequence = numbers.epoch.sequence;
    *author_node = numbers.author.node;
    *author_sequence = numbers.author.sequence;
    *line = numbers.line;
    pack(answer_in(read))
}

// ── forms ──

#[unsafe(no_mangle)]
pub extern "C" fn kadalumbir_group(page: &[u8], out: &mut [u8]) -> u64
    ensures value { result ≡ packed (group_outcome page.now (length out.old)).answer }
    ensures out_after { out.new ≡ leaves (group_outcome page.now (length out.old)) out.old }
{
    pack(grouping::group(page, out))
}

#[unsafe(no_mangle)]
pub extern "C" fn kadalumbir_ungroup(form: &[u8], out: &mut [u8]) -> u64
    ensures value { result ≡ packed (ungroup_outcome form.now (length out.old)).answer }
    ensures out_after { out.new ≡ leaves (ungroup_outcome form.now (length out.old)) out.old }
{
    pack(grouping::ungroup(form, out))
}

#[unsafe(no_mangle)]
pub extern "C" fn kadalumbir_group_insert(form: &[u8], slot: &[u8], out: &mut [u8]) -> u64
    ensures value { result ≡ packed (insert_form_outcome form.now slot.now (length out.old)).answer }
    ensures out_after { out.new ≡ leaves (insert_form_outcome form.now slot.now (length out.old)) out.old }
{
    pack(form_edits::insert(form, slot, out))
}

#[unsafe(no_mangle)]
pub extern "C" fn kadalumbir_group_remove(form: &[u8], slot: &[u8], out: &mut [u8]) -> u64
    ensures value { result ≡ packed (remove_form_outcome form.now slot.now (length out.old)).answer }
    ensures out_after { out.new ≡ leaves (remove_form_outcome form.now slot.now (length out.old)) out.old }
{
    pack(form_edits::remove(form, slot, out))
}
