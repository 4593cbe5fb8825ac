// What comes back: the answers of 01's table, each with its number and count. Document 01, "What comes back"; the definitions are in
// specs/.

#![tactic(auto)]

ghost use Rattle.std.specs.Prelude.{◌≡◌};
ghost use Rattle.answers.specs.Answers.{refusal_number, number_of, count_of};

// What is refused, in the order of 01's table, each under its number.
#[derive(Clone, Copy, Debug, PartialEq, Eq)]
pub enum Refusal {
    // A page (its order apart) or given slot breaks its layout.
    BadLayout = 1,
    // Page names not strictly rising.
    NotRising = 2,
    // Log breaks its layout, is empty, not rising, or has a line number other than 0.
    BadLog = 3,
    // Author node is 0.
    NoAuthor = 4,
    // Rename not fresh.
    NotFresh = 5,
    // Some result needs more tuples than a name has: sixteen, or in an old page eight.
    TooDeep = 6,
    // Taken-back names not strictly rising.
    NotRisingBack = 7,
    // Output shorter than the result.
    Short = 8,
    // Insert: name present.
    Present = 9,
    // Remove: name absent.
    Absent = 10,
    // Insert: page has 256 slots.
    Full = 11,
    // No new name by the rule.
    NoNewName = 12,
    // Epoch table breaks its layout.
    BadTable = 13,
    // Current or parent index not in the table.
    NoEpoch = 14,
    // Message, or the parts given for one, malformed.
    Malformed = 15,
    // Gap beyond the page.
    NoGap = 16,
    // Epoch to add already listed.
    Listed = 17,
    // Epoch table has 32 entries.
    TableFull = 18,
}

impl From<Refusal> for u32 {
    ghost from_gives = { λ r n. n ≡ refusal_number r };

    fn from(r: Refusal) -> u32 {
        // `as`: nothing else tells a variant's number.
        r as u32
    }
}

// What comes back: the count of slots, entries or bytes written, or a refusal.
pub type Answer = Result<usize, Refusal>;

// 01's number of an answer: 0 where it is accepted.
pub fn number(a: Answer) -> u32
    ensures { result ≡ number_of a }
{
    match a {
        Ok(_) => 0,
        Err(r) => u32::from(r),
    }
}

// The count that an answer reports: a refusal 0.
pub fn count(a: Answer) -> usize
    ensures { result ≡ count_of a }
{
    a.unwrap_or(0)
}
