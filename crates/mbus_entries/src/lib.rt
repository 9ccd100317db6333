// The entries of a data telegram.
#![tactic(auto)]

mod entry;

ghost use Rattle.std.specs.Prelude.{◌≡◌, []};
ghost use Rattle.mbus_rules.specs.Entries.{read_entries};
ghost use Rattle.base_rules.specs.Answers.{within};
ghost use Rattle.base_rules.specs.Shown.{shown};
ghost use Rattle.mbus_entries.specs.Walking.{listed};

use crate::entry::next_entry;
use base_rules::Refusal;
use mbus_rules::Entry;
use mbus_telegrams::blank_entry;
use mbus_telegrams::table::any_missing;

// Entries that were read, and how many they are. The places past the count are blank. (There is no heap, and a line has seven at most.)
#[derive(Clone, Copy)]
pub struct Entries {
    pub count: usize,
    pub entries: [Entry; 7],
}

// All entries of the rest, from the left. (An entry says how many bytes it has, so no iterator knows where the next begins.)
pub fn read_entries(rest: &[u8]) -> Result<Entries, Refusal>
    ensures { result ≡ shown (within listed (read_entries 0 rest.now [])) }
{
    let blank = blank_entry();
    let mut entries = [blank; 7];
    let mut marks = [false; 8];
    let mut count: usize = 0;
    let mut at: usize = 0;
    while at < rest.len() {
        let taken = next_entry(&rest[at..], marks)?;
        entries[count] = taken.entry;
        marks[taken.quantity] = true;
        count += 1;
        at += 2 + taken.width;
    }
    if any_missing(marks) {
        return Err(Refusal::QUANTITY_MISSING);
    }
    Ok(Entries { count, entries })
}
