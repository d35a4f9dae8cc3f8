// The call list: the records of a run go into the caller's table, one by one; `list` only stores them.

#![tactic(auto)]

pub mod listing;

ghost use Rattle.std.specs.Prelude.{◌≡◌};
ghost use Rattle.answers.specs.Lists.{list_answer};
ghost use Rattle.lists.specs.listing.Answers.{as_entries, as_listed};

use listing::{FlipRecord, Listed};
use word::measured::Room;

// The list of the run on a received word, under a limit, into the caller's table.
pub fn list(code: u8, word: &[u8], limit: u16, table: &mut [FlipRecord]) -> Listed
    ensures { as_listed result table.new ≡ list_answer code word.now limit (as_entries table.old) }
{
    let mut room = Room::new();
    let mut l = listing::begin(code, word, limit, table.len(), &mut room);
    while l.goes {
        table[l.place] = l.record;
        l = listing::next(l, word, &mut room);
    }
    l.answer
}
