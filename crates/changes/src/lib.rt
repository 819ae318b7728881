// The lent list of entries: one entry stored, and a run of them, whose files are written as they come.
#![tactic(auto)]

ghost use Rattle.std.specs.Prelude.{◌≡◌, ◌<◌, ◌≤◌, length, set};
ghost use Rattle.changes.specs.Filled.{started, filled};

use definition::Change;
use files::Walk;
use given::Given;

// Stores an entry at a place of a lent list.
pub fn store_change(list: &mut [Change], at: usize, change: Change)
    requires { at < length list.old }
    ensures { list.new ≡ set list.old at change }
{
    list[at] = change;
}

// Writes the next n changed files of a walk over the deck one after another, and stores their entries at the front of a lent list; hands the walk
// after the last of them back. From where a file has no room, or there is none, entries are zeros.
pub fn fill_list(list: &mut [Change], given: &Given, out: &mut [u8], first: Walk, n: usize) -> Walk
    requires { n ≤ length list.old }
    ensures { started result out.new list.new
        ≡ filled given.now.deck.now given.now.pool.now 0 n (started first out.old list.old) }
{
    let mut w = first;
    for i in 0..n {
        let made = files::next_file(given, out, w);
        store_change(list, i, made.change);
        w = made.next;
    }
    w
}
