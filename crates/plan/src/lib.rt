// The call that hands back changed files, from the deck to the answer.
#![tactic(auto)]

ghost use Rattle.std.specs.Prelude.{◌≡◌, ◌≤◌, length};
ghost use Rattle.definition.specs.Calls.{write_changed};
ghost use Rattle.answers.specs.Answer.{outcome_of, answer_of};
ghost use Rattle.plan.specs.Collected.{lent_with, Hands, collected};

use answers::{Answer, admit, answer_of};
use definition::{Change, Cursor, Fault, NullStyle, Refusal, Settings};
use files::Walk;
use given::Given;

const NO_CHANGE: Change = Change {
    id: 0,
    start: 0,
    length: 0,
};

// The changed files are counted, and written one after another with their entries, if output and list have room.
fn write_files(given: &Given, out: &mut [u8], list: &mut [Change]) -> Result<Answer, Refusal>
    requires { length given.now.deck.now ≤ 65536 }
    ensures { Hands (lent_with given.now.deck.now given.now.pool.now out.old list.old) result out.new list.new }
{
    let count = modified::count_all(given.deck);
    if list.len() < count {
        return Err(Refusal {
            fault: Fault::Entries,
            place: 0,
        });
    }
    let front = Walk {
        at: Cursor { at: 0 },
        start: 0,
    };
    let end = changes::fill_list(list, given, out, front, count);
    if out.len() < end.start {
        return Err(Refusal {
            fault: Fault::Room,
            place: 0,
        });
    }
    Ok(Answer {
        number: 0,
        place: 0,
        length: end.start,
        count,
        modified: false,
    })
}

// The limits, the judge, the files. Where there was no room output and list are zeroed.
fn attempt(deck: &[u8], pool: &[u8], out: &mut [u8], list: &mut [Change]) -> Result<Answer, Refusal>
    ensures { outcome_of (answer_of result) out.new list.new
        ≡ collected (lent_with deck.now pool.now out.old list.old) }
{
    let settings = Settings::from(NullStyle::Null);
    admit(deck, pool, out.len(), list.len(), &settings)?;
    let given = Given {
        deck,
        pool,
        settings,
    };
    let written = write_files(&given, out, list);
    if written.is_err() {
        out.fill(0);
        list.fill(NO_CHANGE);
    }
    written
}

// The files of changed includes, written one after another into the output, and their entries in the list.
pub fn collect(deck: &[u8], pool: &[u8], out: &mut [u8], list: &mut [Change]) -> Answer
    ensures { outcome_of result out.new list.new
        ≡ write_changed (lent_with deck.now pool.now out.old list.old) }
{
    answer_of(attempt(deck, pool, out, list))
}
