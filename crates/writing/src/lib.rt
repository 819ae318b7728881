// Documents written: from the deck to the answer.
#![tactic(auto)]

ghost use Rattle.std.specs.Prelude.{◌≡◌, []};
ghost use Rattle.node.specs.Total.{trees_of};
ghost use Rattle.pen.specs.Pen.{pen, ink, ended};
ghost use Rattle.agree.specs.Accepted.{Accepted};
ghost use Rattle.layout.specs.Calm.{Calm};
ghost use Rattle.told.specs.Outcome.{Settled, Small, lent};
ghost use Rattle.answers.specs.Answer.{outcome_of, answer_of};
ghost use Rattle.writing.specs.Written.{written, script_of, Tells};

use answers::{Answer, admit, answer_of};
use definition::{Cursor, Fault, Refusal, Settings};
use given::Given;
use pen::Writer;

// The answer at the end of a run. Where the output was too short it is zeroed.
fn settle(w: Writer, out: &mut [u8]) -> Result<Answer, Refusal>
    ensures { Tells (pen w out.old) (answer_of result) out.new }
{
    let length = w.len();
    if out.len() < length {
        out.fill(0);
        return Err(Refusal {
            fault: Fault::Room,
            place: 0,
        });
    }
    Ok(Answer {
        number: 0,
        place: 0,
        length,
        count: 0,
        modified: false,
    })
}

// All documents of a deck, or the first.
fn put_documents(w: Writer, given: &Given, out: &mut [u8], all: bool) -> Writer
    requires { Calm given.now.settings given.now.deck.now given.now.pool.now (pen w out.old) 0 0 }
    ensures { pen result out.new ≡ ended (ink given.now.settings (script_of given.now.settings given.now.deck.now given.now.pool.now all) (pen w out.old)) }
{
    if all {
        return document::write_all(w, given, out);
    }
    let c = Cursor { at: 0 };
    document::write_one(w, given, out, c, false)
}

// A deck of so many documents, which is accepted.
fn emit(given: &Given, out: &mut [u8], all: bool, documents: usize) -> Result<Answer, Refusal>
    requires { Settled given.now.settings × Small (lent given.now.deck.now given.now.pool.now out.old) × Accepted given.now.deck.now given.now.pool.now documents }
    ensures { outcome_of (answer_of result) out.new [] ≡ written given.now.settings all (lent given.now.deck.now given.now.pool.now out.old) }
{
    if !all && documents != 1 {
        return Err(Refusal {
            fault: Fault::Documents,
            place: 0,
        });
    }
    let w = pen::fresh_writer(&given.settings);
    let v = put_documents(w, given, out, all);
    settle(v, out)
}

// The limits, the judge, the emission.
fn attempt(
    deck: &[u8],
    pool: &[u8],
    out: &mut [u8],
    settings: Settings,
    all: bool,
) -> Result<Answer, Refusal>
    ensures { outcome_of (answer_of result) out.new [] ≡ written settings all (lent deck.now pool.now out.old) }
{
    let documents = admit(deck, pool, out.len(), 0, &settings)?;
    let given = Given {
        deck,
        pool,
        settings,
    };
    emit(&given, out, all, documents)
}

// All documents of a deck, or the one that it holds.
pub fn write(deck: &[u8], pool: &[u8], out: &mut [u8], settings: Settings, all: bool) -> Answer
    ensures { outcome_of result out.new [] ≡ written settings all (lent deck.now pool.now out.old) }
{
    answer_of(attempt(deck, pool, out, settings, all))
}
