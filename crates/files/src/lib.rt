// The files of changed includes, one after another in the lent output: one step writes one file.
#![tactic(auto)]

ghost use Rattle.std.specs.Prelude.{◌≡◌, ◌≤◌, length};
ghost use Rattle.definition.specs.Calls.{no_change};
ghost use Rattle.spot.specs.Spot.{spot_at};
ghost use Rattle.files.specs.Files.{Finds, file_step, is_ready, made_at, out_after};

use definition::{Change, Cursor, NullStyle, Settings};
use given::Given;

// Where the walk over the deck stands, and where the next file starts in the output. A walk that stands past the output makes entries of zeros.
#[derive(Clone, Copy)]
pub struct Walk {
    pub at: Cursor,
    pub start: usize,
}

// An entry, and the walk after it.
#[derive(Clone, Copy)]
pub struct Made {
    pub change: Change,
    pub next: Walk,
}

// A changed file: its id, its node's cursor, and the next head's.
#[derive(Clone, Copy)]
struct Found {
    id: usize,
    at: Cursor,
    next: Cursor,
}

// The first changed file of the heads from a cursor on. Heads stand in tree order.
fn find(deck: &[u8], c: Cursor) -> Option<Found>
    requires { c.at ≤ length deck.now }
    ensures { Finds deck.now c result }
{
    let mut here = c;
    for _ in 0..deck.len() {
        let next = spot::spot_at(deck, here).next;
        if let Some(id) = modified::file_at(deck, here) {
            return Some(Found { id, at: here, next });
        }
        here = next;
    }
    None
}

// A file is written from a place of the output on, by a writer of its own, under plain settings.
fn write_file(given: &Given, out: &mut [u8], start: usize, found: Found) -> Made
    requires { (length out.old ≤ 1048576) × (start ≤ length out.old) × (found.at.at ≤ length given.now.deck.now) × (length given.now.deck.now ≤ 65536) × (length given.now.pool.now ≤ 65536) }
    ensures { (result ≡ (file_step given.now.deck.now given.now.pool.now out.old start found).made) × (out.new ≡ (file_step given.now.deck.now given.now.pool.now out.old start found).out) }
{
    let plain = Given {
        deck: given.deck,
        pool: given.pool,
        settings: Settings::from(NullStyle::Null),
    };
    let w = pen::fresh_writer(&plain.settings);
    let v = document::write_one(w, &plain, &mut out[start..], found.at, true);
    let length = v.len();
    Made {
        change: Change {
            id: found.id,
            start,
            length,
        },
        next: Walk {
            at: found.next,
            start: start + length,
        },
    }
}

// Deck, pool and output are within their limits, and the walk within deck and output.
#[tactic(auto, unfolding(crate::specs::Files::is_ready))]
fn is_ready(deck: usize, pool: usize, out: usize, w: Walk) -> bool
    ensures { result ≡ is_ready deck pool out w }
{
    deck <= 65536 && pool <= 65536 && out <= 1048576 && w.at.at <= deck && w.start <= out
}

// No file: an entry of zeros, and the same walk.
#[tactic(auto, unfolding(definition::specs::Calls::no_change))]
fn stay(w: Walk) -> Made
    ensures { result ≡ record { change = no_change; next = w } }
{
    Made {
        change: Change {
            id: 0,
            start: 0,
            length: 0,
        },
        next: w,
    }
}

// The next changed file from a walk on, written into the output; its entry, and the walk after it. Where the file has no room the walk stands
// past the output.
pub fn next_file(given: &Given, out: &mut [u8], w: Walk) -> Made
    ensures { (result ≡ made_at given.now.deck.now given.now.pool.now out.old w) × (out.new ≡ out_after given.now.deck.now given.now.pool.now out.old w) }
{
    if !is_ready(given.deck.len(), given.pool.len(), out.len(), w) {
        return stay(w);
    }
    match find(given.deck, w.at) {
        Some(found) => write_file(given, out, w.start, found),
        None => stay(w),
    }
}
