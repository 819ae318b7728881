// The judge: how many trees a deck is read into, or its refusal. It is the definition's reader without the trees.
#![tactic(auto)]

ghost use Rattle.std.specs.Prelude.{◌≡◌, false, [], ◌∷◌, ◌+◌, ◌≤◌, length, take, drop};
ghost use Rattle.definition.specs.Utf8.{well_formed};
ghost use Rattle.definition.specs.Deck.{references, texts_fault, meant, in_order, sound, read_record, read_node, read_deck};
ghost use Rattle.judge.specs.Judge.{fault_told, step_told, told, step_of, lead_of, Fitting, verdict_of, Known};

use definition::{Cursor, Fault, Record, Refusal, Text};

// Whether every byte of the body of the record at a cursor has a meaning.
#[tactic(auto, unfolding(definition::specs::Deck::meant))]
fn is_meant(kind: usize, deck: &[u8], c: Cursor) -> bool
    requires { c.at ≤ length deck.now }
    ensures { result ≡ meant kind deck.now c.at }
{
    match kind {
        0x03 => deck::byte(deck, c.at + 9) < 2,
        0x04 => deck::byte(deck, c.at + 5) < 2,
        0x09 => deck::byte(deck, c.at + 5) < 128,
        0x21 => deck::byte(deck, c.at + 5) < 5,
        0x23 | 0x24 => deck::byte(deck, c.at + 1) < 2,
        _ => true,
    }
}

// Whether a record of a kind may stand after one of another, 0 at a node's first record.
#[tactic(auto, unfolding(definition::specs::Deck::in_order))]
fn is_in_order(last: usize, kind: usize) -> bool
    ensures { result ≡ in_order last kind }
{
    9 < kind || last < kind || (last == kind && matches!(kind, 0x04 | 0x06 | 0x08))
}

// Whether refusal 3 has no reason.
#[tactic(auto, unfolding(definition::specs::Deck::sound))]
fn is_sound(deck: &[u8], last: usize, c: Cursor) -> bool
    requires { c.at ≤ length deck.now }
    ensures { result ≡ sound deck.now last c }
{
    let kind = deck::kind(deck, c);
    let size = deck::size_of(kind);
    size > 0 && c.at + size <= deck.len() && is_meant(kind, deck, c) && is_in_order(last, kind)
}

// What is read. Of the pool it is known whether it is well formed as a whole, and where runs of whole characters end, as far as the table
// goes.
#[derive(Clone, Copy)]
struct Reader<'a> {
    deck: &'a [u8],
    pool: &'a [u8],
    whole: bool,
    ends: &'a [u32],
    ghost known: { Known pool.now whole ends.now },
}

impl Reader<'_> {
    // Whether a part of the pool is well formed: where the pool is so as a whole, its two ends tell; else a table of runs, where there is one.
    fn is_text(&self, from: usize, len: usize) -> bool
        requires { from + len ≤ length self.now.pool.now }
        ensures { result ≡ well_formed (take len (drop from self.now.pool.now)) }
    {
        if self.whole {
            utf8::cut_well_formed(self.pool, from, len)
        } else if self.pool.len() / 64 < self.ends.len() {
            utf8::run_well_formed(self.pool, self.ends, from, len)
        } else {
            utf8::part_well_formed(self.pool, from, len)
        }
    }

    // The fault of a reference.
    #[tactic(auto, unfolding(definition::specs::Deck::texts_fault, definition::specs::Deck::words, crate::specs::Judge::fault_told))]
    fn text(&self, t: Text) -> Result<(), Fault>
        ensures { fault_told result ≡ texts_fault self.now.pool.now (t ∷ []) }
    {
        if self.pool.len() < t.len || self.pool.len() - t.len < t.from {
            Err(Fault::Reference)
        } else if self.is_text(t.from, t.len) {
            Ok(())
        } else {
            Err(Fault::Text)
        }
    }

    // The first fault of a record's references.
    #[tactic(auto, unfolding(definition::specs::Deck::references, definition::specs::Deck::texts_fault, crate::specs::Judge::fault_told))]
    fn references(&self, r: Record) -> Result<(), Fault>
        ensures { fault_told result ≡ texts_fault self.now.pool.now (references r) }
    {
        match r {
            Record::Tag(t)
            | Record::Anchor(t)
            | Record::Foot(t)
            | Record::Raw(t)
            | Record::Directive(t)
            | Record::Alias(t) => self.text(t),
            Record::Source(s) => {
                self.text(s.tag)?;
                self.text(s.target)
            }
            Record::Head(h) => self.text(h.text),
            Record::Inline(t) => self.text(t.text),
            Record::Scalar(w) => self.text(w.text),
            Record::Layout(_) | Record::Null | Record::Sequence(_) | Record::Mapping(_) => Ok(()),
        }
    }

    // The record at a cursor by itself: the cursor after it.
    #[tactic(auto, unfolding(definition::specs::Deck::read_record, crate::specs::Judge::fault_told, crate::specs::Judge::step_told, crate::specs::Judge::step_of), using(crate::proofs::Laws::sound_next))]
    fn record(&self, last: usize, c: Cursor) -> Result<Cursor, Refusal>
        ensures { step_told result ≡ step_of (read_record self.now.deck.now self.now.pool.now last c) }
    {
        if self.deck.len() <= c.at {
            return Err(Refusal {
                fault: Fault::End,
                place: self.deck.len(),
            });
        }
        if !is_sound(self.deck, last, c) {
            return Err(Refusal {
                fault: Fault::Record,
                place: c.at,
            });
        }
        let entry = deck::read(self.deck, c);
        self.references(entry.item)
            .map_err(|fault| Refusal { fault, place: c.at })?;
        Ok(entry.next)
    }

    // A node's leading records: the cursor of its own record. Each record has a byte at least, so there are no more than the deck has bytes.
    #[tactic(auto, unfolding(crate::specs::Judge::step_told), using(crate::proofs::Laws::lead_steps))]
    fn lead(&self, c: Cursor) -> Result<Cursor, Refusal>
        ensures value { step_told result ≡ lead_of self.now.deck.now self.now.pool.now (length self.now.deck.now) 0 c }
        ensures fitting { Fitting self.now.deck.now (step_told result) }
    {
        let mut here = c;
        let mut last = 0;
        for _ in 0..self.deck.len() {
            let next = self.record(last, here)?;
            if deck::is_node(self.deck, here) {
                return Ok(here);
            }
            last = deck::kind(self.deck, here);
            here = next;
        }
        Err(Refusal {
            fault: Fault::End,
            place: self.deck.len(),
        })
    }

    // The node at a cursor, with so many levels left: the cursor after it.
    #[tactic(auto, unfolding(crate::specs::Judge::step_told), using(crate::proofs::Laws::node_steps))]
    fn node(&self, c: Cursor, levels: usize) -> Result<Cursor, Refusal>
        ensures { step_told result ≡ step_of (read_node self.now.deck.now self.now.pool.now levels c) }
    {
        let own = self.lead(c)?;
        if levels == 0 {
            return Err(Refusal {
                fault: Fault::Depth,
                place: own.at,
            });
        }
        let mut here = deck::next(self.deck, own);
        for _ in 0..deck::kids(self.deck, own) {
            here = self.node(here, levels - 1)?;
        }
        Ok(here)
    }

    // How many trees the deck holds: no more than it has bytes.
    #[tactic(auto, unfolding(crate::specs::Judge::step_told, crate::specs::Judge::told), using(crate::proofs::Laws::tree_steps))]
    fn trees(&self) -> Result<usize, Refusal>
        ensures { told result ≡ verdict_of (read_deck self.now.deck.now self.now.pool.now) }
    {
        let mut here = Cursor { at: 0 };
        for documents in 0..self.deck.len() {
            if self.deck.len() <= here.at {
                return Ok(documents);
            }
            here = self.node(here, 64)?;
        }
        Ok(self.deck.len())
    }
}

// The same of a pool that is not well formed as a whole: a table spares looking at a whole text once for each of its references. It has a function
// of its own, since a function pays for its locals when it is entered.
fn judge_torn(deck: &[u8], pool: &[u8]) -> Result<usize, Refusal>
    requires { (length pool.now ≤ 65536) × (well_formed pool.now ≡ false) }
    ensures { told result ≡ verdict_of (read_deck deck.now pool.now) }
{
    let mut ends = [0u32; 1025];
    utf8::mark_runs(pool, &mut ends);
    Reader {
        deck,
        pool,
        whole: false,
        ends: &ends,
    }
    .trees()
}

// How many trees the deck holds, or its refusal.
pub fn judge(deck: &[u8], pool: &[u8]) -> Result<usize, Refusal>
    ensures { told result ≡ verdict_of (read_deck deck.now pool.now) }
{
    let whole = utf8::well_formed(pool);
    if !whole && pool.len() <= 65536 {
        return judge_torn(deck, pool);
    }
    Reader {
        deck,
        pool,
        whole,
        ends: &[],
    }
    .trees()
}
