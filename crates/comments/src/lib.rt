// Records that repeat, written one after another, each a script of the definition: head comments, foot comments, directives.
#![tactic(auto)]

ghost use Rattle.std.specs.Prelude.{◌≡◌, ◌+◌, ◌<◌, ◌≤◌, ◌^◌, length};
ghost use Rattle.definition.specs.Deck.{is_below};
ghost use Rattle.definition.specs.Records.{heading_at};
ghost use Rattle.definition.specs.Walk.{comment_line, heads, above_dash, below_dash};
ghost use Rattle.node.specs.Total.{kept_of, text_of};
ghost use Rattle.pen.specs.Pen.{pen};
ghost use Rattle.pen.specs.Draws.{Draws};
ghost use Rattle.comments.specs.Runs.{stride, percent, entry, entries, run_of, repeated, Short};

use definition::{Cursor, Side};
use given::Given;
use node::{Lead, Run};
use pen::Writer;

// Records that repeat: head comments, those of them over or under their node's introducer alone, foot comments, directives.
#[derive(Clone, Copy)]
pub enum Entries {
    Heads,
    Over,
    Under,
    Foots,
    Directives,
}

// `emit_comment_line`
fn comment_line(w: Writer, out: &mut [u8], indent: usize, t: &[u8]) -> Writer
    requires { length out.old < 2 ^ 21 }
    ensures { Draws (comment_line indent t.now) (pen w out.old) (pen result out.new) }
{
    let w1 = w.spaces(out, indent);
    let w2 = w1.hashed(out, t);
    w2.byte(out, b'\n')
}

fn percent_line(w: Writer, out: &mut [u8], t: &[u8]) -> Writer
    requires { length out.old < 2 ^ 21 }
    ensures { Draws (percent t.now) (pen w out.old) (pen result out.new) }
{
    let w1 = w.byte(out, b'%');
    let w2 = w1.text(out, t);
    w2.byte(out, b'\n')
}

// The text of the record at a cursor.
fn text_of<'a>(given: &Given<'a>, c: Cursor) -> &'a [u8]
    requires { c.at < 2 ^ 63 }
    ensures { result.now ≡ text_of given.now.deck.now given.now.pool.now c }
{
    let body = Cursor { at: c.at + 1 };
    deck::words_of(given.pool, deck::text_only(given.deck, body))
}

// The head comment at a cursor stands below its node's introducer.
#[tactic(auto, unfolding(definition::specs::Deck::is_below))]
fn is_below(deck: &[u8], c: Cursor) -> bool
    requires { c.at < 2 ^ 63 }
    ensures { result ≡ is_below (heading_at deck.now (c.at + 1)).side }
{
    let body = Cursor { at: c.at + 1 };
    match deck::heading_at(deck, body).side {
        Side::Above => false,
        Side::Below => true,
    }
}

// The comment line of the record at a cursor.
fn comment_at(w: Writer, given: &Given, out: &mut [u8], indent: usize, c: Cursor) -> Writer
    requires { (length out.old < 2 ^ 21) × (c.at < 2 ^ 63) }
    ensures { Draws (comment_line indent (text_of given.now.deck.now given.now.pool.now c)) (pen w out.old) (pen result out.new) }
{
    let t = text_of(given, c);
    comment_line(w, out, indent, t)
}

fn above_at(w: Writer, given: &Given, out: &mut [u8], indent: usize, c: Cursor) -> Writer
    requires { (length out.old < 2 ^ 21) × (c.at < 2 ^ 63) }
    ensures { Draws (entry given.now.deck.now given.now.pool.now Entries.Over indent c) (pen w out.old) (pen result out.new) }
{
    if is_below(given.deck, c) {
        return w;
    }
    comment_at(w, given, out, indent, c)
}

fn below_at(w: Writer, given: &Given, out: &mut [u8], indent: usize, c: Cursor) -> Writer
    requires { (length out.old < 2 ^ 21) × (c.at < 2 ^ 63) }
    ensures { Draws (entry given.now.deck.now given.now.pool.now Entries.Under indent c) (pen w out.old) (pen result out.new) }
{
    if is_below(given.deck, c) {
        return comment_at(w, given, out, indent, c);
    }
    w
}

fn directive_at(w: Writer, given: &Given, out: &mut [u8], c: Cursor) -> Writer
    requires { (length out.old < 2 ^ 21) × (c.at < 2 ^ 63) }
    ensures { Draws (percent (text_of given.now.deck.now given.now.pool.now c)) (pen w out.old) (pen result out.new) }
{
    let t = text_of(given, c);
    percent_line(w, out, t)
}

// What is written of the record at a cursor.
#[tactic(auto, unfolding(crate::specs::Runs::entry))]
fn put_entry(
    w: Writer,
    given: &Given,
    out: &mut [u8],
    e: Entries,
    indent: usize,
    c: Cursor,
) -> Writer
    requires { (length out.old < 2 ^ 21) × (c.at < 2 ^ 63) }
    ensures { Draws (entry given.now.deck.now given.now.pool.now e indent c) (pen w out.old) (pen result out.new) }
{
    match e {
        Entries::Heads | Entries::Foots => comment_at(w, given, out, indent, c),
        Entries::Over => above_at(w, given, out, indent, c),
        Entries::Under => below_at(w, given, out, indent, c),
        Entries::Directives => directive_at(w, given, out, c),
    }
}

#[tactic(auto, unfolding(crate::specs::Runs::stride))]
fn stride_of(e: Entries) -> usize
    ensures { (result ≡ stride e) × (result ≤ 6) }
{
    match e {
        Entries::Heads | Entries::Over | Entries::Under => 6,
        Entries::Foots | Entries::Directives => 5,
    }
}

// Records of one kind, one after another.
fn put_run(w: Writer, given: &Given, out: &mut [u8], e: Entries, indent: usize, run: Run) -> Writer
    requires { (length out.old < 2 ^ 21) × (run.first.at < 2 ^ 61) × (run.count < 2 ^ 58) }
    ensures { Draws (entries given.now.deck.now given.now.pool.now e indent run.count run.first) (pen w out.old) (pen result out.new) }
{
    let step = stride_of(e);
    let mut u = w;
    let mut here = run.first;
    for _ in 0..run.count {
        u = put_entry(u, given, out, e, indent, here);
        here = Cursor { at: here.at + step };
    }
    u
}

// Where the records of a kind stand.
#[tactic(auto, unfolding(crate::specs::Runs::run_of))]
fn run_of(lead: &Lead, e: Entries) -> Run
    ensures { result ≡ run_of e lead.now }
{
    match e {
        Entries::Heads | Entries::Over | Entries::Under => lead.heads,
        Entries::Foots => lead.foots,
        Entries::Directives => lead.directives,
    }
}

// `emit_head`, `emit_foot`, the directives: the records of a kind of one node. Most nodes have none: that is tested before the writer is
// handed on.
pub fn put_repeated(
    w: Writer,
    given: &Given,
    out: &mut [u8],
    lead: &Lead,
    e: Entries,
    indent: usize,
) -> Writer
    requires { (length out.old < 2 ^ 21) × Short lead.now }
    ensures { Draws (repeated e (kept_of given.now.deck.now given.now.pool.now lead.now) indent) (pen w out.old) (pen result out.new) }
{
    let run = run_of(lead, e);
    if run.count == 0 {
        return w;
    }
    put_run(w, given, out, e, indent, run)
}

// `emit_head_above_dash`
pub fn put_above_dash(
    w: Writer,
    given: &Given,
    out: &mut [u8],
    lead: &Lead,
    indent: usize,
) -> Writer
    requires { (length out.old < 2 ^ 21) × Short lead.now }
    ensures { Draws (above_dash (kept_of given.now.deck.now given.now.pool.now lead.now) indent) (pen w out.old) (pen result out.new) }
{
    if deck::is_marked(lead.lines.marks, 2) {
        return put_repeated(w, given, out, lead, Entries::Over, indent);
    }
    put_repeated(w, given, out, lead, Entries::Heads, indent)
}

// `emit_head_below_dash`
pub fn put_below_dash(
    w: Writer,
    given: &Given,
    out: &mut [u8],
    lead: &Lead,
    indent: usize,
) -> Writer
    requires { (length out.old < 2 ^ 21) × Short lead.now }
    ensures { Draws (below_dash (kept_of given.now.deck.now given.now.pool.now lead.now) indent) (pen w out.old) (pen result out.new) }
{
    if deck::is_marked(lead.lines.marks, 2) {
        return put_repeated(w, given, out, lead, Entries::Under, indent);
    }
    w
}
