// Documents: a root's body, a document with its directives and comments, one document, and all documents of a deck.
#![tactic(auto)]

ghost use Rattle.std.specs.Prelude.{◌≡◌, ◌<◌, ◌^◌, true, not, ◌&&◌, [], length};
ghost use Rattle.definition.specs.Base.{when◌then◌else◌};
ghost use Rattle.definition.specs.Document.{one_document, all_documents};
ghost use Rattle.node.specs.Total.{trees_of};
ghost use Rattle.pen.specs.Pen.{pen, puts, ink, ended};
ghost use Rattle.pen.specs.Draws.{Draws};
ghost use Rattle.comments.specs.Runs.{Short};
ghost use Rattle.spot.specs.Spot.{count_in, end_in, spot_at};
ghost use Rattle.spot.specs.Good.{Good};
ghost use Rattle.choices.specs.Choices.{included_in};
ghost use Rattle.joints.specs.Entries.{node_at, next_at};
ghost use Rattle.flow.specs.Ready.{Emits};
ghost use Rattle.layout.specs.Calm.{Calm};
ghost use Rattle.document.specs.Pieces.{plain_in, opened, separation_in, front_in, placed_of, placed_from, block_root, line_root, root_of};

use comments::Entries;
use definition::Cursor;
use flow::Emitted;
use given::Given;
use joints::Manner;
use node::Lead;
use pen::Writer;
use spot::Spot;

// A text, where it is wanted.
#[tactic(auto, unfolding(pen::specs::Pen::puts))]
fn put_if(w: Writer, out: &mut [u8], wanted: bool, t: &[u8]) -> Writer
    requires { length out.old < 2 ^ 21 }
    ensures { pen result out.new ≡ puts (when wanted then t.now else []) (pen w out.old) }
{
    if wanted { w.text(out, t) } else { w }
}

// What separates a document from the one before it.
fn put_separation(w: Writer, out: &mut [u8], lead: &Lead) -> Writer
    requires { length out.old < 2 ^ 21 }
    ensures { Draws (separation_in lead.now) (pen w out.old) (pen result out.new) }
{
    if lead.directives.count != 0 {
        return w.text(out, b"...\n");
    }
    put_if(w, out, !deck::is_marked(lead.lines.marks, 32), b"---\n")
}

// Nothing stands before the root.
#[tactic(auto, unfolding(crate::specs::Pieces::plain_in))]
fn is_plain(lead: &Lead) -> bool
    ensures { result ≡ plain_in lead.now }
{
    lead.directives.count == 0 && lead.heads.count == 0 && !deck::is_marked(lead.lines.marks, 32)
}

// What stands before a document's root: one test first, so that where nothing does, no writer is copied.
fn put_opening(w: Writer, given: &Given, out: &mut [u8], lead: &Lead) -> Writer
    requires { (length out.old < 2 ^ 21) × Short lead.now }
    ensures { Draws (opened given.now.deck.now given.now.pool.now lead.now) (pen w out.old) (pen result out.new) }
{
    if is_plain(lead) {
        return w;
    }
    let w1 = comments::put_repeated(w, given, out, lead, Entries::Directives, 0);
    let w2 = put_if(w1, out, deck::is_marked(lead.lines.marks, 32), b"---\n");
    comments::put_repeated(w2, given, out, lead, Entries::Heads, 0)
}

// A root that is a block collection.
fn put_block(w: Writer, given: &Given, out: &mut [u8], x: &Spot) -> Emitted
    requires { (Calm given.now.settings given.now.deck.now given.now.pool.now (pen w out.old) x.now.place 0) × Good given.now.deck.now x.now × (count_in x.now.body < 65536) }
    ensures { Emits given.now.settings (block_root given.now.settings given.now.deck.now given.now.pool.now x.now) (pen w out.old) (pen result.w out.new) x.now.place (end_in given.now.deck.now given.now.pool.now x.now) result.next (length given.now.deck.now) }
{
    let i = choices::root_column(&given.settings, x);
    let w1 = parts::put_props_line(w, given, out, &x.lead);
    block::put_members(w1, given, out, x, i, true)
}

// A root on one line.
fn put_inlined(w: Writer, given: &Given, out: &mut [u8], x: &Spot) -> Emitted
    requires { (Calm given.now.settings given.now.deck.now given.now.pool.now (pen w out.old) x.now.place 0) × Good given.now.deck.now x.now × (count_in x.now.body < 65536) }
    ensures { Emits given.now.settings (line_root given.now.settings given.now.deck.now given.now.pool.now x.now) (pen w out.old) (pen result.w out.new) x.now.place (end_in given.now.deck.now given.now.pool.now x.now) result.next (length given.now.deck.now) }
{
    let i = choices::step_of(&given.settings);
    flow::line(w, given, out, x, i, Manner::Value, false)
}

// The root's include is written in its place.
fn is_directed(origin: Option<Cursor>, passed: bool) -> bool
    ensures { result ≡ (included_in origin && not passed) }
{
    origin.is_some() && !passed
}

// The root at a cursor, as it was read: its include's line, or its body.
fn put_root(w: Writer, given: &Given, out: &mut [u8], c: Cursor, x: &Spot, passed: bool) -> Emitted
    requires { (Calm given.now.settings given.now.deck.now given.now.pool.now (pen w out.old) c.at 0) × (x.now ≡ spot_at given.now.deck.now c) × (count_in x.now.body < 65536) }
    ensures { Emits given.now.settings (root_of given.now.settings given.now.deck.now given.now.pool.now passed x.now) (pen w out.old) (pen result.w out.new) c.at (next_at given.now.deck.now given.now.pool.now c) result.next (length given.now.deck.now) }
{
    if is_directed(x.lead.origin, passed) {
        let v = parts::put_include_line(w, given, out, x.place, &x.lead);
        let next = node::subtree_end(given.deck, c);
        return Emitted { w: v, next };
    }
    if choices::is_block(&x.body) {
        return put_block(w, given, out, x);
    }
    if choices::bare_root(&given.settings, x) {
        let v = parts::put_props_line(w, given, out, &x.lead);
        let next = x.next;
        return Emitted { w: v, next };
    }
    put_inlined(w, given, out, x)
}

// What stands before a document: before the first one a byte order mark, before another what separates it from the one before it.
fn put_front(w: Writer, out: &mut [u8], lead: &Lead, first: bool) -> Writer
    requires { length out.old < 2 ^ 21 }
    ensures { Draws (front_in first lead.now) (pen w out.old) (pen result out.new) }
{
    if first {
        return put_if(
            w,
            out,
            deck::is_marked(lead.lines.marks, 64),
            b"\xef\xbb\xbf",
        );
    }
    put_separation(w, out, lead)
}

// `emit_document`, of the tree at a cursor, with what stands before it. The node is read here and nowhere else, so that it is not copied.
fn put_document(
    w: Writer,
    given: &Given,
    out: &mut [u8],
    c: Cursor,
    passed: bool,
    first: bool,
) -> Emitted
    requires { Calm given.now.settings given.now.deck.now given.now.pool.now (pen w out.old) c.at 0 }
    ensures { Emits given.now.settings (placed_of given.now.settings first passed (node_at given.now.deck.now given.now.pool.now c)) (pen w out.old) (pen result.w out.new) c.at (next_at given.now.deck.now given.now.pool.now c) result.next (length given.now.deck.now) }
{
    let x = spot::spot_at(given.deck, c);
    let w1 = put_front(w, out, &x.lead, first);
    let w2 = put_opening(w1, given, out, &x.lead);
    let e = put_root(w2, given, out, c, &x, passed);
    block::with_foots(e, given, out, &x, 0)
}

// The documents of a file, n at most: the one at a cursor, and others up to the deck's end. One loop for all calls, so that a document is a part of it.
fn put_documents(
    w: Writer,
    given: &Given,
    out: &mut [u8],
    c: Cursor,
    passed: bool,
    n: usize,
) -> Writer
    requires { Calm given.now.settings given.now.deck.now given.now.pool.now (pen w out.old) c.at 0 }
    ensures { pen result out.new ≡ ink given.now.settings (placed_from given.now.settings given.now.deck.now given.now.pool.now passed true n c) (pen w out.old) }
{
    let mut v = w;
    let mut here = c;
    for k in 0..n {
        let e = put_document(v, given, out, here, passed, k == 0);
        v = e.w;
        here = e.next;
        if given.deck.len() <= here.at {
            return v;
        }
    }
    v
}

// `emit_roundtrip_with` and `emit_roundtrip_dump`, of the tree at a cursor, to the end of its file; `passed`: its include is passed over.
pub fn write_one(w: Writer, given: &Given, out: &mut [u8], c: Cursor, passed: bool) -> Writer
    requires { Calm given.now.settings given.now.deck.now given.now.pool.now (pen w out.old) c.at 0 }
    ensures { pen result out.new ≡ ended (ink given.now.settings (one_document given.now.settings passed (node_at given.now.deck.now given.now.pool.now c)) (pen w out.old)) }
{
    let v = put_documents(w, given, out, c, passed, 1);
    let v1 = put_if(v, out, given.settings.explicit_end, b"...\n");
    v1.finish(out)
}

// `emit_roundtrip_all_with`, to the end of the file.
pub fn write_all(w: Writer, given: &Given, out: &mut [u8]) -> Writer
    requires { Calm given.now.settings given.now.deck.now given.now.pool.now (pen w out.old) 0 0 }
    ensures { pen result out.new ≡ ended (ink given.now.settings (all_documents given.now.settings (trees_of given.now.deck.now given.now.pool.now)) (pen w out.old)) }
{
    let c = Cursor { at: 0 };
    let n = given.deck.len();
    let v = put_documents(w, given, out, c, false, n);
    v.finish(out)
}
