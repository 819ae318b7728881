// What stands on a line of block layout, but for the members of a block collection.
#![tactic(auto)]

ghost use Rattle.std.specs.Prelude.{◌≡◌, ◌<◌, ◌≤◌, ◌^◌, max, false, length};
ghost use Rattle.definition.specs.Base.{when◌then◌else◌};
ghost use Rattle.definition.specs.Pen.{nothing, indent};
ghost use Rattle.definition.specs.Walk.{below_introducer, content};
ghost use Rattle.node.specs.Total.{kept_of, brought_of};
ghost use Rattle.pen.specs.Pen.{fields, pen};
ghost use Rattle.pen.specs.Draws.{Draws};
ghost use Rattle.comments.specs.Runs.{Short};
ghost use Rattle.parts.specs.Lines.{before};
ghost use Rattle.spot.specs.Spot.{count_in, kept_in, brought_in, node_in, end_in};
ghost use Rattle.spot.specs.Good.{Good};
ghost use Rattle.joints.specs.Entries.{next_at};
ghost use Rattle.flow.specs.Ready.{Ready, Emits};
ghost use Rattle.layout.specs.Value.{value_in};
ghost use Rattle.layout.specs.Stretch.{include_after, key_line, bare_line};

use definition::Cursor;
use flow::Emitted;
use given::Given;
use joints::Manner;
use node::Lead;
use pen::Writer;
use spot::Spot;

// An include's directive after `:` or `-`; the node's records are passed over.
pub fn put_include(w: Writer, given: &Given, out: &mut [u8], x: &Spot, c: Cursor) -> Emitted
    requires { (length out.old ≤ 1048576) × (c.at ≤ length given.now.deck.now) × (x.now.place < 2 ^ 18) }
    ensures { Emits given.now.settings (include_after x.now.place (kept_in given.now.deck.now given.now.pool.now x.now)) (pen w out.old) (pen result.w out.new) c.at (next_at given.now.deck.now given.now.pool.now c) result.next (length given.now.deck.now) }
{
    let w1 = w.byte(out, b' ');
    let w2 = parts::put_include_line(w1, given, out, x.place, &x.lead);
    let next = node::subtree_end(given.deck, c);
    Emitted { w: w2, next }
}

// `emit_value_below_introducer`
pub fn put_below(w: Writer, given: &Given, out: &mut [u8], x: &Spot, i: usize) -> Emitted
    requires { (Ready given.now.settings given.now.deck.now given.now.pool.now (pen w out.old) x.now.place i) × Good given.now.deck.now x.now × (count_in x.now.body < 65536) × ((fields w).flow ≡ 0) × ((fields w).key ≡ 0) }
    ensures { Emits given.now.settings (below_introducer x.now.place (kept_in given.now.deck.now given.now.pool.now x.now) (brought_in given.now.deck.now given.now.pool.now x.now) i (content given.now.settings false false i (node_in given.now.deck.now given.now.pool.now x.now))) (pen w out.old) (pen result.w out.new) x.now.place (end_in given.now.deck.now given.now.pool.now x.now) result.next (length given.now.deck.now) }
{
    let w1 = parts::put_below(w, given, out, x.place, &x.lead, i);
    flow::line(w1, given, out, x, i, Manner::Below, false)
}

// The space between an introducer and its value. One space is a byte: most values have no other pad.
pub fn put_pad(w: Writer, out: &mut [u8], pad: usize) -> Writer
    requires { length out.old < 2 ^ 21 }
    ensures { Draws (indent (max pad 1)) (pen w out.old) (pen result out.new) }
{
    if pad < 2 {
        return w.byte(out, b' ');
    }
    w.spaces(out, pad)
}

// A node's properties, to the end of the line.
pub fn put_dressed(w: Writer, given: &Given, out: &mut [u8], lead: &Lead) -> Writer
    requires { length out.old < 2 ^ 21 }
    ensures { Draws (bare_line (brought_of given.now.deck.now given.now.pool.now lead.now)) (pen w out.old) (pen result out.new) }
{
    let w1 = parts::put_props_compact(w, given, out, lead);
    w1.byte(out, b'\n')
}

// A node of which nothing is written after its introducer but its properties; the cursor after it is handed back. Most have none: that is
// tested here, so that a line's end is not a call.
pub fn put_bare(w: Writer, given: &Given, out: &mut [u8], lead: &Lead, next: Cursor) -> Emitted
    requires { length out.old < 2 ^ 21 }
    ensures { (Draws (bare_line (brought_of given.now.deck.now given.now.pool.now lead.now)) (pen w out.old) (pen result.w out.new)) × (result.next ≡ next) }
{
    if parts::is_either(lead.tag, lead.anchor) {
        let w1 = put_dressed(w, given, out, lead);
        return Emitted { w: w1, next };
    }
    let w1 = w.byte(out, b'\n');
    Emitted { w: w1, next }
}

// A value that is no block collection, after its introducer and below at column i: but for its properties not written at all, below, or beside.
pub fn put_leaf(w: Writer, given: &Given, out: &mut [u8], x: &Spot, i: usize) -> Emitted
    requires { (Ready given.now.settings given.now.deck.now given.now.pool.now (pen w out.old) x.now.place i) × Good given.now.deck.now x.now × (count_in x.now.body < 65536) × ((fields w).flow ≡ 0) × ((fields w).key ≡ 0) }
    ensures { Emits given.now.settings (value_in given.now.settings given.now.deck.now given.now.pool.now x.now i) (pen w out.old) (pen result.w out.new) x.now.place (end_in given.now.deck.now given.now.pool.now x.now) result.next (length given.now.deck.now) }
{
    if choices::bare(given, x) {
        return put_bare(w, given, out, &x.lead, x.next);
    }
    if deck::is_marked(x.lead.lines.marks, 2) {
        return put_below(w, given, out, x, i);
    }
    let w1 = put_pad(w, out, x.lead.lines.pad);
    flow::line(w1, given, out, x, i, Manner::Value, false)
}

// A key after `?` that stands on its line.
pub fn put_key_line(w: Writer, given: &Given, out: &mut [u8], x: &Spot, i: usize) -> Emitted
    requires { (Ready given.now.settings given.now.deck.now given.now.pool.now (pen w out.old) x.now.place i) × Good given.now.deck.now x.now × (count_in x.now.body < 65536) × ((fields w).flow ≡ 0) × ((fields w).key ≡ 0) }
    ensures { Emits given.now.settings (key_line given.now.settings i (brought_in given.now.deck.now given.now.pool.now x.now) (node_in given.now.deck.now given.now.pool.now x.now)) (pen w out.old) (pen result.w out.new) x.now.place (end_in given.now.deck.now given.now.pool.now x.now) result.next (length given.now.deck.now) }
{
    let w1 = w.byte(out, b' ');
    flow::line(w1, given, out, x, i, Manner::Asked, false)
}

// What stands before an item or a pair, unless its line is begun already.
pub fn put_before(
    w: Writer,
    given: &Given,
    out: &mut [u8],
    pairs: bool,
    lead: &Lead,
    i: usize,
    begin: bool,
) -> Writer
    requires { (length out.old < 2 ^ 21) × Short lead.now }
    ensures { Draws (when begin then before pairs (kept_of given.now.deck.now given.now.pool.now lead.now) i else nothing) (pen w out.old) (pen result out.new) }
{
    if begin {
        return parts::put_before(w, given, out, pairs, lead, i);
    }
    w
}
