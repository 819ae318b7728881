// A node on one line: its content, keys, flow collections. The first cycle of calls; nothing here knows of block layout.
#![tactic(auto)]

ghost use Rattle.std.specs.Prelude.{◌≡◌, ◌+◌, ◌*◌, ◌<◌, ◌≤◌, ◌^◌, true, length};
ghost use Rattle.definition.specs.Settings.{step_of};
ghost use Rattle.definition.specs.Walk.{content_of};
ghost use Rattle.pen.specs.Pen.{fields, pen, with_flow};
ghost use Rattle.spot.specs.Spot.{count_in, kept_in, brought_in, kind_in, node_in, end_in};
ghost use Rattle.spot.specs.Good.{Good};
ghost use Rattle.atoms.specs.Atoms.{on};
ghost use Rattle.joints.specs.Line.{line_of};
ghost use Rattle.joints.specs.Entries.{node_at, next_at, last_of, entry_end, run_end, entry_key, entry_of, flow_run, lined_of, lined_run, lined_in, plain_in, group_of};
ghost use Rattle.flow.specs.Ready.{Ready, Emits};
ghost use Rattle.flow.specs.Hushed.{trees_in, Hushed, HushedIn, Quiet, Lined};

use definition::Cursor;
use given::Given;
use joints::Manner;
use pen::Writer;
use spot::{Body, Spot};

// The writer after something was written, and the cursor after it in the deck.
#[derive(Clone, Copy)]
pub struct Emitted {
    pub next: Cursor,
    pub w: Writer,
}

// How many trees n entries are.
#[tactic(auto, using(crate::proofs::Hushes::trees_items, crate::proofs::Hushes::trees_pairs))]
fn trees_in(pairs: bool, n: usize) -> usize
    requires { n < 2 ^ 62 }
    ensures { (result ≡ trees_in pairs n) × (result ≤ 2 * n) }
{
    if pairs { 2 * n } else { n }
}

// No entry has comments, at any depth: told already, or found so.
#[tactic(auto, using(crate::proofs::Hushes::quiet_told, crate::proofs::Hushes::quiet_found))]
fn is_quiet(deck: &[u8], still: bool, pairs: bool, c: Cursor, n: usize) -> bool
    requires { (c.at ≤ length deck.now) × (length deck.now ≤ 65536) × (n < 65536) }
    ensures { Quiet deck.now still (trees_in pairs n) c result }
{
    still || node::is_still(deck, c, trees_in(pairs, n))
}

// Some entries have comments, unless all are known to be quiet.
#[tactic(auto, using(crate::proofs::Hushes::lined_quiet, crate::proofs::Hushes::lined_found))]
fn is_lined(deck: &[u8], quiet: bool, pairs: bool, c: Cursor, n: usize) -> bool
    requires { (c.at ≤ length deck.now) × (n < 2 ^ 62) }
    ensures { Lined deck.now quiet pairs n c result }
{
    !quiet && choices::some_comments(deck, c, trees_in(pairs, n))
}

// `emit_inline_content` of a node.
#[cycle(content)]
fn content(w: Writer, given: &Given, out: &mut [u8], x: &Spot, i: usize, still: bool) -> Emitted
    requires { (Ready given.now.settings given.now.deck.now given.now.pool.now (pen w out.old) x.now.place i) × Good given.now.deck.now x.now × (count_in x.now.body < 65536) × HushedIn given.now.deck.now given.now.pool.now still x.now }
    ensures { Emits given.now.settings (content_of given.now.settings (on (fields w).flow) (on (fields w).key) i x.now.place (kept_in given.now.deck.now given.now.pool.now x.now) (brought_in given.now.deck.now given.now.pool.now x.now) (kind_in given.now.deck.now given.now.pool.now x.now)) (pen w out.old) (pen result.w out.new) x.now.place (end_in given.now.deck.now given.now.pool.now x.now) result.next (length given.now.deck.now) }
{
    let next = x.next;
    match &x.body {
        Body::Null => {
            let v = atoms::put_null(w, out, &given.settings, &x.lead.lines);
            Emitted { w: v, next }
        }
        Body::Scalar(told) => {
            let v = atoms::put_words(w, given, out, i, x, told);
            Emitted { w: v, next }
        }
        Body::Alias(t) => {
            let v = atoms::put_alias(w, given.pool, out, *t);
            Emitted { w: v, next }
        }
        Body::Sequence(g) => nested(w, given, out, false, g.count, next, i, still),
        Body::Mapping(g) => nested(w, given, out, true, g.count, next, i, still),
    }
}

// A flow collection, one level deeper: entered and left here, so that only here the writer is handed on, and a scalar's need not be kept in memory.
#[cycle(content)]
fn nested(
    w: Writer,
    given: &Given,
    out: &mut [u8],
    pairs: bool,
    n: usize,
    c: Cursor,
    i: usize,
    still: bool,
) -> Emitted
    requires { (Ready given.now.settings given.now.deck.now given.now.pool.now (with_flow ((fields w).flow + 1) (pen w out.old)) c.at (i + step_of given.now.settings)) × (n < 65536) × Hushed given.now.deck.now given.now.pool.now still (trees_in pairs n) c }
    ensures { Emits given.now.settings (group_of given.now.deck.now given.now.pool.now given.now.settings true (on (fields w).key) i pairs n c) (pen w out.old) (pen result.w out.new) c.at (run_end given.now.deck.now given.now.pool.now pairs n c) result.next (length given.now.deck.now) }
{
    let flow = w.flow();
    let v = w.with_flow(flow + 1);
    let e = group(v, given, out, pairs, n, c, i, still);
    let next = e.next;
    let u = e.w.with_flow(flow);
    Emitted { w: u, next }
}

// A flow collection of n entries: items, or pairs.
#[cycle(content)]
fn group(
    w: Writer,
    given: &Given,
    out: &mut [u8],
    pairs: bool,
    n: usize,
    c: Cursor,
    i: usize,
    still: bool,
) -> Emitted
    requires { (Ready given.now.settings given.now.deck.now given.now.pool.now (pen w out.old) c.at (i + step_of given.now.settings)) × (n < 65536) × Hushed given.now.deck.now given.now.pool.now still (trees_in pairs n) c }
    ensures { Emits given.now.settings (group_of given.now.deck.now given.now.pool.now given.now.settings (on (fields w).flow) (on (fields w).key) i pairs n c) (pen w out.old) (pen result.w out.new) c.at (run_end given.now.deck.now given.now.pool.now pairs n c) result.next (length given.now.deck.now) }
{
    let j = i + choices::step_of(&given.settings);
    let quiet = is_quiet(given.deck, still, pairs, c, n);
    if is_lined(given.deck, quiet, pairs, c, n) {
        return lined_group(w, given, out, pairs, n, c, i, j);
    }
    plain_group(w, given, out, pairs, n, c, i, quiet)
}

// `emit_commented_flow_sequence` and `emit_commented_flow_mapping`: each entry on a line of its own, at column j.
#[cycle(content)]
fn lined_group(
    w: Writer,
    given: &Given,
    out: &mut [u8],
    pairs: bool,
    n: usize,
    c: Cursor,
    i: usize,
    j: usize,
) -> Emitted
    requires { (Ready given.now.settings given.now.deck.now given.now.pool.now (pen w out.old) c.at j) × (i ≤ j) }
    ensures { Emits given.now.settings (lined_in given.now.deck.now given.now.pool.now given.now.settings (on (fields w).flow) (on (fields w).key) i j pairs n c) (pen w out.old) (pen result.w out.new) c.at (run_end given.now.deck.now given.now.pool.now pairs n c) result.next (length given.now.deck.now) }
{
    let w1 = w.byte(out, joints::opening_of(pairs));
    let w2 = w1.byte(out, b'\n');
    let e = lined_entries(w2, given, out, pairs, n, c, j);
    let next = e.next;
    let v1 = e.w.spaces(out, i);
    let v2 = v1.byte(out, joints::closing_of(pairs));
    Emitted { w: v2, next }
}

// `emit_flow_sequence` and `emit_flow_mapping`.
#[cycle(content)]
fn plain_group(
    w: Writer,
    given: &Given,
    out: &mut [u8],
    pairs: bool,
    n: usize,
    c: Cursor,
    i: usize,
    still: bool,
) -> Emitted
    requires { (Ready given.now.settings given.now.deck.now given.now.pool.now (pen w out.old) c.at i) × Hushed given.now.deck.now given.now.pool.now still (trees_in pairs n) c }
    ensures { Emits given.now.settings (plain_in given.now.deck.now given.now.pool.now given.now.settings (on (fields w).flow) (on (fields w).key) i pairs n c) (pen w out.old) (pen result.w out.new) c.at (run_end given.now.deck.now given.now.pool.now pairs n c) result.next (length given.now.deck.now) }
{
    let w1 = w.byte(out, joints::opening_of(pairs));
    let e = flow_entries(w1, given, out, pairs, n, c, i, still);
    let next = e.next;
    let v1 = e.w.byte(out, joints::closing_of(pairs));
    Emitted { w: v1, next }
}

// The n entries from a cursor on, each on a line of its own at column i.
#[cycle(content)]
fn lined_entries(
    w: Writer,
    given: &Given,
    out: &mut [u8],
    pairs: bool,
    n: usize,
    c: Cursor,
    i: usize,
) -> Emitted
    requires { Ready given.now.settings given.now.deck.now given.now.pool.now (pen w out.old) c.at i }
    ensures { Emits given.now.settings (lined_run given.now.deck.now given.now.pool.now given.now.settings (on (fields w).flow) (on (fields w).key) i pairs n c) (pen w out.old) (pen result.w out.new) c.at (run_end given.now.deck.now given.now.pool.now pairs n c) result.next (length given.now.deck.now) }
{
    let mut v = w;
    let mut here = c;
    for k in 0..n {
        let e = lined_entry(v, given, out, pairs, here, i, k + 1 == n);
        v = e.w;
        here = e.next;
    }
    Emitted { w: v, next: here }
}

// The n entries from a cursor on, on one line.
#[cycle(content)]
fn flow_entries(
    w: Writer,
    given: &Given,
    out: &mut [u8],
    pairs: bool,
    n: usize,
    c: Cursor,
    i: usize,
    still: bool,
) -> Emitted
    requires { (Ready given.now.settings given.now.deck.now given.now.pool.now (pen w out.old) c.at i) × Hushed given.now.deck.now given.now.pool.now still (trees_in pairs n) c }
    ensures { Emits given.now.settings (flow_run given.now.deck.now given.now.pool.now given.now.settings (on (fields w).flow) (on (fields w).key) i pairs true n c) (pen w out.old) (pen result.w out.new) c.at (run_end given.now.deck.now given.now.pool.now pairs n c) result.next (length given.now.deck.now) }
{
    let mut v = w;
    let mut here = c;
    for k in 0..n {
        let u = joints::put_between(v, out, &given.settings, k == 0, i);
        let e = flow_entry(u, given, out, pairs, here, i, still);
        v = e.w;
        here = e.next;
    }
    Emitted { w: v, next: here }
}

// An entry on a line of its own, the last one or not.
#[cycle(content)]
fn lined_entry(
    w: Writer,
    given: &Given,
    out: &mut [u8],
    pairs: bool,
    c: Cursor,
    i: usize,
    last: bool,
) -> Emitted
    requires { Ready given.now.settings given.now.deck.now given.now.pool.now (pen w out.old) c.at i }
    ensures { Emits given.now.settings (lined_of given.now.deck.now given.now.pool.now given.now.settings (on (fields w).flow) (on (fields w).key) i pairs last c) (pen w out.old) (pen result.w out.new) c.at (entry_end given.now.deck.now given.now.pool.now pairs c) result.next (length given.now.deck.now) }
{
    let end = joints::last_of(given.deck, pairs, c);
    let x = spot::spot_at(given.deck, end);
    let w1 = joints::put_lined_before(w, given, out, pairs, c, &x.lead, i);
    let k = entry_key(w1, given, out, pairs, c, i, false);
    let e = line(k.w, given, out, &x, i, Manner::Entry, false);
    let next = e.next;
    let v1 = joints::put_lined_after(e.w, given, out, last, x.place, x.lead.remark);
    Emitted { w: v1, next }
}

// What stands before the item or the value of an entry: the key of a pair, and a space.
#[cycle(content)]
fn entry_key(
    w: Writer,
    given: &Given,
    out: &mut [u8],
    pairs: bool,
    c: Cursor,
    i: usize,
    still: bool,
) -> Emitted
    requires { (Ready given.now.settings given.now.deck.now given.now.pool.now (pen w out.old) c.at i) × Hushed given.now.deck.now given.now.pool.now still (trees_in pairs 1) c }
    ensures { Emits given.now.settings (entry_key given.now.deck.now given.now.pool.now given.now.settings (on (fields w).flow) (on (fields w).key) i pairs c) (pen w out.old) (pen result.w out.new) c.at (last_of given.now.deck.now given.now.pool.now pairs c) result.next (length given.now.deck.now) }
{
    if pairs {
        let e = entry_node(w, given, out, c, i, Manner::Key, still);
        let next = e.next;
        let v1 = e.w.byte(out, b' ');
        return Emitted { w: v1, next };
    }
    Emitted { w, next: c }
}

// An entry: an item, or a key and its value.
#[cycle(content)]
fn flow_entry(
    w: Writer,
    given: &Given,
    out: &mut [u8],
    pairs: bool,
    c: Cursor,
    i: usize,
    still: bool,
) -> Emitted
    requires { (Ready given.now.settings given.now.deck.now given.now.pool.now (pen w out.old) c.at i) × Hushed given.now.deck.now given.now.pool.now still (trees_in pairs 1) c }
    ensures { Emits given.now.settings (entry_of given.now.deck.now given.now.pool.now given.now.settings (on (fields w).flow) (on (fields w).key) i pairs c) (pen w out.old) (pen result.w out.new) c.at (entry_end given.now.deck.now given.now.pool.now pairs c) result.next (length given.now.deck.now) }
{
    let k = entry_key(w, given, out, pairs, c, i, still);
    entry_node(k.w, given, out, k.next, i, Manner::Entry, still)
}

// A node on its line: its properties, its content, what ends it. The one caller of `content`, so that the compiler needs no copy of the node for it.
#[cycle(content)]
pub fn line(
    w: Writer,
    given: &Given,
    out: &mut [u8],
    x: &Spot,
    i: usize,
    manner: Manner,
    still: bool,
) -> Emitted
    requires { (Ready given.now.settings given.now.deck.now given.now.pool.now (pen w out.old) x.now.place i) × Good given.now.deck.now x.now × (count_in x.now.body < 65536) × HushedIn given.now.deck.now given.now.pool.now still x.now }
    ensures { Emits given.now.settings (line_of given.now.settings (on (fields w).flow) (on (fields w).key) manner i (node_in given.now.deck.now given.now.pool.now x.now)) (pen w out.old) (pen result.w out.new) x.now.place (end_in given.now.deck.now given.now.pool.now x.now) result.next (length given.now.deck.now) }
{
    let key = w.is_key();
    let w1 = joints::put_dress(w, given, out, x, manner);
    let w2 = w1.with_key(joints::key_in(manner, true, key));
    let e = content(w2, given, out, x, i, still);
    let next = e.next;
    let v = e.w.with_key(key);
    let v1 = joints::put_ending(v, given, out, x, manner);
    Emitted { w: v1, next }
}

// The node at a cursor, on its line.
#[cycle(content)]
fn entry_node(
    w: Writer,
    given: &Given,
    out: &mut [u8],
    c: Cursor,
    i: usize,
    manner: Manner,
    still: bool,
) -> Emitted
    requires { (Ready given.now.settings given.now.deck.now given.now.pool.now (pen w out.old) c.at i) × Hushed given.now.deck.now given.now.pool.now still 1 c }
    ensures { Emits given.now.settings (line_of given.now.settings (on (fields w).flow) (on (fields w).key) manner i (node_at given.now.deck.now given.now.pool.now c)) (pen w out.old) (pen result.w out.new) c.at (next_at given.now.deck.now given.now.pool.now c) result.next (length given.now.deck.now) }
{
    let x = spot::spot_at(given.deck, c);
    line(w, given, out, &x, i, manner, still)
}
