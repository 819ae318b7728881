// Nodes on lines of their own: block values, items, mappings, sequences. The second cycle of calls, above the one of content on one line.
#![tactic(auto)]

ghost use Rattle.std.specs.Prelude.{◌≡◌, ◌<◌, ◌^◌, true, length};
ghost use Rattle.definition.specs.Walk.{value, dash, key_below, members};
ghost use Rattle.pen.specs.Pen.{pen};
ghost use Rattle.pen.specs.Draws.{Draws};
ghost use Rattle.comments.specs.Runs.{Short};
ghost use Rattle.spot.specs.Spot.{count_in, kind_in, node_in, end_in, spot_at};
ghost use Rattle.spot.specs.Good.{Good};
ghost use Rattle.choices.specs.Choices.{block_in};
ghost use Rattle.joints.specs.Entries.{node_at, next_at, entry_end, run_end};
ghost use Rattle.flow.specs.Ready.{Emits};
ghost use Rattle.layout.specs.Calm.{Calm};
ghost use Rattle.block.specs.Rows.{opening_of, under_of, dash_in, Footed, Coloned, key_part, row_of, rows};

use comments::Entries;
use definition::Cursor;
use flow::Emitted;
use given::Given;
use joints::Manner;
use pen::Writer;
use spot::Spot;

// What stands between the introducer and the members of a block collection below it.
fn put_opening(w: Writer, given: &Given, out: &mut [u8], x: &Spot, j: usize, dashed: bool) -> Writer
    requires { (length out.old < 2 ^ 21) × (x.now.place < 2 ^ 18) × Short x.now.lead }
    ensures { Draws (opening_of given.now.deck.now given.now.pool.now dashed x.now j) (pen w out.old) (pen result out.new) }
{
    if dashed {
        return parts::put_dash_block(w, given, out, x.place, &x.lead, j);
    }
    parts::put_colon_block(w, given, out, x.place, &x.lead, j)
}

// The foot comments of a node after what was emitted of it.
pub fn with_foots(e: Emitted, given: &Given, out: &mut [u8], x: &Spot, k: usize) -> Emitted
    requires { (length out.old < 2 ^ 21) × Short x.now.lead }
    ensures { Footed given.now.deck.now given.now.pool.now x.now k (pen e.w out.old) (pen result.w out.new) e.next result.next }
{
    let next = e.next;
    let w = comments::put_repeated(e.w, given, out, &x.lead, Entries::Foots, k);
    Emitted { w, next }
}

// The colon of an explicit key, at column i.
fn with_colon(e: Emitted, out: &mut [u8], i: usize) -> Emitted
    requires { length out.old < 2 ^ 21 }
    ensures { Coloned i (pen e.w out.old) (pen result.w out.new) e.next result.next }
{
    let next = e.next;
    let v1 = e.w.spaces(out, i);
    let w = v1.byte(out, b':');
    Emitted { w, next }
}

// What a block collection holds, at column i; `begin` is off where its first line is begun already.
#[cycle(members)]
pub fn put_members(
    w: Writer,
    given: &Given,
    out: &mut [u8],
    x: &Spot,
    i: usize,
    begin: bool,
) -> Emitted
    requires { (Calm given.now.settings given.now.deck.now given.now.pool.now (pen w out.old) x.now.next.at i) × Good given.now.deck.now x.now × (count_in x.now.body < 65536) }
    ensures { Emits given.now.settings (members given.now.settings i begin (kind_in given.now.deck.now given.now.pool.now x.now)) (pen w out.old) (pen result.w out.new) x.now.place (end_in given.now.deck.now given.now.pool.now x.now) result.next (length given.now.deck.now) }
{
    put_rows(
        w,
        given,
        out,
        x.body.is_mapping(),
        x.body.count(),
        x.next,
        i,
        begin,
    )
}

// `emit_block_sequence` and `emit_block_mapping`: the n items or pairs from a cursor on.
#[cycle(members)]
fn put_rows(
    w: Writer,
    given: &Given,
    out: &mut [u8],
    pairs: bool,
    n: usize,
    c: Cursor,
    i: usize,
    begin: bool,
) -> Emitted
    requires { Calm given.now.settings given.now.deck.now given.now.pool.now (pen w out.old) c.at i }
    ensures { Emits given.now.settings (rows given.now.settings given.now.deck.now given.now.pool.now i pairs begin true n c) (pen w out.old) (pen result.w out.new) c.at (run_end given.now.deck.now given.now.pool.now pairs n c) result.next (length given.now.deck.now) }
{
    let mut v = w;
    let mut here = c;
    let mut lead = begin;
    for k in 0..n {
        let e = put_row(v, given, out, pairs, here, i, lead, k == 0);
        v = e.w;
        here = e.next;
        lead = true;
    }
    Emitted { w: v, next: here }
}

// An item or a pair, with what stands before it.
#[cycle(members)]
fn put_row(
    w: Writer,
    given: &Given,
    out: &mut [u8],
    pairs: bool,
    c: Cursor,
    i: usize,
    begin: bool,
    first: bool,
) -> Emitted
    requires { Calm given.now.settings given.now.deck.now given.now.pool.now (pen w out.old) c.at i }
    ensures { Emits given.now.settings (row_of given.now.settings given.now.deck.now given.now.pool.now i pairs begin first c) (pen w out.old) (pen result.w out.new) c.at (entry_end given.now.deck.now given.now.pool.now pairs c) result.next (length given.now.deck.now) }
{
    let x = spot::spot_at(given.deck, c);
    let w1 = layout::put_before(w, given, out, pairs, &x.lead, i, begin);
    if pairs {
        let e = put_key(w1, given, out, &x, i, first);
        let next = e.next;
        return put_value(e.w, given, out, next, i);
    }
    put_dash(w1, given, out, &x, c, i)
}

// A key with its colon: after `?`, or inline.
#[cycle(members)]
fn put_key(w: Writer, given: &Given, out: &mut [u8], x: &Spot, i: usize, first: bool) -> Emitted
    requires { (Calm given.now.settings given.now.deck.now given.now.pool.now (pen w out.old) x.now.place i) × Good given.now.deck.now x.now × (count_in x.now.body < 65536) }
    ensures { Emits given.now.settings (key_part given.now.settings i first (node_in given.now.deck.now given.now.pool.now x.now)) (pen w out.old) (pen result.w out.new) x.now.place (end_in given.now.deck.now given.now.pool.now x.now) result.next (length given.now.deck.now) }
{
    if choices::is_explicit(first, x) {
        let w1 = w.byte(out, b'?');
        let e = put_question(w1, given, out, x, i);
        return with_colon(e, out, i);
    }
    flow::line(w, given, out, x, i, Manner::Key, false)
}

// The key of `emit_explicit_key_pair`, after the `?` at column i.
#[cycle(members)]
fn put_question(w: Writer, given: &Given, out: &mut [u8], x: &Spot, i: usize) -> Emitted
    requires { (Calm given.now.settings given.now.deck.now given.now.pool.now (pen w out.old) x.now.place i) × Good given.now.deck.now x.now × (count_in x.now.body < 65536) }
    ensures { Emits given.now.settings (key_below given.now.settings i (node_in given.now.deck.now given.now.pool.now x.now)) (pen w out.old) (pen result.w out.new) x.now.place (end_in given.now.deck.now given.now.pool.now x.now) result.next (length given.now.deck.now) }
{
    let j = i + choices::step_of(&given.settings);
    if choices::is_block(&x.body) {
        let w1 = layout::put_dressed(w, given, out, &x.lead);
        return put_members(w1, given, out, x, j, true);
    }
    layout::put_key_line(w, given, out, x, j)
}

// `emit_value_after_colon`, its key at column i.
#[cycle(members)]
fn put_value(w: Writer, given: &Given, out: &mut [u8], c: Cursor, i: usize) -> Emitted
    requires { Calm given.now.settings given.now.deck.now given.now.pool.now (pen w out.old) c.at i }
    ensures { Emits given.now.settings (value given.now.settings i (node_at given.now.deck.now given.now.pool.now c)) (pen w out.old) (pen result.w out.new) c.at (next_at given.now.deck.now given.now.pool.now c) result.next (length given.now.deck.now) }
{
    let x = spot::spot_at(given.deck, c);
    if x.lead.origin.is_some() {
        return layout::put_include(w, given, out, &x, c);
    }
    if choices::is_block(&x.body) {
        let j = choices::value_column(&given.settings, &x, i);
        return put_under(w, given, out, &x, j, j, false);
    }
    let j = i + choices::step_of(&given.settings);
    layout::put_leaf(w, given, out, &x, j)
}

// `emit_sequence_item_body` of the node at a cursor, its dash at column i.
#[cycle(members)]
fn put_dash(w: Writer, given: &Given, out: &mut [u8], x: &Spot, c: Cursor, i: usize) -> Emitted
    requires { (Calm given.now.settings given.now.deck.now given.now.pool.now (pen w out.old) c.at i) × (x.now ≡ spot_at given.now.deck.now c) × (count_in x.now.body < 65536) }
    ensures { Emits given.now.settings (dash given.now.settings i (node_at given.now.deck.now given.now.pool.now c)) (pen w out.old) (pen result.w out.new) c.at (next_at given.now.deck.now given.now.pool.now c) result.next (length given.now.deck.now) }
{
    let w1 = w.byte(out, b'-');
    if x.lead.origin.is_some() {
        return layout::put_include(w1, given, out, x, c);
    }
    if choices::is_block(&x.body) {
        return put_dashed(w1, given, out, x, i);
    }
    layout::put_leaf(w1, given, out, x, i + 2)
}

// A block collection after the dash at column i: on its line, or below it.
#[cycle(members)]
fn put_dashed(w: Writer, given: &Given, out: &mut [u8], x: &Spot, i: usize) -> Emitted
    requires { (Calm given.now.settings given.now.deck.now given.now.pool.now (pen w out.old) x.now.place i) × Good given.now.deck.now x.now × (count_in x.now.body < 65536) × (block_in x.now.body ≡ true) }
    ensures { Emits given.now.settings (dash_in given.now.settings given.now.deck.now given.now.pool.now i x.now) (pen w out.old) (pen result.w out.new) x.now.place (end_in given.now.deck.now given.now.pool.now x.now) result.next (length given.now.deck.now) }
{
    if choices::on_dash_line(x) {
        let w1 = w.byte(out, b' ');
        let e = put_members(w1, given, out, x, i + 2, false);
        return with_foots(e, given, out, x, i + 2);
    }
    let j = choices::item_column(&given.settings, x, i);
    put_under(w, given, out, x, j, i + 2, true)
}

// A block collection below its introducer, its body at column j, its foot comments at column k.
#[cycle(members)]
fn put_under(
    w: Writer,
    given: &Given,
    out: &mut [u8],
    x: &Spot,
    j: usize,
    k: usize,
    dashed: bool,
) -> Emitted
    requires { (Calm given.now.settings given.now.deck.now given.now.pool.now (pen w out.old) x.now.next.at j) × Good given.now.deck.now x.now × (count_in x.now.body < 65536) × (x.now.place < 65537) }
    ensures { Emits given.now.settings (under_of given.now.settings given.now.deck.now given.now.pool.now dashed x.now j k) (pen w out.old) (pen result.w out.new) x.now.place (end_in given.now.deck.now given.now.pool.now x.now) result.next (length given.now.deck.now) }
{
    let w1 = put_opening(w, given, out, x, j, dashed);
    let e = put_members(w1, given, out, x, j, true);
    with_foots(e, given, out, x, k)
}
