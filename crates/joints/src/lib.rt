// What stands around a node on its line, and between and around the entries of a flow collection.
#![tactic(auto)]

ghost use Rattle.std.specs.Prelude.{true, ◌≡◌, ◌<◌, ◌≤◌, ◌^◌, length};
ghost use Rattle.definition.specs.Base.{when◌then◌else◌};
ghost use Rattle.definition.specs.Ascii.{COMMA};
ghost use Rattle.definition.specs.Pen.{comma, nothing, sign};
ghost use Rattle.definition.specs.Walk.{props};
ghost use Rattle.node.specs.Total.{kept_of, remark_of};
ghost use Rattle.pen.specs.Pen.{fields, pen, ink};
ghost use Rattle.pen.specs.Draws.{Draws};
ghost use Rattle.comments.specs.Runs.{Short};
ghost use Rattle.spot.specs.Spot.{kept_in, brought_in, kind_in};
ghost use Rattle.atoms.specs.Atoms.{on};
ghost use Rattle.joints.specs.Told.{Colon, LastOf};
ghost use Rattle.joints.specs.Line.{dressed, key_by, ending};
ghost use Rattle.joints.specs.Entries.{key_heads, lined_before, lined_after, opening, closing};

use comments::Entries;
use definition::{Cursor, Settings};
use given::Given;
use node::Lead;
use pen::Writer;
use spot::{Body, Spot};

// `emit_flow_separator`, but before the first entry.
pub fn put_between(w: Writer, out: &mut [u8], settings: &Settings, first: bool, i: usize) -> Writer
    requires { length out.old < 2 ^ 21 }
    ensures { pen result out.new ≡ ink settings.now (when first then nothing else comma (on (fields w).key) i) (pen w out.old) }
{
    if first {
        return w;
    }
    scalar::put_separator(w, out, settings, w.is_key(), i)
}

// `end_inline_key`: an alias has a space before its colon.
fn put_colon(w: Writer, out: &mut [u8], body: &Body) -> Writer
    requires { length out.old < 2 ^ 21 }
    ensures { Colon body.now (pen w out.old) (pen result out.new) }
{
    match body {
        Body::Alias(_) => {
            let w1 = w.byte(out, b' ');
            w1.byte(out, b':')
        }
        _ => w.byte(out, b':'),
    }
}

// How a node stands on its line: an entry of a flow collection; a value, to the end of the line; a value below its introducer, whose properties
// are written already; a key before its colon; a key after `?`.
#[derive(Clone, Copy)]
pub enum Manner {
    Entry,
    Value,
    Below,
    Key,
    Asked,
}

// A node's properties, where they are not written already.
pub fn put_dress(w: Writer, given: &Given, out: &mut [u8], x: &Spot, manner: Manner) -> Writer
    requires { length out.old < 2 ^ 21 }
    ensures { Draws (dressed manner (props (brought_in given.now.deck.now given.now.pool.now x.now))) (pen w out.old) (pen result out.new) }
{
    match manner {
        Manner::Below => w,
        _ => parts::put_props(w, given, out, x.lead.tag, x.lead.anchor),
    }
}

// What holds of a node's content: what holds inside a key, or what holds of the node.
#[tactic(auto, unfolding(crate::specs::Line::key_by))]
pub fn key_in<T: Copy>(manner: Manner, inside: T, outside: T) -> T
    ensures { result ≡ key_by manner inside outside }
{
    match manner {
        Manner::Key | Manner::Asked => inside,
        Manner::Entry | Manner::Value | Manner::Below => outside,
    }
}

// What ends a node's line, or follows it there.
pub fn put_ending(w: Writer, given: &Given, out: &mut [u8], x: &Spot, manner: Manner) -> Writer
    requires { (length out.old < 2 ^ 21) × (x.now.place < 2 ^ 18) }
    ensures { Draws (ending manner x.now.place (kept_in given.now.deck.now given.now.pool.now x.now) (kind_in given.now.deck.now given.now.pool.now x.now)) (pen w out.old) (pen result out.new) }
{
    match manner {
        Manner::Entry => w,
        Manner::Value => parts::put_close(w, given, out, x.place, x.lead.remark),
        Manner::Below | Manner::Asked => w.end_line(out),
        Manner::Key => put_colon(w, out, &x.body),
    }
}

// The head comments of the key of a pair.
fn put_key_heads(
    w: Writer,
    given: &Given,
    out: &mut [u8],
    pairs: bool,
    c: Cursor,
    i: usize,
) -> Writer
    requires { (length out.old < 2 ^ 21) × (c.at ≤ length given.now.deck.now) × (length given.now.deck.now ≤ 65536) }
    ensures { Draws (key_heads given.now.deck.now given.now.pool.now i pairs c) (pen w out.old) (pen result out.new) }
{
    if pairs {
        let x = spot::spot_at(given.deck, c);
        return comments::put_repeated(w, given, out, &x.lead, Entries::Heads, i);
    }
    w
}

// The cursor of an entry's last node: a pair's value, or the item.
pub fn last_of(deck: &[u8], pairs: bool, c: Cursor) -> Cursor
    requires { c.at ≤ length deck.now }
    ensures { LastOf deck.now pairs c result }
{
    if pairs {
        return node::subtree_end(deck, c);
    }
    c
}

// What stands before an entry on a line of its own; `lead` is of its value, or of the item.
pub fn put_lined_before(
    w: Writer,
    given: &Given,
    out: &mut [u8],
    pairs: bool,
    c: Cursor,
    lead: &Lead,
    i: usize,
) -> Writer
    requires { (length out.old < 2 ^ 21) × (c.at ≤ length given.now.deck.now) × (length given.now.deck.now ≤ 65536) × Short lead.now }
    ensures { Draws (lined_before given.now.deck.now given.now.pool.now i pairs c (kept_of given.now.deck.now given.now.pool.now lead.now)) (pen w out.old) (pen result out.new) }
{
    let w1 = put_key_heads(w, given, out, pairs, c, i);
    let w2 = comments::put_repeated(w1, given, out, lead, Entries::Heads, i);
    w2.spaces(out, i)
}

// The comma after an entry, but after the last one.
fn put_comma(w: Writer, out: &mut [u8], last: bool) -> Writer
    requires { length out.old < 2 ^ 21 }
    ensures { Draws (when last then nothing else sign COMMA) (pen w out.old) (pen result out.new) }
{
    if last {
        return w;
    }
    w.byte(out, b',')
}

// What stands after an entry on a line of its own.
pub fn put_lined_after(
    w: Writer,
    given: &Given,
    out: &mut [u8],
    last: bool,
    place: usize,
    remark: Option<Cursor>,
) -> Writer
    requires { (length out.old < 2 ^ 21) × (place < 2 ^ 18) }
    ensures { Draws (lined_after last place (remark_of given.now.deck.now given.now.pool.now remark)) (pen w out.old) (pen result out.new) }
{
    let w1 = put_comma(w, out, last);
    let w2 = parts::put_remark(w1, given, out, place, remark);
    w2.byte(out, b'\n')
}

pub fn opening_of(pairs: bool) -> u8
    ensures { result ≡ opening pairs }
{
    if pairs { b'{' } else { b'[' }
}

pub fn closing_of(pairs: bool) -> u8
    ensures { result ≡ closing pairs }
{
    if pairs { b'}' } else { b']' }
}
