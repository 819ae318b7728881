// Parts of lines, each a script of the definition: tags and anchors in three forms, inline comments, an include's directive, what stands before and below.
#![tactic(auto)]

ghost use Rattle.std.specs.Prelude.{◌≡◌, ◌<◌, ◌^◌, ◌||◌, ◌++◌, length};
ghost use Rattle.definition.specs.Pen.{put, comment, directive};
ghost use Rattle.definition.specs.Walk.{prop, props_compact, props_line, directive_of};
ghost use Rattle.node.specs.Total.{held_of, origin_of, remark_of, kept_of, brought_of};
ghost use Rattle.pen.specs.Pen.{pen, puts};
ghost use Rattle.pen.specs.Draws.{Draws};
ghost use Rattle.comments.specs.Runs.{Short};
ghost use Rattle.node.specs.Head.{there};
ghost use Rattle.parts.specs.Props.{silent_in};
ghost use Rattle.parts.specs.Lines.{only, props_by, props_of, directed, breaks, closes, heads_over, before, below_open, colon_open, dash_open};

use comments::Entries;
use definition::Cursor;
use given::Given;
use node::Lead;
use pen::Writer;

// A byte, where it is wanted.
fn put_if(w: Writer, out: &mut [u8], wanted: bool, b: u8) -> Writer
    requires { length out.old < 2 ^ 21 }
    ensures { pen result out.new ≡ puts (only wanted b) (pen w out.old) }
{
    if wanted {
        return w.byte(out, b);
    }
    w
}

// A tag, or an anchor with its `&`, that is there: after a space or not, with a space after it or not.
fn put_prop(
    w: Writer,
    given: &Given,
    out: &mut [u8],
    spaced: bool,
    anchor: bool,
    h: Option<Cursor>,
    ended: bool,
) -> Writer
    requires { length out.old < 2 ^ 21 }
    ensures { Draws (prop (only spaced 32 ++ only anchor 38) (held_of given.now.deck.now given.now.pool.now h) (only ended 32)) (pen w out.old) (pen result out.new) }
{
    let Some(c) = h else {
        return w;
    };
    let w1 = put_if(w, out, spaced, b' ');
    let w2 = put_if(w1, out, anchor, b'&');
    let w3 = w2.text(
        out,
        deck::words_of(given.pool, deck::text_in(given.deck, c.at)),
    );
    put_if(w3, out, ended, b' ')
}

// A tag or an anchor is there.
pub fn is_either(tag: Option<Cursor>, anchor: Option<Cursor>) -> bool
    ensures { result ≡ there tag || there anchor }
{
    tag.is_some() || anchor.is_some()
}

// A tag and an anchor, where they are there: each after a space, or each with a space after it. Most nodes have neither: that is tested first.
fn put_both(
    w: Writer,
    given: &Given,
    out: &mut [u8],
    compact: bool,
    tag: Option<Cursor>,
    anchor: Option<Cursor>,
) -> Writer
    requires { length out.old < 2 ^ 21 }
    ensures { Draws (props_by compact (held_of given.now.deck.now given.now.pool.now tag) (held_of given.now.deck.now given.now.pool.now anchor)) (pen w out.old) (pen result out.new) }
{
    if is_either(tag, anchor) {
        let ended = !compact;
        let w1 = put_prop(w, given, out, compact, false, tag, ended);
        return put_prop(w1, given, out, compact, true, anchor, ended);
    }
    w
}

// `emit_anchor_tag`
pub fn put_props(
    w: Writer,
    given: &Given,
    out: &mut [u8],
    tag: Option<Cursor>,
    anchor: Option<Cursor>,
) -> Writer
    requires { length out.old < 2 ^ 21 }
    ensures { Draws (props_of (held_of given.now.deck.now given.now.pool.now tag) (held_of given.now.deck.now given.now.pool.now anchor)) (pen w out.old) (pen result out.new) }
{
    put_both(w, given, out, false, tag, anchor)
}

// `emit_anchor_tag_compact`
pub fn put_props_compact(w: Writer, given: &Given, out: &mut [u8], lead: &Lead) -> Writer
    requires { length out.old < 2 ^ 21 }
    ensures { Draws (props_compact (brought_of given.now.deck.now given.now.pool.now lead.now)) (pen w out.old) (pen result out.new) }
{
    put_both(w, given, out, true, lead.tag, lead.anchor)
}

// `emit_anchor_tag_line`
pub fn put_props_line(w: Writer, given: &Given, out: &mut [u8], lead: &Lead) -> Writer
    requires { length out.old < 2 ^ 21 }
    ensures { Draws (props_line (brought_of given.now.deck.now given.now.pool.now lead.now)) (pen w out.old) (pen result out.new) }
{
    if is_either(lead.tag, lead.anchor) {
        let both = lead.anchor.is_some();
        let w1 = put_prop(w, given, out, false, false, lead.tag, both);
        let w2 = put_prop(w1, given, out, false, true, lead.anchor, false);
        return w2.byte(out, b'\n');
    }
    w
}

// The inline comment of the node at `place`, unless it was the last one written.
pub fn put_remark(
    w: Writer,
    given: &Given,
    out: &mut [u8],
    place: usize,
    m: Option<Cursor>,
) -> Writer
    requires { (length out.old < 2 ^ 21) × (place < 2 ^ 18) }
    ensures { Draws (comment place (remark_of given.now.deck.now given.now.pool.now m)) (pen w out.old) (pen result out.new) }
{
    let Some(c) = m else {
        return w;
    };
    let trailer = deck::trailer_in(given.deck, c.at);
    let text = deck::words_of(given.pool, trailer.text);
    w.comment(out, place, trailer.spaces, text)
}

// `emit_directive`
fn put_directive(w: Writer, given: &Given, out: &mut [u8], o: Option<Cursor>) -> Writer
    requires { length out.old < 2 ^ 21 }
    ensures { Draws (put directive (directive_of (origin_of given.now.deck.now given.now.pool.now o))) (pen w out.old) (pen result out.new) }
{
    let Some(c) = o else {
        return w;
    };
    let include = deck::include_in(given.deck, c.at);
    let w1 = w.text(out, deck::words_of(given.pool, include.tag));
    let w2 = w1.byte(out, b' ');
    w2.text(out, deck::words_of(given.pool, include.target))
}

// An include's directive, with its node's inline comment, to the end of the line.
pub fn put_include_line(
    w: Writer,
    given: &Given,
    out: &mut [u8],
    place: usize,
    lead: &Lead,
) -> Writer
    requires { (length out.old < 2 ^ 21) × (place < 2 ^ 18) }
    ensures { Draws (directed place (origin_of given.now.deck.now given.now.pool.now lead.now.origin) (remark_of given.now.deck.now given.now.pool.now lead.now.remark)) (pen w out.old) (pen result out.new) }
{
    let w1 = put_directive(w, given, out, lead.origin);
    let w2 = put_remark(w1, given, out, place, lead.remark);
    w2.byte(out, b'\n')
}

// Neither properties nor an inline comment.
#[tactic(auto, unfolding(crate::specs::Props::silent_in))]
fn is_silent(lead: &Lead) -> bool
    ensures { result ≡ silent_in lead.now }
{
    !is_either(lead.tag, lead.anchor) && lead.remark.is_none()
}

// The properties and the inline comment of what stands below, to the end of the line. Mostly there is neither: that is tested first.
fn put_break(w: Writer, given: &Given, out: &mut [u8], place: usize, lead: &Lead) -> Writer
    requires { (length out.old < 2 ^ 21) × (place < 2 ^ 18) }
    ensures { Draws (breaks place (remark_of given.now.deck.now given.now.pool.now lead.now.remark) (brought_of given.now.deck.now given.now.pool.now lead.now)) (pen w out.old) (pen result out.new) }
{
    if is_silent(lead) {
        return w.byte(out, b'\n');
    }
    let w1 = put_props_compact(w, given, out, lead);
    let w2 = put_remark(w1, given, out, place, lead.remark);
    w2.byte(out, b'\n')
}

// The inline comment, and the end of the line. Most nodes have no comment: that is tested here.
pub fn put_close(
    w: Writer,
    given: &Given,
    out: &mut [u8],
    place: usize,
    remark: Option<Cursor>,
) -> Writer
    requires { (length out.old < 2 ^ 21) × (place < 2 ^ 18) }
    ensures { Draws (closes place (remark_of given.now.deck.now given.now.pool.now remark)) (pen w out.old) (pen result out.new) }
{
    if remark.is_none() {
        return w.end_line(out);
    }
    let w1 = put_remark(w, given, out, place, remark);
    w1.end_line(out)
}

// The head comments over a pair's key, or over an item's dash.
fn put_over(w: Writer, given: &Given, out: &mut [u8], pairs: bool, lead: &Lead, i: usize) -> Writer
    requires { (length out.old < 2 ^ 21) × Short lead.now }
    ensures { Draws (heads_over pairs (kept_of given.now.deck.now given.now.pool.now lead.now) i) (pen w out.old) (pen result out.new) }
{
    if pairs {
        return comments::put_repeated(w, given, out, lead, Entries::Heads, i);
    }
    comments::put_above_dash(w, given, out, lead, i)
}

// What stands before a pair's key or an item's dash: blank lines, head comments, the indent.
pub fn put_before(
    w: Writer,
    given: &Given,
    out: &mut [u8],
    pairs: bool,
    lead: &Lead,
    i: usize,
) -> Writer
    requires { (length out.old < 2 ^ 21) × Short lead.now }
    ensures { Draws (before pairs (kept_of given.now.deck.now given.now.pool.now lead.now) i) (pen w out.old) (pen result out.new) }
{
    let w1 = w.again(out, b'\n', lead.lines.blank);
    let w2 = put_over(w1, given, out, pairs, lead, i);
    w2.spaces(out, i)
}

// Below its introducer: the break, head comments below, the indent.
pub fn put_below(
    w: Writer,
    given: &Given,
    out: &mut [u8],
    place: usize,
    lead: &Lead,
    i: usize,
) -> Writer
    requires { (length out.old < 2 ^ 21) × (place < 2 ^ 18) × Short lead.now }
    ensures { Draws (below_open place (kept_of given.now.deck.now given.now.pool.now lead.now) (brought_of given.now.deck.now given.now.pool.now lead.now) i) (pen w out.old) (pen result out.new) }
{
    let w1 = put_break(w, given, out, place, lead);
    let w2 = comments::put_repeated(w1, given, out, lead, Entries::Under, i);
    w2.spaces(out, i)
}

// A block collection after `:`: the break, head comments.
pub fn put_colon_block(
    w: Writer,
    given: &Given,
    out: &mut [u8],
    place: usize,
    lead: &Lead,
    i: usize,
) -> Writer
    requires { (length out.old < 2 ^ 21) × (place < 2 ^ 18) × Short lead.now }
    ensures { Draws (colon_open place (kept_of given.now.deck.now given.now.pool.now lead.now) (brought_of given.now.deck.now given.now.pool.now lead.now) i) (pen w out.old) (pen result out.new) }
{
    let w1 = put_break(w, given, out, place, lead);
    comments::put_repeated(w1, given, out, lead, Entries::Heads, i)
}

// A block collection below its dash: the break, head comments below.
pub fn put_dash_block(
    w: Writer,
    given: &Given,
    out: &mut [u8],
    place: usize,
    lead: &Lead,
    i: usize,
) -> Writer
    requires { (length out.old < 2 ^ 21) × (place < 2 ^ 18) × Short lead.now }
    ensures { Draws (dash_open place (kept_of given.now.deck.now given.now.pool.now lead.now) (brought_of given.now.deck.now given.now.pool.now lead.now) i) (pen w out.old) (pen result out.new) }
{
    let w1 = put_break(w, given, out, place, lead);
    comments::put_below_dash(w1, given, out, lead, i)
}
