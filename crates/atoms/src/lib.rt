// What is written of a node without children: a null, an alias, a scalar that is replayed or written anew.
#![tactic(auto)]

ghost use Rattle.std.specs.Prelude.{◌≡◌, not, ◌&&◌, ◌∷◌, ◌<◌, ◌≤◌, ◌^◌, length};
ghost use Rattle.definition.specs.Ascii.{'*'};
ghost use Rattle.definition.specs.Settings.{is_tilde};
ghost use Rattle.definition.specs.Scalar.{marker_of};
ghost use Rattle.definition.specs.Deck.{marked, words};
ghost use Rattle.definition.specs.Walk.{is_block_style, replays};
ghost use Rattle.node.specs.Head.{there};
ghost use Rattle.node.specs.Total.{held_of, remark_of};
ghost use Rattle.pen.specs.Pen.{fields, pen, puts, ink};
ghost use Rattle.pen.specs.Draws.{Draws};
ghost use Rattle.atoms.specs.Atoms.{on, null_in, commented, fresh_in};

use blocks::{put_block_body, put_header};
use deck::is_marked;
use definition::{Cursor, Lines, NullStyle, Settings, Style, Text, Words};
use given::Given;
use parts::put_remark;
use pen::Writer;
use scalar::put_scalar;
use spot::Spot;

// A null that was edited in, where those are written `~`.
#[tactic(auto, unfolding(definition::specs::Settings::is_tilde))]
fn is_tilde_null(settings: &Settings, lines: &Lines) -> bool
    ensures { result ≡ (marked lines.now.marks 8 && is_tilde settings.now.null_style) }
{
    is_marked(lines.marks, 8) && settings.null_style == NullStyle::Tilde
}

pub fn put_null(w: Writer, out: &mut [u8], settings: &Settings, lines: &Lines) -> Writer
    requires { length out.old < 2 ^ 21 }
    ensures { pen result out.new ≡ puts (null_in settings.now lines.now) (pen w out.old) }
{
    if is_tilde_null(settings, lines) {
        return w.byte(out, b'~');
    }
    w.text(out, b"null")
}

pub fn put_alias(w: Writer, pool: &[u8], out: &mut [u8], t: Text) -> Writer
    requires { length out.old < 2 ^ 21 }
    ensures { pen result out.new ≡ puts ('*' ∷ words pool.now t) (pen w out.old) }
{
    let w1 = w.byte(out, b'*');
    w1.text(out, deck::words_of(pool, t))
}

#[tactic(auto, unfolding(definition::specs::Walk::is_block_style))]
pub fn is_block_style(style: Style) -> bool
    ensures { result ≡ is_block_style style }
{
    matches!(style, Style::Literal | Style::Folded)
}

// The marker of a block scalar.
#[tactic(auto, unfolding(definition::specs::Scalar::marker_of))]
fn marker_of(style: Style) -> u8
    ensures { result ≡ marker_of style }
{
    if style == Style::Folded { b'>' } else { b'|' }
}

// The inline comment goes on a block scalar's header.
fn is_on_header(remark: Option<Cursor>, style: Style, flow: bool) -> bool
    ensures { result ≡ (there remark && is_block_style style && not flow) }
{
    remark.is_some() && is_block_style(style) && !flow
}

// A block scalar with an inline comment on its header.
fn put_commented(
    w: Writer,
    given: &Given,
    out: &mut [u8],
    marker: u8,
    i: usize,
    x: &Spot,
    t: &[u8],
) -> Writer
    requires { (length out.old < 2 ^ 21) × (x.now.place < 2 ^ 18) }
    ensures { Draws (commented marker i x.now.place (remark_of given.now.deck.now given.now.pool.now x.now.lead.remark) t.now) (pen w out.old) (pen result out.new) }
{
    let w1 = put_header(w, out, t, marker);
    let w2 = put_remark(w1, given, out, x.place, x.lead.remark);
    put_block_body(w2, out, t, i)
}

// A scalar that is not replayed.
fn put_fresh(w: Writer, given: &Given, out: &mut [u8], i: usize, x: &Spot, said: &Words) -> Writer
    requires { (length out.old < 2 ^ 21) × (length given.now.pool.now ≤ 65536) × (x.now.place < 2 ^ 18) }
    ensures { pen result out.new ≡ ink given.now.settings
        (fresh_in (on (fields w).flow) (on (fields w).key) i x.now.place (remark_of given.now.deck.now given.now.pool.now x.now.lead.remark) (words given.now.pool.now said.now.text) said.now.style)
        (pen w out.old) }
{
    let flow = w.flow() != 0;
    let key = w.is_key();
    let t = deck::words_of(given.pool, said.text);
    if is_on_header(x.lead.remark, said.style, flow) {
        return put_commented(w, given, out, marker_of(said.style), i, x, t);
    }
    put_scalar(w, out, &given.settings, flow, key, t, said.style, i)
}

// A scalar: its raw text is replayed unless the node is modified.
pub fn put_words(
    w: Writer,
    given: &Given,
    out: &mut [u8],
    i: usize,
    x: &Spot,
    said: &Words,
) -> Writer
    requires { (length out.old < 2 ^ 21) × (length given.now.pool.now ≤ 65536) × (x.now.place < 2 ^ 18) }
    ensures { pen result out.new ≡ ink given.now.settings
        (replays x.now.place (held_of given.now.deck.now given.now.pool.now x.now.lead.raw) (marked x.now.lead.lines.marks 1)
        (fresh_in (on (fields w).flow) (on (fields w).key) i x.now.place (remark_of given.now.deck.now given.now.pool.now x.now.lead.remark) (words given.now.pool.now said.now.text) said.now.style))
        (pen w out.old) }
{
    let modified = is_marked(x.lead.lines.marks, 1);
    match x.lead.raw {
        Some(c) if !modified => w.replay(
            out,
            deck::words_of(given.pool, deck::text_in(given.deck, c.at)),
        ),
        _ => put_fresh(w, given, out, i, x, said),
    }
}
