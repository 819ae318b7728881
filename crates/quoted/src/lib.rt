// Quoted bodies, folded or not, written straight out: no body is made, the next piece is measured ahead.
#![tactic(auto)]

ghost use Rattle.std.specs.Prelude.{◌≡◌, true, false, ◌+◌, ◌*◌, ◌^◌, ◌≤◌, ◌<◌, length, get_or, drop};
ghost use Rattle.pen.specs.Pen.{fields, pen, puts};
ghost use Rattle.definition.specs.Fold.{breakable, has_breakable};
ghost use Rattle.definition.specs.Settings.{folds};
ghost use Rattle.laws.specs.Pieces.{quote_by, body};
ghost use Rattle.laws.specs.Folded.{ahead_of, folded_of};
ghost use Rattle.laws.specs.Leaf.{quoted_at, folded_at, styled_at};
ghost use Rattle.quoted.specs.Turns.{Further, Measured, Passing, Onward, folding};

use definition::Settings;
use laws::byte_or;
use pen::Writer;
use pieces::{columns, others, piece_at, put_piece, put_single, quote_of, run_end};

#[derive(Clone, Copy)]
pub struct Fold {
    pub indent: usize,
    pub width: usize,
}

// On the way through a text: the place of the next byte that nothing written speaks for.
#[derive(Clone, Copy)]
pub struct Going {
    pub w: Writer,
    pub at: usize,
}

// The piece for the byte at a place. Between single quotes it is written at once: there a piece is one byte, or two.
fn piece_turn(w: Writer, out: &mut [u8], t: &[u8], i: usize, single: bool) -> Going
    requires { (i < length t.now) × (length t.now ≤ 65536) × (length out.old < 2 ^ 21) }
    ensures { Further (quote_by single) t.now i w out.old result out.new }
{
    if single {
        return Going {
            w: put_single(w, out, t[i]),
            at: i + 1,
        };
    }
    let p = piece_at(t, i, single);
    Going {
        w: put_piece(w, out, p),
        at: i + 1 + others(p),
    }
}

// The bytes that are written as they are, or else one piece.
fn body_turn(w: Writer, out: &mut [u8], t: &[u8], i: usize, single: bool) -> Going
    requires { (i < length t.now) × (length t.now ≤ 65536) × (length out.old < 2 ^ 21) }
    ensures { Further (quote_by single) t.now i w out.old result out.new }
{
    let j = run_end(t, i, quote_of(single), single);
    if j == i {
        return piece_turn(w, out, t, i, single);
    }
    Going {
        w: w.text(out, &t[i..j]),
        at: j,
    }
}

// The body of a text, not folded.
pub fn put_body(w: Writer, out: &mut [u8], t: &[u8], single: bool) -> Writer
    requires { (length t.now ≤ 65536) × (length out.old < 2 ^ 21) }
    ensures { pen result out.new ≡ puts (body (quote_by single) 0 t.now) (pen w out.old) }
{
    let mut g = Going { w, at: 0 };
    while g.at < t.len() {
        g = body_turn(g.w, out, t, g.at, single);
    }
    g.w
}

// Whether a breakable space stands at a place. `after`: a space, or nothing, stands before it.
#[tactic(auto, unfolding(definition::specs::Fold::breakable))]
fn breakable_at(t: &[u8], i: usize, after: bool) -> bool
    requires { i < length t.now }
    ensures { result ≡ breakable after (get_or t.now i 0) (drop (i + 1) t.now) }
{
    !after && t[i] == b' ' && byte_or(t, i + 1, b' ') != b' '
}

// Whether a text has a breakable space.
pub fn has_breakable(t: &[u8]) -> bool
    ensures { result ≡ has_breakable t.now }
{
    let mut after = true;
    for i in 0..t.len() {
        if breakable_at(t, i, after) {
            return true;
        }
        after = t[i] == b' ';
    }
    false
}

// Measuring ahead: the columns so far, the place, and whether a space, or nothing, was passed last.
#[derive(Clone, Copy)]
pub struct Scan {
    pub n: usize,
    pub at: usize,
    pub after: bool,
}

// The bytes up to a space or an escape, or else one piece.
fn scan_turn(g: Scan, t: &[u8], i: usize, single: bool) -> Scan
    requires i_in_bounds { (i < length t.now) × (length t.now ≤ 65536) × (g.n ≤ 2 ^ 20) }
    requires t_value { breakable g.after (get_or t.now i 0) (drop (i + 1) t.now) ≡ false }
    ensures { Measured (quote_by single) t.now i g result }
{
    let j = run_end(t, i, b' ', single);
    if j == i {
        let p = piece_at(t, i, single);
        return Scan {
            n: g.n + columns(p),
            at: i + 1 + others(p),
            after: t[i] == b' ',
        };
    }
    Scan {
        n: g.n + (j - i),
        at: j,
        after: false,
    }
}

// The columns of the body from a place up to the next breakable space.
fn ahead(t: &[u8], from: usize, single: bool) -> usize
    requires { (from ≤ length t.now) × (length t.now ≤ 65536) }
    ensures { (result ≡ ahead_of (quote_by single) (λ b. 1) 0 true (drop from t.now)) × (result ≤ 6 * length t.now + 12) }
{
    let mut g = Scan {
        n: 0,
        at: from,
        after: true,
    };
    while g.at < t.len() {
        if breakable_at(t, g.at, g.after) {
            return g.n;
        }
        g = scan_turn(g, t, g.at, single);
    }
    g.n
}

// On the way through a text that is folded: the column, the place, and whether a space, or nothing, was passed last.
#[derive(Clone, Copy)]
pub struct Line {
    pub w: Writer,
    pub col: usize,
    pub at: usize,
    pub after: bool,
}

// A breakable space: kept where the next piece still fits the line.
fn fold_gap(l: Line, out: &mut [u8], t: &[u8], i: usize, single: bool, f: Fold) -> Line
    requires passing { Passing t.now i l out.old }
    requires t_value { breakable l.after (get_or t.now i 0) (drop (i + 1) t.now) ≡ true }
    ensures { Onward (quote_by single) f t.now i l out.old result out.new }
{
    let need = l.col + 1 + ahead(t, i + 1, single);
    if need > f.width {
        return Line {
            w: l.w.byte(out, b'\n').spaces(out, f.indent),
            col: f.indent,
            at: i + 1,
            after: true,
        };
    }
    Line {
        w: l.w.byte(out, b' '),
        col: l.col + 1,
        at: i + 1,
        after: true,
    }
}

// Anything else that is not written as it is: its piece.
fn fold_piece(l: Line, out: &mut [u8], t: &[u8], i: usize, single: bool, f: Fold) -> Line
    requires passing { Passing t.now i l out.old }
    requires t_value { breakable l.after (get_or t.now i 0) (drop (i + 1) t.now) ≡ false }
    ensures { Onward (quote_by single) f t.now i l out.old result out.new }
{
    let p = piece_at(t, i, single);
    Line {
        w: put_piece(l.w, out, p),
        col: l.col + columns(p),
        at: i + 1 + others(p),
        after: t[i] == b' ',
    }
}

// The bytes up to a space or an escape, or else one of these.
fn fold_turn(l: Line, out: &mut [u8], t: &[u8], i: usize, single: bool, f: Fold) -> Line
    requires { Passing t.now i l out.old }
    ensures { Onward (quote_by single) f t.now i l out.old result out.new }
{
    let j = run_end(t, i, b' ', single);
    if j > i {
        return Line {
            w: l.w.text(out, &t[i..j]),
            col: l.col + (j - i),
            at: j,
            after: false,
        };
    }
    if breakable_at(t, i, l.after) {
        return fold_gap(l, out, t, i, single, f);
    }
    fold_piece(l, out, t, i, single, f)
}

// The body of a text, folded: it begins at the column `start`.
pub fn put_folded(
    w: Writer,
    out: &mut [u8],
    t: &[u8],
    single: bool,
    start: usize,
    f: Fold,
) -> Writer
    requires { (length t.now ≤ 65536) × (start ≤ 2 ^ 63) × (f.indent ≤ 2 ^ 63) × (length out.old < 2 ^ 21) }
    ensures { pen result out.new ≡ puts (folded_of (quote_by single) (folding f) 0 true start t.now) (pen w out.old) }
{
    let mut l = Line {
        w,
        col: start,
        at: 0,
        after: true,
    };
    while l.at < t.len() {
        l = fold_turn(l, out, t, l.at, single, f);
    }
    l.w
}

// Whether lines are folded: outside keys, where a width is set.
#[tactic(auto, unfolding(definition::specs::Settings::folds))]
pub fn will_fold(settings: &Settings, key: bool) -> bool
    ensures { result ≡ folds settings.now key }
{
    !key && settings.width > 0
}

// A text in quotes, not folded.
fn put_quoted(w: Writer, out: &mut [u8], t: &[u8], single: bool) -> Writer
    requires { (length t.now ≤ 65536) × (length out.old < 2 ^ 21) }
    ensures { pen result out.new ≡ puts (quoted_at single t.now) (pen w out.old) }
{
    let q = quote_of(single);
    put_body(w.byte(out, q), out, t, single).byte(out, q)
}

// A text in quotes, folded: continued lines stand at the quote's column, but never at 0.
fn put_quoted_folded(
    w: Writer,
    out: &mut [u8],
    settings: &Settings,
    t: &[u8],
    single: bool,
) -> Writer
    requires { (length t.now ≤ 65536) × (length out.old < 2 ^ 21) }
    ensures { pen result out.new ≡ puts (folded_at settings.now single t.now (fields w).column) (pen w out.old) }
{
    let column = w.column();
    let f = Fold {
        indent: pen::at_least_one(column),
        width: settings.width,
    };
    let q = quote_of(single);
    put_folded(w.byte(out, q), out, t, single, column + 1, f).byte(out, q)
}

// A text in quotes, folded where lines are.
#[tactic(auto, unfolding(laws::specs::Leaf::styled_at))]
pub fn put_styled(
    w: Writer,
    out: &mut [u8],
    settings: &Settings,
    key: bool,
    single: bool,
    t: &[u8],
) -> Writer
    requires { (length t.now ≤ 65536) × (length out.old < 2 ^ 21) }
    ensures { pen result out.new ≡ puts (styled_at settings.now key single t.now (fields w).column) (pen w out.old) }
{
    if will_fold(settings, key) {
        put_quoted_folded(w, out, settings, t, single)
    } else {
        put_quoted(w, out, t, single)
    }
}
