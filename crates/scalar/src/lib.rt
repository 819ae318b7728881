// Scalars and the separators between flow entries, written straight out: what must be quoted, how, and the bytes.
#![tactic(auto)]

ghost use Rattle.std.specs.Prelude.{◌≡◌, ℕ, Bool, false, ◌&&◌, ◌+◌, ◌^◌, ◌≤◌, ◌<◌, ◌++◌, length, get_or, leb};
ghost use Rattle.definition.specs.Base.{when◌then◌else◌};
ghost use Rattle.definition.specs.Block.{block_header, block_body};
ghost use Rattle.definition.specs.Settings.{folds};
ghost use Rattle.definition.specs.Scalar.{starts_bom, unsafe_in_flow, must_quote, separator};
ghost use Rattle.laws.specs.Leaf.{quotable_at, quoted_at, own_at, scalar_bytes};
ghost use Rattle.pen.specs.Pen.{fields, pen, puts};
ghost use Rattle.scalar.specs.Tests.{refused_at, flow_mark, unsafe_at};

use blocks::{put_block_body, put_header};
use definition::{Settings, Style};
use laws::{any_place, byte_or};
use pen::{Writer, at_least_one};
use pieces::{is_c1, is_non};
use quoted::{has_breakable, put_styled, will_fold};

// The text starts with U+FEFF.
#[tactic(auto, unfolding(definition::specs::Scalar::starts_bom))]
pub fn starts_bom(t: &[u8]) -> bool
    ensures { result ≡ starts_bom t.now }
{
    t.starts_with(b"\xef\xbb\xbf")
}

// A byte that flow collections use.
#[tactic(auto, unfolding(crate::specs::Tests::flow_mark))]
fn flow_mark(a: u8) -> bool
    ensures { result ≡ flow_mark a }
{
    matches!(a, b',' | b'[' | b']' | b'{' | b'}')
}

// A plain scalar in flow would be read otherwise for what stands at a place: the byte after it is looked at only where it matters.
#[tactic(auto, unfolding(crate::specs::Tests::unsafe_at))]
fn is_unsafe(t: &[u8], i: usize) -> bool
    requires { (i < length t.now) × (length t.now ≤ 65536) }
    ensures { result ≡ unsafe_at (get_or t.now i 0) (get_or t.now (i + 1) 32) (get_or t.now (i + 2) 32) }
{
    flow_mark(t[i]) || (t[i] == b':' && byte_or(t, i + 1, b' ') == b' ')
}

// A plain scalar in flow would be read otherwise. A loop of its own, since `any_place` fetches two bytes more at each place (docs/DESIGN-PASS.md).
pub fn unsafe_in_flow(t: &[u8]) -> bool
    requires { length t.now ≤ 65536 }
    ensures { result ≡ unsafe_in_flow t.now }
{
    for i in 0..t.len() {
        if is_unsafe(t, i) {
            return true;
        }
    }
    false
}

// Single quotes do not take the byte `a`, with `b` and `c` after it.
#[tactic(auto, using(crate::proofs::Laws::refused_low, crate::proofs::Laws::refused_high))]
fn refused(a: u8, b: u8, c: u8) -> bool
    ensures { result ≡ refused_at a b c }
{
    if a < 0x80 {
        a < 0x20 || a == b'\'' || a == 0x7f
    } else {
        is_c1(a, b) || is_non(a, b, c)
    }
}

// Single quotes take the text as it is.
pub fn quotable(t: &[u8]) -> bool
    requires { length t.now ≤ 65536 }
    ensures { result ≡ quotable_at t.now }
{
    !any_place(t, 0, refused)
}

// A plain scalar is quoted: for what it has, or since it passes the width and can be folded.
#[tactic(auto, using(crate::proofs::Laws::size_length), unfolding(definition::specs::Scalar::must_quote))]
fn must_quote(settings: &Settings, flow: bool, key: bool, t: &[u8], column: usize) -> bool
    requires { (length t.now ≤ 65536) × (column < 2 ^ 63) }
    ensures { result ≡ must_quote settings.now flow key t.now column }
{
    starts_bom(t)
        || (flow && unsafe_in_flow(t))
        || (will_fold(settings, key) && column + t.len() > settings.width && has_breakable(t))
}

// A text that has no quotes of its own, quoted as the settings ask: singly only where single quotes take it as it is.
#[tactic(auto, unfolding(laws::specs::Leaf::own_at))]
fn put_own(w: Writer, out: &mut [u8], settings: &Settings, key: bool, t: &[u8]) -> Writer
    requires { (length t.now ≤ 65536) × (length out.old < 2 ^ 21) }
    ensures { pen result out.new ≡ puts (own_at settings.now key t.now (fields w).column) (pen w out.old) }
{
    let single = settings.single_quotes && quotable(t);
    put_styled(w, out, settings, key, single, t)
}

// A plain scalar: as it is, unless it must be quoted.
fn put_plain(
    w: Writer,
    out: &mut [u8],
    settings: &Settings,
    flow: bool,
    key: bool,
    t: &[u8],
) -> Writer
    requires { (length t.now ≤ 65536) × (length out.old < 2 ^ 21) }
    ensures { pen result out.new ≡ puts
        (when must_quote settings.now flow key t.now (fields w).column then own_at settings.now key t.now (fields w).column else t.now)
        (pen w out.old) }
{
    if must_quote(settings, flow, key, t, w.column()) {
        put_own(w, out, settings, key, t)
    } else {
        w.text(out, t)
    }
}

// A literal or folded scalar: in flow it is double quoted as in a key, so never folded.
fn put_block(
    w: Writer,
    out: &mut [u8],
    settings: &Settings,
    flow: bool,
    t: &[u8],
    marker: u8,
    indent: usize,
) -> Writer
    requires { (length t.now ≤ 65536) × (length out.old < 2 ^ 21) }
    ensures { pen result out.new ≡ puts
        (when flow then quoted_at false t.now else block_header marker t.now ++ block_body indent t.now)
        (pen w out.old) }
{
    if flow {
        put_styled(w, out, settings, true, false, t)
    } else {
        put_block_body(put_header(w, out, t, marker), out, t, indent)
    }
}

// A scalar, in flow or not, in a key or not; `indent` is the column of a block scalar's lines.
pub fn put_scalar(
    w: Writer,
    out: &mut [u8],
    settings: &Settings,
    flow: bool,
    key: bool,
    t: &[u8],
    style: Style,
    indent: usize,
) -> Writer
    requires { (length t.now ≤ 65536) × (length out.old < 2 ^ 21) }
    ensures { pen result out.new ≡ puts (scalar_bytes settings.now flow key t.now style indent (fields w).column) (pen w out.old) }
{
    match style {
        Style::Plain => put_plain(w, out, settings, flow, key, t),
        Style::Single => put_styled(w, out, settings, key, true, t),
        Style::Double => put_styled(w, out, settings, key, false, t),
        Style::Literal => put_block(w, out, settings, flow, t, b'|', indent),
        Style::Folded => put_block(w, out, settings, flow, t, b'>', indent),
    }
}

// A comma would bring the line to the width.
fn line_full(settings: &Settings, key: bool, column: usize) -> bool
    requires { column < 2 ^ 63 }
    ensures { result ≡ (folds settings.now key && leb settings.now.width (column + 1)) }
{
    will_fold(settings, key) && settings.width <= column + 1
}

// The comma between two flow entries, and a space, or a line break and an indent where the line is full.
pub fn put_separator(
    w: Writer,
    out: &mut [u8],
    settings: &Settings,
    key: bool,
    indent: usize,
) -> Writer
    requires { length out.old < 2 ^ 21 }
    ensures { pen result out.new ≡ puts (separator settings.now key indent (fields w).column) (pen w out.old) }
{
    let full = line_full(settings, key, w.column());
    let w = w.byte(out, b',');
    if full {
        w.byte(out, b'\n').spaces(out, at_least_one(indent))
    } else {
        w.byte(out, b' ')
    }
}
