// Quoted bodies, block scalars, lines with comments, scalars and separators, each into an empty output. A row has a first step, which takes the
// text, and two that may follow, which take the note.
ghost use Rattle.std.specs.Prelude.{◌≤◌, ◌<◌, ◌^◌, ◌≡◌, length};
ghost use Rattle.pen.specs.Pen.{fields};

use definition::{NullStyle, Settings, Style};
use pen::Writer;
use quoted::Fold;

// The numbers of a row. A style may be a marker, or the place of a first comment; an indent, the spaces before a comment; a width, the place of a
// comment that follows.
#[derive(Clone, Copy)]
struct Numbers {
    kind: usize,
    style: usize,
    column: usize,
    indent: usize,
    width: usize,
    mark: bool,
    second: usize,
    third: usize,
}

fn numbers_of(row: &[u8]) -> Numbers
    ensures { (result.style < 256) × (result.column < 65536) × (result.indent < 65536) × (result.width < 65536) }
{
    Numbers {
        kind: deck::byte(row, 0),
        style: deck::byte(row, 1),
        column: deck::word(row, 2),
        indent: deck::word(row, 4),
        width: deck::word(row, 6),
        mark: deck::word(row, 8) > 0,
        second: deck::byte(row, 10),
        third: deck::byte(row, 11),
    }
}

// Plain settings but for the width and the quotes.
fn plain_but(width: usize, single_quotes: bool) -> Settings
    requires { width < 65536 }
{
    Settings {
        single_quotes,
        width,
        ..Settings::from(NullStyle::Null)
    }
}

// A writer in an empty output that stands at a column. Columns are kept under any width but 0.
fn fresh(column: usize) -> Writer
    requires { column < 65536 }
    ensures { (fields result).column ≡ column }
{
    pen::fresh_writer(&plain_but(1, false)).at_column(column)
}

// A body folded: it begins at the column, and later lines at the indent.
fn folded(w: Writer, out: &mut [u8], t: &[u8], n: Numbers) -> Writer
    requires { (length t.now ≤ 65536) × (length out.old < 2 ^ 21) × (n.column < 65536) × (n.indent < 65536) }
{
    let f = Fold {
        indent: n.indent,
        width: n.width,
    };
    quoted::put_folded(w, out, t, n.mark, n.column, f)
}

// A scalar, in flow unless it stands at column 0; a block scalar's lines stand at column 2.
fn scalar(w: Writer, out: &mut [u8], t: &[u8], n: Numbers) -> Writer
    requires { (length t.now ≤ 65536) × (length out.old < 2 ^ 21) × (n.width < 65536) }
{
    let s = plain_but(n.width, n.indent > 0);
    scalar::put_scalar(w, out, &s, n.column > 0, n.mark, t, Style::from(n.style), 2)
}

// The first step of a line: the header of a block scalar, a text, a raw text, or an inline comment.
fn line(w: Writer, out: &mut [u8], t: &[u8], n: Numbers) -> Writer
    requires { (length out.old < 2 ^ 21) × (n.style < 256) }
{
    match n.kind {
        4 => blocks::put_header(w, out, t, n.style as u8),
        5 => w.text(out, t),
        6 => w.replay(out, t),
        _ => w.comment(out, n.style, n.indent, t),
    }
}

// The first step.
fn put(w: Writer, out: &mut [u8], t: &[u8], n: Numbers) -> Writer
    requires { (length t.now ≤ 65536) × (length out.old < 2 ^ 21) × (n.style < 256) × (n.column < 65536) × (n.indent < 65536) × (n.width < 65536) }
{
    match n.kind {
        0 => quoted::put_body(w, out, t, n.mark),
        1 => folded(w, out, t, n),
        2 => scalar(w, out, t, n),
        3 => scalar::put_separator(w, out, &plain_but(n.width, false), n.mark, n.indent),
        _ => line(w, out, t, n),
    }
}

// A step that follows: nothing, the body of a block scalar, an inline comment, or the line's end.
fn follow(kind: usize, w: Writer, out: &mut [u8], note: &[u8], n: Numbers) -> Writer
    requires { (length out.old < 2 ^ 21) × (n.width < 65536) }
{
    match kind {
        0 => w,
        1 => blocks::put_block_body(w, out, note, n.indent),
        2 => w.comment(out, n.width, n.indent, note),
        _ => w.end_line(out),
    }
}

// The steps of a row.
fn steps(row: &[u8], t: &[u8], note: &[u8], out: &mut [u8]) -> Writer
    requires { (length t.now ≤ 65536) × (length out.old < 2 ^ 21) }
{
    let n = numbers_of(row);
    let w = put(fresh(n.column), out, t, n);
    let w = follow(n.second, w, out, note, n);
    follow(n.third, w, out, note, n)
}

// The bytes that are written are those that the row wants.
pub fn holds(row: &[u8], t: &[u8], note: &[u8], want: &[u8]) -> bool
    requires { length t.now ≤ 65536 }
{
    let mut out = [0u8; 256];
    let w = steps(row, t, note, &mut out);
    let end = w.finish(&mut out);
    out.get(..end.len()) == Some(want)
}
