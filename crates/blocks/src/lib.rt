// Block scalars, written straight out.
#![tactic(auto)]

ghost use Rattle.std.specs.Prelude.{◌≡◌, true, ◌^◌, ◌≤◌, ◌<◌, length, get_or, drop};
ghost use Rattle.pen.specs.Pen.{pen, puts};
ghost use Rattle.pen.specs.Runs.{Run};
ghost use Rattle.definition.specs.Block.{trailing, indented, block_header, block_body};

use pen::Writer;

// Where the line ends that goes on from a place.
fn line_end(t: &[u8], from: usize) -> usize
    requires { (from < length t.now) × (get_or t.now from 0 ≡ 10 → ⊥) }
    ensures { Run (λ a. (a ≡ 10 → ⊥)) t.now from result × (from < result) }
{
    let mut i = from + 1;
    while i < t.len() {
        if t[i] == b'\n' {
            return i;
        }
        i += 1;
    }
    i
}

// On the way through a text: the place, and whether a line begins here.
#[derive(Clone, Copy)]
pub struct Going {
    pub w: Writer,
    pub at: usize,
    pub fresh: bool,
}

// A line break, or the rest of a line.
fn line_turn(g: Going, out: &mut [u8], t: &[u8], i: usize, indent: usize) -> Going
    requires { (i < length t.now) × (length out.old < 2 ^ 21) }
    ensures { (puts (indented indent result.fresh (drop result.at t.now)) (pen result.w out.new)
        ≡ puts (indented indent g.fresh (drop i t.now)) (pen g.w out.old)) × (i < result.at) }
{
    let w = g.w;
    if t[i] == b'\n' {
        return Going {
            w: w.byte(out, b'\n'),
            at: i + 1,
            fresh: true,
        };
    }
    let j = line_end(t, i);
    if g.fresh {
        let w = w.spaces(out, indent);
        return Going {
            w: w.text(out, &t[i..j]),
            at: j,
            fresh: false,
        };
    }
    Going {
        w: w.text(out, &t[i..j]),
        at: j,
        fresh: false,
    }
}

// A text's lines, each at the indent where it is not empty.
fn put_lines(w: Writer, out: &mut [u8], t: &[u8], indent: usize) -> Writer
    requires { length out.old < 2 ^ 21 }
    ensures { pen result out.new ≡ puts (indented indent true t.now) (pen w out.old) }
{
    let fresh = true;
    let mut g = Going {
        w: w,
        at: 0,
        fresh: fresh,
    };
    while g.at < t.len() {
        let i = g.at;
        g = line_turn(g, out, t, i, indent);
    }
    let w = g.w;
    w.byte(out, b'\n')
}

// How many line breaks a text ends in.
fn trailing_breaks(t: &[u8]) -> usize
    ensures { (result ≡ trailing t.now) × (result ≤ length t.now) }
{
    t.iter().rev().take_while(|b| **b == b'\n').count()
}

// The marker and the chomping mark.
pub fn put_header(w: Writer, out: &mut [u8], t: &[u8], marker: u8) -> Writer
    requires { length out.old < 2 ^ 21 }
    ensures { pen result out.new ≡ puts (block_header marker t.now) (pen w out.old) }
{
    let ends = trailing_breaks(t);
    let w = w.byte(out, marker);
    if ends == 0 {
        w.byte(out, b'-')
    } else if ends > 1 || ends == t.len() {
        w.byte(out, b'+')
    } else {
        w
    }
}

// After the header: its line break, the lines, and the breaks beyond the first.
pub fn put_block_body(w: Writer, out: &mut [u8], t: &[u8], indent: usize) -> Writer
    requires { length out.old < 2 ^ 21 }
    ensures { pen result out.new ≡ puts (block_body indent t.now) (pen w out.old) }
{
    let ends = trailing_breaks(t);
    let w = put_lines(w.byte(out, b'\n'), out, &t[..t.len() - ends], indent);
    w.again(out, b'\n', ends.saturating_sub(1))
}
