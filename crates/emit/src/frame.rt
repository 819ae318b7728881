// The emit program's work, on slices: the input is cut into deck and pool, and what is to be shown is put at the front of the output.
ghost use Rattle.std.specs.Prelude.{◌≡◌, ◌+◌, ◌≤◌, ◌%◌, [], ◌∷◌, length};
ghost use Rattle.definition.specs.Program.{refusal_line, shown, emit_into, program};
ghost use Rattle.definition.specs.Program.{decimal as digitsOf};
ghost use Rattle.emit.specs.Front.{Adds, Shows, blank};
ghost use Rattle.emit.specs.Cut.{deck_length};

use definition::NullStyle;

// What the program lends: four bytes of length, the longest deck, the longest pool, and one byte by which too much is seen.
pub fn input() -> [u8; 131077]
    ensures { 131077 ≡ length result }
{
    [0; 131077]
}

pub fn output() -> [u8; 65536]
    ensures { (result ≡ blank) × (65536 ≡ length result) }
{
    [0; 65536]
}

fn put(out: &mut [u8], at: usize, b: u8) -> usize
    requires { at + 1 ≤ length out.old }
    ensures { Adds (b ∷ []) at out.old result out.new }
{
    out[at] = b;
    at + 1
}

fn put_text(out: &mut [u8], at: usize, text: &[u8]) -> usize
    requires { at + length text.now ≤ length out.old }
    ensures { Adds text.now at out.old result out.new }
{
    let end = at + text.len();
    out[at..end].copy_from_slice(text);
    end
}

fn digit(n: usize) -> u8
    ensures { result ≡ 48 + n % 10 }
{
    48 + (n % 10) as u8
}

// A number in decimal digits, of which it has at most so many. By hand, and not by `Display`: std promises what it prints of a String alone,
// which takes memory.
fn put_decimal(out: &mut [u8], at: usize, most: usize, n: usize) -> usize
    requires { at + most ≤ length out.old }
    ensures { Adds (digitsOf most n) at out.old result out.new × (result ≤ at + most) }
{
    if most == 0 {
        return at;
    }
    if n < 10 {
        return put(out, at, digit(n));
    }
    let next = put_decimal(out, at, most - 1, n / 10);
    put(out, next, digit(n))
}

// The line of a refusal.
fn refuse(out: &mut [u8], number: usize, place: usize) -> usize
    requires { 20 ≤ length out.old }
    ensures { Shows (refusal_line number place) result out.new }
{
    let a = put_text(out, 0, b"refused ");
    let b = put_decimal(out, a, 2, number);
    let c = put_text(out, b, b" at ");
    let d = put_decimal(out, c, 5, place);
    put_text(out, d, b"\n")
}

// All documents of a deck, or the line of the refusal.
fn show(deck: &[u8], pool: &[u8], out: &mut [u8]) -> usize
    requires { out.old ≡ blank }
    ensures { Shows (shown (emit_into deck.now pool.now)) result out.new }
{
    let a = rassemok::emit_roundtrip_all_with(deck, pool, out, NullStyle::Null);
    if a.number != 0 {
        return refuse(out, a.number, a.place);
    }
    a.length
}

fn deck_length(input: &[u8]) -> usize
    ensures { result ≡ deck_length input.now }
{
    deck::word(input, 0) + 65536 * deck::word(input, 2)
}

// What the program writes is put at the front of the output: so many bytes.
pub fn run(input: &[u8], out: &mut [u8]) -> usize
    requires { out.old ≡ blank }
    ensures { Shows (program input.now) result out.new }
{
    if input.len() < 4 {
        return show(b"", b"", out);
    }
    let n = deck_length(input);
    if n > 65536 {
        return refuse(out, 2, 0);
    }
    let mid = (4 + n).min(input.len());
    show(&input[4..mid], &input[mid..], out)
}
