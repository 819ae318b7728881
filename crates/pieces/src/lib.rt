// Pieces of a quoted body: what is written for the byte at a place of a text, how wide that is, and how many bytes it speaks for.
#![tactic(auto)]

ghost use Rattle.std.specs.Prelude.{◌≡◌, true, ◌+◌, ◌^◌, ◌≤◌, ◌<◌, [], ◌∷◌, length, get_or, drop};
ghost use Rattle.pen.specs.Pen.{pen, puts};
ghost use Rattle.pen.specs.Runs.{Run};
ghost use Rattle.definition.specs.Quote.{digit, hex2, hex4, escaped};
ghost use Rattle.definition.specs.Fold.{size};
ghost use Rattle.definition.specs.Scalar.{quote_of};
ghost use Rattle.laws.specs.Pieces.{is_c1, is_non, double_piece, double_more, single_piece, quote_by};
ghost use Rattle.pieces.specs.Piece.{spell, beside, letter_of, Sound, Written, Stands, Own, marked};

use chars::is_non_printable;
use laws::byte_or;
use pen::Writer;

// A byte as it is; two bytes; `\x` of a character below 80; `\x` of C2 and a byte; `\u` of EF BF and a byte.
#[derive(Clone, Copy)]
pub enum Piece {
    Plain(u8),
    Pair(u8, u8),
    Hex(u8),
    Latin(u8),
    Wide(u8),
}

fn hex_digit(d: u8) -> u8
    requires { d < 16 }
    ensures { result ≡ digit d }
{
    b"0123456789abcdef"[usize::from(d)]
}

// The letter of a short escape, where there is one.
#[tactic(auto, unfolding(crate::specs::Piece::letter_of))]
fn letter(a: u8) -> Option<u8>
    ensures { result ≡ letter_of a }
{
    match a {
        0x00 => Some(b'0'),
        0x09 => Some(b't'),
        0x0a => Some(b'n'),
        0x0d => Some(b'r'),
        0x22 => Some(b'"'),
        0x5c => Some(b'\\'),
        _ => None,
    }
}

#[tactic(auto, using(crate::proofs::Laws::ascii_pair, crate::proofs::Laws::ascii_hex, crate::proofs::Laws::ascii_plain))]
fn ascii_piece(a: u8) -> Piece
    requires { a < 0x80 }
    ensures { Written (escaped a (a ∷ [])) 0 result }
{
    match letter(a) {
        Some(l) => Piece::Pair(b'\\', l),
        None if is_non_printable(u32::from(a)) => Piece::Hex(a),
        None => Piece::Plain(a),
    }
}

// C2 and a byte: a character from U+0080 on that is not printable. Its number is the second byte.
#[tactic(auto, using(crate::proofs::Laws::c1_other, crate::proofs::Laws::c1_low, crate::proofs::Laws::c1_high))]
pub fn is_c1(a: u8, b: u8) -> bool
    ensures { result ≡ is_c1 a b }
{
    a == 0xc2 && b >= 0x80 && is_non_printable(u32::from(b))
}

// EF BF and a byte: a character that is not printable. Its number is FF40 and the third byte.
#[tactic(auto, using(crate::proofs::Laws::non_first, crate::proofs::Laws::non_second, crate::proofs::Laws::non_third))]
pub fn is_non(a: u8, b: u8, c: u8) -> bool
    ensures { result ≡ is_non a b c }
{
    a == 0xef && b == 0xbf && is_non_printable(0xff40 + u32::from(c))
}

fn double_piece(a: u8, b: u8, c: u8) -> Piece
    ensures { Written (double_piece a b c) (double_more a b c) result }
{
    if a < 0x80 {
        return ascii_piece(a);
    }
    if is_c1(a, b) {
        return Piece::Latin(b);
    }
    if is_non(a, b, c) {
        return Piece::Wide(c);
    }
    Piece::Plain(a)
}

#[tactic(auto, using(crate::proofs::Laws::single_pair, crate::proofs::Laws::single_plain))]
fn single_piece(a: u8) -> Piece
    ensures { Written (single_piece a 0 0) 0 result }
{
    if a == b'\'' {
        Piece::Pair(a, a)
    } else {
        Piece::Plain(a)
    }
}

// The piece of the body that is written for the byte at a place.
#[tactic(auto, using(crate::proofs::Laws::stands_double, crate::proofs::Laws::stands_single))]
pub fn piece_at(t: &[u8], i: usize, single: bool) -> Piece
    requires { (i < length t.now) × (length t.now ≤ 65536) }
    ensures { Stands (quote_by single) (drop i t.now) result }
{
    if single {
        single_piece(t[i])
    } else {
        double_piece(t[i], byte_or(t, i + 1, 0), byte_or(t, i + 2, 0))
    }
}

// How many columns a piece takes.
#[tactic(auto, unfolding(definition::specs::Fold::size, definition::specs::Quote::hex2, definition::specs::Quote::hex4))]
pub fn columns(p: Piece) -> usize
    ensures { (result ≡ size (λ b. 1) (spell p)) × (result ≤ 6) }
{
    match p {
        Piece::Plain(_) => 1,
        Piece::Pair(_, _) => 2,
        Piece::Hex(_) | Piece::Latin(_) => 4,
        Piece::Wide(_) => 6,
    }
}

// How many bytes of the value a piece speaks for beside the first.
pub fn others(p: Piece) -> usize
    ensures { result ≡ beside p }
{
    match p {
        Piece::Plain(_) | Piece::Pair(_, _) | Piece::Hex(_) => 0,
        Piece::Latin(_) => 1,
        Piece::Wide(_) => 2,
    }
}

#[tactic(auto, unfolding(pen::specs::Pen::puts))]
fn put_pair(w: Writer, out: &mut [u8], a: u8, b: u8) -> Writer
    requires { length out.old < 2 ^ 21 }
    ensures { pen result out.new ≡ puts (a ∷ b ∷ []) (pen w out.old) }
{
    w.byte(out, a).byte(out, b)
}

fn put_hex2(w: Writer, out: &mut [u8], n: u8) -> Writer
    requires { length out.old < 2 ^ 21 }
    ensures { pen result out.new ≡ puts (hex2 n) (pen w out.old) }
{
    put_pair(w, out, hex_digit(n / 16), hex_digit(n % 16))
}

fn put_x(w: Writer, out: &mut [u8], n: u8) -> Writer
    requires { length out.old < 2 ^ 21 }
    ensures { pen result out.new ≡ puts (92 ∷ 120 ∷ hex2 n) (pen w out.old) }
{
    let w = put_pair(w, out, b'\\', b'x');
    put_hex2(w, out, n)
}

// `\u` and four digits, of FF40 and the byte.
fn put_u(w: Writer, out: &mut [u8], c: u8) -> Writer
    requires { (0xbe ≤ c) × (c ≤ 0xbf) × (length out.old < 2 ^ 21) }
    ensures { pen result out.new ≡ puts (92 ∷ 117 ∷ hex4 (0xff40 + c)) (pen w out.old) }
{
    let w = put_pair(w, out, b'\\', b'u');
    let w = put_hex2(w, out, 0xff);
    put_hex2(w, out, c + 0x40)
}

#[tactic(auto, unfolding(pen::specs::Pen::puts))]
pub fn put_piece(w: Writer, out: &mut [u8], p: Piece) -> Writer
    requires { Sound p × (length out.old < 2 ^ 21) }
    ensures { pen result out.new ≡ puts (spell p) (pen w out.old) }
{
    match p {
        Piece::Plain(a) => w.byte(out, a),
        Piece::Pair(a, b) => put_pair(w, out, a, b),
        Piece::Hex(a) => put_x(w, out, a),
        Piece::Latin(b) => put_x(w, out, b),
        Piece::Wide(c) => put_u(w, out, c),
    }
}

// A byte between single quotes.
pub fn put_single(w: Writer, out: &mut [u8], a: u8) -> Writer
    requires { length out.old < 2 ^ 21 }
    ensures { pen result out.new ≡ puts (single_piece a 0 0) (pen w out.old) }
{
    if a == b'\'' {
        return put_pair(w, out, a, a);
    }
    w.byte(out, a)
}

// Between double quotes the byte begins an escape, at least before certain others.
fn is_marked(a: u8) -> bool
    ensures { result ≡ marked a }
{
    a < 0x20 || matches!(a, b'"' | b'\\' | 0x7f | 0xc2 | 0xef)
}

// Whether the byte begins no escape and is not `stop`, so that it is written as it is. A byte that begins an escape only before certain
// others counts as one that does. The stop is asked for first, and small letters are not: docs/DESIGN-PASS.md has the times.
#[tactic(auto, using(crate::proofs::Laws::own_single, crate::proofs::Laws::own_double))]
fn is_own(a: u8, stop: u8, single: bool) -> bool
    ensures { result ≡ true → Own (quote_by single) stop a }
{
    a != stop && if single { a != b'\'' } else { !is_marked(a) }
}

// Where the bytes that are written as they are end, from a place on.
pub fn run_end(t: &[u8], from: usize, stop: u8, single: bool) -> usize
    requires { from ≤ length t.now }
    ensures { Run (Own (quote_by single) stop) t.now from result }
{
    for i in from..t.len() {
        if !is_own(t[i], stop, single) {
            return i;
        }
    }
    t.len()
}

#[tactic(auto, unfolding(definition::specs::Scalar::quote_of))]
pub fn quote_of(single: bool) -> u8
    ensures { result ≡ quote_of single }
{
    if single { b'\'' } else { b'"' }
}
