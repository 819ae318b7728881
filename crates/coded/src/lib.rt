// How the fixed list of cases is coded: numbers, runs, and the sum of an output. docs/ORACLE.md has the list's form. What lies past its end
// reads as 0.
#![tactic(auto)]

ghost use Rattle.std.specs.Prelude.{◌≤◌, ◌<◌, ◌^◌, length};

// The number of four bytes, low byte first.
pub fn long(data: &[u8], at: usize) -> usize
    requires { at < 2 ^ 63 }
    ensures { result < 2 ^ 32 }
{
    deck::word(data, at) + 65536 * deck::word(data, at + 2)
}

// ---- FNV-1a of 64 bits

// The sum of no bytes; and the prime, 2^40 + 435.
const BASIS: u64 = 0xcbf2_9ce4_8422_2325;

const PRIME: u64 = 0x100_0000_01b3;

pub fn hash(out: &[u8]) -> u64 {
    out.iter()
        .fold(BASIS, |h, b| (h ^ u64::from(*b)).wrapping_mul(PRIME))
}

// ---- runs

// Puts a piece into the output, as far as there is room, and answers where it ends.
fn copy(piece: &[u8], out: &mut [u8], to: usize) -> usize
    requires { to ≤ length out.old }
    ensures { result ≤ length out.new }
{
    let n = piece.len().min(out.len() - to);
    out[to..to + n].copy_from_slice(&piece[..n]);
    to + n
}

// Puts a piece into the output so many times. A run of nothing is done at once, however often it is said to stand there.
fn repeat(piece: &[u8], times: usize, out: &mut [u8], to: usize) -> usize
    requires { to ≤ length out.old }
    ensures { result ≤ length out.new }
{
    if piece.is_empty() {
        return to;
    }
    let mut end = to;
    for _ in 0..times {
        end = copy(piece, out, end);
    }
    end
}

// What coded runs stand for: a piece's length, how often it stands there, and the piece.
pub fn expand(coded: &[u8], out: &mut [u8]) -> usize
    ensures { result ≤ length out.new }
{
    let mut rest = coded;
    let mut to = 0;
    while let Some((head, after)) = rest.split_at_checked(4) {
        let len = deck::word(head, 0);
        let Some(piece) = after.get(..len) else {
            return to;
        };
        to = repeat(piece, deck::word(head, 2), out, to);
        rest = &after[len..];
    }
    to
}

// ---- marks and room

// A number, 0 or 1: so the exported calls take a yes or no.
pub fn is_on(marks: usize, bit: usize) -> usize
    requires { 0 < bit }
{
    marks / bit % 2
}

// A byte that is nowhere else, all over the output.
pub fn fill(out: &mut [u8]) {
    out.fill(0xaa);
}
