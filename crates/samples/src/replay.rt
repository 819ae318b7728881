// The fixed list of cases, replayed through the public calls as C and Rust call them. docs/ORACLE.md has the list's form. A list is any bytes:
// what lies past its end reads as 0, and a case that is cut off is not as expected.
ghost use Rattle.std.specs.Prelude.{◌+◌, ◌≤◌, ◌<◌, ◌^◌, ◌≡◌, length};

use answers::Answer;
use coded::{is_on, long};
use rassemok::Options;

// Calls up to this number are replayed here; the others are counted.
const LAST_CALL: usize = 4;

// How many cases came out as expected, how many did not, and how many are of calls that are not replayed.
#[derive(Clone, Copy)]
pub struct Tally {
    pub good: usize,
    pub bad: usize,
    pub other: usize,
}

// Room for a list; for a deck or pool, and for an output, each one byte over its limit.
pub fn list_room() -> [u8; 262144]
    ensures { 262144 ≡ length result }
{
    [0; 262144]
}

pub fn deck_room() -> [u8; 65537]
    ensures { 65537 ≡ length result }
{
    [0; 65537]
}

pub fn output_room() -> [u8; 1048577]
    ensures { 1048577 ≡ length result }
{
    [0; 1048577]
}

// ---- a case, of which the slice begins with the head

fn options_of(head: &[u8]) -> Options {
    let marks = deck::byte(head, 2);
    Options {
        null_style: deck::byte(head, 1),
        indent_sequences: is_on(marks, 1),
        explicit_end: is_on(marks, 2),
        indent: long(head, 4),
        indentless: is_on(marks, 4),
        single_quotes: is_on(marks, 8),
        width: long(head, 8),
    }
}

fn answer_of(head: &[u8], deck: &[u8], pool: &[u8], out: &mut [u8]) -> Answer {
    let options = options_of(head);
    match deck::byte(head, 0) {
        0 => rassemok::rassemok_emit_roundtrip(deck, pool, out),
        1 => rassemok::rassemok_emit_roundtrip_with(deck, pool, out, options.null_style),
        2 => rassemok::rassemok_emit_roundtrip_all_with(deck, pool, out, options.null_style),
        3 => rassemok::rassemok_emit_roundtrip_dump(deck, pool, out, options),
        _ => rassemok::rassemok_local_modified(deck, pool),
    }
}

// The answer that the case has.
fn wanted(head: &[u8]) -> Answer {
    Answer {
        number: long(head, 36),
        place: long(head, 40),
        length: long(head, 44),
        count: long(head, 48),
        modified: long(head, 52) != 0,
    }
}

// The call on deck and pool gives the answer that the case has, and leaves the output that it has. Where the answer differs, no sum is taken.
fn agrees(head: &[u8], deck: &[u8], pool: &[u8], out: &mut [u8]) -> bool {
    coded::fill(out);
    if answer_of(head, deck, pool, out) != wanted(head) {
        return false;
    }
    let h = coded::hash(out);
    h % 4294967296 == long(head, 56) as u64 && h / 4294967296 == long(head, 60) as u64
}

// Replays the case that a slice begins with.
fn holds(head: &[u8], deck: &mut [u8], pool: &mut [u8], out: &mut [u8]) -> bool {
    let mid = 72 + long(head, 24);
    let end = mid + long(head, 32);
    let room = long(head, 12);
    if end > head.len() || room > out.len() {
        return false;
    }
    let d = coded::expand(&head[72..mid], deck);
    let p = coded::expand(&head[mid..end], pool);
    d == long(head, 20)
        && p == long(head, 28)
        && agrees(head, &deck[..d], &pool[..p], &mut out[..room])
}

// ---- the list

fn counted(t: Tally, head: &[u8], deck: &mut [u8], pool: &mut [u8], out: &mut [u8]) -> Tally
    requires { t.good + t.bad + t.other < 2 ^ 32 }
    ensures { result.good + result.bad + result.other ≡ t.good + t.bad + t.other + 1 }
{
    if deck::byte(head, 0) > LAST_CALL {
        return Tally {
            other: t.other + 1,
            ..t
        };
    }
    if holds(head, deck, pool, out) {
        return Tally {
            good: t.good + 1,
            ..t
        };
    }
    Tally {
        bad: t.bad + 1,
        ..t
    }
}

// Where the case that a slice begins with ends.
fn case_end(head: &[u8]) -> usize
    ensures { result ≤ length head.now }
{
    let end = 72 + long(head, 24) + long(head, 32);
    end.min(head.len())
}

// Every case that the list says it has is counted once.
pub fn replay(list: &[u8], deck: &mut [u8], pool: &mut [u8], out: &mut [u8]) -> Tally
    requires { 4 ≤ length list.now }
    ensures { result.good + result.bad + result.other < 2 ^ 32 }
{
    let mut t = Tally {
        good: 0,
        bad: 0,
        other: 0,
    };
    let mut at = 4;
    for _ in 0..long(list, 0) {
        t = counted(t, &list[at..], deck, pool, out);
        at += case_end(&list[at..]);
    }
    t
}
