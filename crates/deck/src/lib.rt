// Reading a deck, totally: past the deck's end a byte is 0, an unknown kind reads as null, and the cursor after a record is never past the end.
#![tactic(auto)]

ghost use Rattle.std.specs.Prelude.{◌≡◌, ◌+◌, ◌<◌, ◌≤◌, ◌^◌, min, length, take, drop};
ghost use Rattle.definition.specs.Records.{byte_at, word_at, text_at, file_at, include_at, heading_at, trailer_at, lines_at, words_at, group_at, record_of, kind_at, record_at, size_of};
ghost use Rattle.definition.specs.Deck.{is_node, words, marked};
ghost use Rattle.deck.specs.Next.{next_of, Referred, Within};
ghost use Rattle.deck.specs.Kids.{kids_of};

use definition::{
    Cursor, Form, Group, Heading, Include, Lines, Record, Side, Style, Text, Trailer, Words,
};

// A record, and the cursor after it.
#[derive(Clone, Copy)]
pub struct Entry {
    pub item: Record,
    pub next: Cursor,
}

// A reference, and the cursor after it.
#[derive(Clone, Copy)]
pub struct Reference {
    pub text: Text,
    pub next: Cursor,
}

#[tactic(auto, unfolding(definition::specs::Records::byte_at))]
pub fn byte(deck: &[u8], at: usize) -> usize
    ensures { (result ≡ byte_at deck.now at) × (result < 256) }
{
    deck.get(at).map_or(0, |b| usize::from(*b))
}

// The number of two bytes, low byte first. One test does for both, but at the deck's end.
#[tactic(auto, unfolding(definition::specs::Records::byte_at, definition::specs::Records::word_at))]
pub fn word(deck: &[u8], at: usize) -> usize
    requires { at < 2 ^ 63 + 32 }
    ensures { (result ≡ word_at deck.now at) × (result < 65536) }
{
    let high = at + 1;
    if high < deck.len() {
        usize::from(deck[at]) + 256 * usize::from(deck[high])
    } else {
        byte(deck, at)
    }
}

// The reference at a cursor. No other function reads one.
#[tactic(auto, unfolding(definition::specs::Records::text_at))]
fn text_at(deck: &[u8], c: Cursor) -> Reference
    requires { c.at < 2 ^ 63 + 16 }
    ensures { Referred deck.now c result }
{
    let from = word(deck, c.at);
    let len = word(deck, c.at + 2);
    Reference {
        text: Text { from, len },
        next: Cursor { at: c.at + 4 },
    }
}

// The file id of an include: ignored where the byte before it says that it is absent.
#[tactic(auto, unfolding(definition::specs::Records::file_at))]
fn file_at(deck: &[u8], c: Cursor) -> Option<usize>
    requires { c.at ≤ length deck.now + 12 }
    ensures { result ≡ file_at deck.now c.at }
{
    match byte(deck, c.at) {
        0 => None,
        _ => Some(word(deck, c.at + 1) + 65536 * word(deck, c.at + 3)),
    }
}

#[tactic(auto, unfolding(definition::specs::Records::include_at))]
fn include_at(deck: &[u8], c: Cursor) -> Include
    requires { c.at ≤ length deck.now + 4 }
    ensures { result ≡ include_at deck.now c.at }
{
    let tag = text_at(deck, c);
    let target = text_at(deck, tag.next);
    Include {
        tag: tag.text,
        target: target.text,
        file: file_at(deck, target.next),
    }
}

#[tactic(auto, unfolding(definition::specs::Records::heading_at))]
pub fn heading_at(deck: &[u8], c: Cursor) -> Heading
    requires { c.at < 2 ^ 63 + 8 }
    ensures { result ≡ heading_at deck.now c.at }
{
    let Reference { text, next } = text_at(deck, c);
    Heading {
        text,
        side: Side::from(byte(deck, next.at)),
    }
}

#[tactic(auto, unfolding(definition::specs::Records::trailer_at))]
fn trailer_at(deck: &[u8], c: Cursor) -> Trailer
    requires { c.at ≤ length deck.now + 4 }
    ensures { result ≡ trailer_at deck.now c.at }
{
    let Reference { text, next } = text_at(deck, c);
    Trailer {
        text,
        spaces: byte(deck, next.at),
    }
}

#[tactic(auto, unfolding(definition::specs::Records::lines_at))]
pub fn lines_at(deck: &[u8], c: Cursor) -> Lines
    requires { c.at ≤ length deck.now + 4 }
    ensures { result ≡ lines_at deck.now c.at }
{
    Lines {
        blank: byte(deck, c.at),
        pad: byte(deck, c.at + 1),
        column: word(deck, c.at + 2),
        marks: byte(deck, c.at + 4),
    }
}

#[tactic(auto, unfolding(definition::specs::Records::words_at))]
pub fn words_at(deck: &[u8], c: Cursor) -> Words
    requires { c.at ≤ length deck.now + 4 }
    ensures { result ≡ words_at deck.now c.at }
{
    let Reference { text, next } = text_at(deck, c);
    Words {
        text,
        style: Style::from(byte(deck, next.at)),
    }
}

#[tactic(auto, unfolding(definition::specs::Records::group_at))]
pub fn group_at(deck: &[u8], c: Cursor) -> Group
    requires { c.at ≤ length deck.now + 4 }
    ensures { result ≡ group_at deck.now c.at }
{
    Group {
        form: Form::from(byte(deck, c.at)),
        count: word(deck, c.at + 1),
    }
}

// The reference alone.
pub fn text_only(deck: &[u8], c: Cursor) -> Text
    requires { c.at < 2 ^ 63 + 16 }
    ensures { result ≡ text_at deck.now c.at }
{
    text_at(deck, c).text
}

// The cursor at a place, or at the deck's end if the place is past it: the same is read there.
fn within(deck: &[u8], at: usize) -> Cursor
    ensures { Within deck.now at result }
{
    Cursor {
        at: at.min(deck.len()),
    }
}

// What stands at any place, where a body of that sort begins there.
pub fn text_in(deck: &[u8], at: usize) -> Text
    ensures { result ≡ text_at deck.now at }
{
    text_only(deck, within(deck, at))
}

pub fn trailer_in(deck: &[u8], at: usize) -> Trailer
    ensures { result ≡ trailer_at deck.now at }
{
    trailer_at(deck, within(deck, at))
}

pub fn include_in(deck: &[u8], at: usize) -> Include
    ensures { result ≡ include_at deck.now at }
{
    include_at(deck, within(deck, at))
}

// The record of a kind whose body starts at a cursor.
#[tactic(auto, unfolding(definition::specs::Records::record_of))]
fn record_of(kind: usize, deck: &[u8], c: Cursor) -> Record
    requires { c.at ≤ length deck.now + 4 }
    ensures { result ≡ record_of kind deck.now c.at }
{
    match kind {
        0x01 => Record::Tag(text_only(deck, c)),
        0x02 => Record::Anchor(text_only(deck, c)),
        0x03 => Record::Source(include_at(deck, c)),
        0x04 => Record::Head(heading_at(deck, c)),
        0x05 => Record::Inline(trailer_at(deck, c)),
        0x06 => Record::Foot(text_only(deck, c)),
        0x07 => Record::Raw(text_only(deck, c)),
        0x08 => Record::Directive(text_only(deck, c)),
        0x09 => Record::Layout(lines_at(deck, c)),
        0x21 => Record::Scalar(words_at(deck, c)),
        0x22 => Record::Alias(text_only(deck, c)),
        0x23 => Record::Sequence(group_at(deck, c)),
        0x24 => Record::Mapping(group_at(deck, c)),
        _ => Record::Null,
    }
}

// The bytes of a record, its kind byte too: none of an unknown kind.
#[tactic(auto, unfolding(definition::specs::Records::size_of))]
pub fn size_of(kind: usize) -> usize
    ensures { (result ≡ size_of kind) × (result ≤ 14) }
{
    match kind {
        0x01 | 0x02 | 0x06..=0x08 | 0x22 => 5,
        0x04 | 0x05 | 0x09 | 0x21 => 6,
        0x03 => 14,
        0x20 => 1,
        0x23 | 0x24 => 4,
        _ => 0,
    }
}

// The kind of the record at a cursor.
#[tactic(auto, unfolding(definition::specs::Records::kind_at))]
pub fn kind(deck: &[u8], c: Cursor) -> usize
    ensures { (result ≡ kind_at deck.now c) × (result < 256) }
{
    byte(deck, c.at)
}

// The cursor so many bytes after another, and never past the end.
fn further(deck: &[u8], c: Cursor, size: usize) -> Cursor
    requires { (c.at ≤ length deck.now) × (size ≤ 14) }
    ensures { result ≡ record { at = min (c.at + size) (length deck.now) } }
{
    Cursor {
        at: (c.at + size).min(deck.len()),
    }
}

// The cursor after the record at a cursor, and never past the end. Before most nodes stands a record 09: that kind is asked for by itself, so that
// the machine goes on by a guess, and does not wait until a size was looked up.
#[tactic(auto, unfolding(crate::specs::Next::next_of, definition::specs::Records::past), using(crate::proofs::Laws::size_of_layout))]
pub fn next(deck: &[u8], c: Cursor) -> Cursor
    requires { c.at ≤ length deck.now }
    ensures { (result ≡ next_of deck.now c) × (result.at ≤ length deck.now) }
{
    let k = kind(deck, c);
    if k == 0x09 {
        return further(deck, c, 6);
    }
    further(deck, c, size_of(k))
}

// The record at a cursor, and the cursor after it.
#[tactic(auto, unfolding(definition::specs::Records::record_at))]
pub fn read(deck: &[u8], c: Cursor) -> Entry
    requires { c.at ≤ length deck.now }
    ensures { (result.item ≡ record_at deck.now c) × (result.next ≡ next_of deck.now c) }
{
    let body = Cursor { at: c.at + 1 };
    Entry {
        item: record_of(kind(deck, c), deck, body),
        next: next(deck, c),
    }
}

// Whether the record at a cursor is a node's own.
#[tactic(auto, using(crate::proofs::Laws::leads, crate::proofs::Laws::owns_low, crate::proofs::Laws::owns_high))]
pub fn is_node(deck: &[u8], c: Cursor) -> bool
    ensures { result ≡ is_node (record_at deck.now c) }
{
    !matches!(kind(deck, c), 0x01..=0x09)
}

// How many nodes follow the record at a cursor as its children.
#[tactic(auto, using(crate::proofs::Laws::kids_sequence, crate::proofs::Laws::kids_mapping, crate::proofs::Laws::kids_other))]
pub fn kids(deck: &[u8], c: Cursor) -> usize
    requires { c.at ≤ length deck.now }
    ensures { (result ≡ kids_of (record_at deck.now c)) × (result < 131072) }
{
    match kind(deck, c) {
        0x23 => word(deck, c.at + 2),
        0x24 => 2 * word(deck, c.at + 2),
        _ => 0,
    }
}

// The bytes that a reference gives: fewer than its length, where the pool ends before.
#[tactic(auto, unfolding(definition::specs::Deck::words))]
pub fn words_of(pool: &[u8], t: Text) -> &[u8]
    ensures { result.now ≡ words pool.now t }
{
    let rest = &pool[t.from.min(pool.len())..];
    &rest[..t.len.min(rest.len())]
}

// A mark of the layout record.
#[tactic(auto, unfolding(definition::specs::Deck::marked))]
pub fn is_marked(marks: usize, m: usize) -> bool
    requires { 0 < m }
    ensures { result ≡ marked marks m }
{
    (marks / m) % 2 == 1
}
