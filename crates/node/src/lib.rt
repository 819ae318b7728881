// What a node's leading records say, its own record's cursor, and where its subtree ends. Total: nothing is asked of the deck's bytes.
#![tactic(auto)]

ghost use Rattle.std.specs.Prelude.{◌≡◌, ◌+◌, ◌<◌, ◌≤◌, ◌^◌, length};
ghost use Rattle.definition.specs.Records.{record_at};
ghost use Rattle.node.specs.Head.{no_lead, onto, add_to, Small, front_of, head_at};
ghost use Rattle.node.specs.Ends.{Ends, left_after, Still};
ghost use Rattle.node.specs.Comments.{is_comment, commented};

use definition::{Cursor, Lines};

// Records of one kind, one after another: the first one's cursor, and how many they are.
#[derive(Clone, Copy)]
pub struct Run {
    pub first: Cursor,
    pub count: usize,
}

// What records 01 to 09 say. Of a record that may be absent it has the cursor of the body.
#[derive(Clone, Copy)]
pub struct Lead {
    pub tag: Option<Cursor>,
    pub anchor: Option<Cursor>,
    pub origin: Option<Cursor>,
    pub heads: Run,
    pub remark: Option<Cursor>,
    pub foots: Run,
    pub raw: Option<Cursor>,
    pub directives: Run,
    pub lines: Lines,
}

// What a node's leading records say, and the cursor of its own record.
#[derive(Clone, Copy)]
pub struct Front {
    pub lead: Lead,
    pub own: Cursor,
}

// No leading records.
fn no_lead() -> Lead
    ensures { result ≡ no_lead }
{
    let run = Run {
        first: Cursor { at: 0 },
        count: 0,
    };
    let lines = Lines {
        blank: 0,
        pad: 0,
        column: 0,
        marks: 0,
    };
    Lead {
        tag: None,
        anchor: None,
        origin: None,
        heads: run,
        remark: None,
        foots: run,
        raw: None,
        directives: run,
        lines,
    }
}

// One record more of a run: the first cursor stays.
fn one_more(r: Run, c: Cursor) -> Run
    requires { r.count ≤ 2 ^ 63 }
    ensures { result ≡ onto r c }
{
    let count = r.count;
    if count == 0 {
        return Run { first: c, count: 1 };
    }
    Run {
        count: count + 1,
        ..r
    }
}

// What the record at a cursor adds.
fn with_record(deck: &[u8], lead: Lead, c: Cursor) -> Lead
    requires { (c.at ≤ length deck.now) × Small (2 ^ 63) lead }
    ensures { result ≡ add_to (record_at deck.now c) c lead }
{
    let body = Cursor { at: c.at + 1 };
    match deck::kind(deck, c) {
        0x01 => Lead {
            tag: Some(body),
            ..lead
        },
        0x02 => Lead {
            anchor: Some(body),
            ..lead
        },
        0x03 => Lead {
            origin: Some(body),
            ..lead
        },
        0x04 => Lead {
            heads: one_more(lead.heads, c),
            ..lead
        },
        0x05 => Lead {
            remark: Some(body),
            ..lead
        },
        0x06 => Lead {
            foots: one_more(lead.foots, c),
            ..lead
        },
        0x07 => Lead {
            raw: Some(body),
            ..lead
        },
        0x08 => Lead {
            directives: one_more(lead.directives, c),
            ..lead
        },
        0x09 => Lead {
            lines: deck::lines_at(deck, body),
            ..lead
        },
        _ => lead,
    }
}

// What the leading records of the node at a cursor say, and where its own record is.
pub fn front_at(deck: &[u8], c: Cursor) -> Front
    requires { c.at ≤ length deck.now }
    ensures { result ≡ front_of (head_at deck.now c) }
{
    let mut lead = no_lead();
    let mut here = c;
    for _ in 0..deck.len() {
        if deck::is_node(deck, here) {
            return Front { lead, own: here };
        }
        lead = with_record(deck, lead, here);
        here = deck::next(deck, here);
    }
    Front { lead, own: here }
}

// The record at a cursor is a head, inline or foot comment.
fn is_comment(deck: &[u8], c: Cursor) -> bool
    ensures { result ≡ is_comment (record_at deck.now c) }
{
    matches!(deck::kind(deck, c), 0x04..=0x06)
}

// `node_has_comments`: a leading record of the node at a cursor is a comment.
pub fn has_comments(deck: &[u8], c: Cursor) -> bool
    requires { c.at ≤ length deck.now }
    ensures { result ≡ commented (head_at deck.now c).lead }
{
    let mut here = c;
    for _ in 0..deck.len() {
        if deck::is_node(deck, here) {
            return false;
        }
        if is_comment(deck, here) {
            return true;
        }
        here = deck::next(deck, here);
    }
    false
}

// How many trees are left to look over after the record at a cursor: a node's own record ends a tree, and its children are so many more.
fn left_after(deck: &[u8], c: Cursor, left: usize) -> usize
    requires { (c.at ≤ length deck.now) × (0 < left) × (left < 2 ^ 62) }
    ensures { (result ≡ left_after (record_at deck.now c) left) × (result < left + 131072) }
{
    if deck::is_node(deck, c) {
        return left - 1 + deck::kids(deck, c);
    }
    left
}

// No node of n trees has comments, at any depth: these are looked over record by record, up to the first comment.
pub fn is_still(deck: &[u8], c: Cursor, n: usize) -> bool
    requires { (c.at ≤ length deck.now) × (length deck.now ≤ 65536) × (n < 2 ^ 32) }
    ensures { Still deck.now n c result }
{
    let mut here = c;
    let mut left = n;
    while left > 0 {
        if is_comment(deck, here) {
            return false;
        }
        left = left_after(deck, here, left);
        here = deck::next(deck, here);
    }
    true
}

// Where the own record of the node at a cursor stands.
fn own_at(deck: &[u8], c: Cursor) -> Cursor
    requires { c.at ≤ length deck.now }
    ensures { result ≡ (head_at deck.now c).place }
{
    let mut here = c;
    for _ in 0..deck.len() {
        if deck::is_node(deck, here) {
            return here;
        }
        here = deck::next(deck, here);
    }
    here
}

// Where the subtree at a cursor ends. A node's children stand after it in the deck, so it recurses on them.
pub fn subtree_end(deck: &[u8], c: Cursor) -> Cursor
    requires { c.at ≤ length deck.now }
    ensures { Ends deck.now c result }
{
    let own = own_at(deck, c);
    let mut here = deck::next(deck, own);
    for _ in 0..deck::kids(deck, own) {
        here = subtree_end(deck, here);
    }
    here
}
