// The changed test: whether the file that a node is in changed at or below it, and which changed files stand there. A node's children stand
// after it in the deck, so both walks recurse on them.
#![tactic(auto)]

ghost use Rattle.std.specs.Prelude.{◌≡◌, not, ◌&&◌, ◌<◌, ◌≤◌, length};
ghost use Rattle.node.specs.Head.{there};
ghost use Rattle.spot.specs.Spot.{count_in, spot_at};
ghost use Rattle.modified.specs.Local.{kids_in, turned, Starts, Looks, Changed};
ghost use Rattle.modified.specs.Files.{file_named, Files, Owns, Counts, CountsAll};

use deck::is_marked;
use definition::Cursor;
use spot::Body;

// A node's children that are to be looked at: pairs or items, how many nodes, and where the first one stands.
#[derive(Clone, Copy)]
struct Start {
    pairs: bool,
    kids: usize,
    next: Cursor,
}

// The changed files at a node, and the children that are left to look at.
#[derive(Clone, Copy)]
struct Own {
    count: usize,
    kids: usize,
    next: Cursor,
}

// How many changed files stand at and below a node, and where it ends.
#[derive(Clone, Copy)]
pub struct Counted {
    pub count: usize,
    pub next: Cursor,
}

// How many nodes are a node's children.
fn kids(body: &Body) -> usize
    requires { count_in body.now < 65536 }
    ensures { result ≡ kids_in body.now }
{
    match body {
        Body::Sequence(g) => g.count,
        Body::Mapping(g) => 2 * g.count,
        _ => 0,
    }
}

// The next child is a key.
#[tactic(auto, unfolding(crate::specs::Local::turned))]
fn turn(pairs: bool, key: bool) -> bool
    ensures { result ≡ turned pairs key }
{
    pairs && !key
}

// An included node that is no key is a file of its own.
fn is_passed(key: bool, origin: Option<Cursor>) -> bool
    ensures { result ≡ (not key && there origin) }
{
    !key && origin.is_some()
}

// The children that say whether a node changed. None: its own mark says that it did.
fn begin(deck: &[u8], c: Cursor, key: bool) -> Option<Start>
    requires { c.at ≤ length deck.now }
    ensures { Starts deck.now c key result }
{
    let x = spot::spot_at(deck, c);
    if is_passed(key, x.lead.origin) {
        return Some(Start {
            pairs: false,
            kids: 0,
            next: node::subtree_end(deck, c),
        });
    }
    if is_marked(x.lead.lines.marks, 1) {
        return None;
    }
    Some(Start {
        pairs: x.body.is_mapping(),
        kids: kids(&x.body),
        next: x.next,
    })
}

// The changed test of a key, or of an item or a value: where a node ends that did not change. None: it changed. It stops at the first mark
// that it meets.
fn look(deck: &[u8], c: Cursor, key: bool) -> Option<Cursor>
    requires { c.at ≤ length deck.now }
    ensures { Looks deck.now c key result }
{
    let start = begin(deck, c, key)?;
    let mut here = start.next;
    let mut key_here = start.pairs;
    for _ in 0..start.kids {
        here = look(deck, here, key_here)?;
        key_here = turn(start.pairs, key_here);
    }
    Some(here)
}

// `local_modified`
pub fn local_modified(deck: &[u8], c: Cursor) -> bool
    requires { c.at ≤ length deck.now }
    ensures { Changed deck.now c result }
{
    look(deck, c, true).is_none()
}

// The file of an include that may be absent.
fn file_named(deck: &[u8], origin: Option<Cursor>) -> Option<usize>
    ensures { result ≡ file_named deck.now origin }
{
    let include = deck::include_in(deck, origin?.at);
    include.file
}

// The file of the node at a cursor, given the node's include.
fn file_of(deck: &[u8], c: Cursor, origin: Option<Cursor>) -> Option<usize>
    requires { (c.at ≤ length deck.now) × (origin ≡ (spot_at deck.now c).lead.origin) }
    ensures { Files deck.now c result }
{
    let id = file_named(deck, origin)?;
    local_modified(deck, c).then_some(id)
}

// The id of the file that the node at a cursor is, if it is one and changed.
pub fn file_at(deck: &[u8], c: Cursor) -> Option<usize>
    requires { c.at ≤ length deck.now }
    ensures { Files deck.now c result }
{
    let x = spot::spot_at(deck, c);
    file_of(deck, c, x.lead.origin)
}

// The changed files at a node.
fn count_own(deck: &[u8], c: Cursor) -> Own
    requires { (c.at ≤ length deck.now) × (length deck.now ≤ 65536) }
    ensures { Owns deck.now c result }
{
    let x = spot::spot_at(deck, c);
    let file = file_of(deck, c, x.lead.origin);
    Own {
        count: usize::from(file.is_some()),
        kids: kids(&x.body),
        next: x.next,
    }
}

// How many changed files stand at and below a node.
pub fn count_changed(deck: &[u8], c: Cursor) -> Counted
    requires { (c.at ≤ length deck.now) × (length deck.now ≤ 65536) }
    ensures { Counts deck.now c result }
{
    let own = count_own(deck, c);
    let mut count = own.count;
    let mut here = own.next;
    for _ in 0..own.kids {
        let child = count_changed(deck, here);
        count += child.count;
        here = child.next;
    }
    Counted { count, next: here }
}

// How many changed files a deck has.
pub fn count_all(deck: &[u8]) -> usize
    requires { length deck.now ≤ 65536 }
    ensures { CountsAll deck.now result }
{
    let mut count = 0;
    let mut here = Cursor { at: 0 };
    for _ in 0..deck.len() {
        if deck.len() <= here.at {
            return count;
        }
        let below = count_changed(deck, here);
        count += below.count;
        here = below.next;
    }
    count
}
