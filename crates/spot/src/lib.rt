// A node as the emitter takes it: what its leading records say, what it is, its place, and where its children begin.
#![tactic(auto)]

ghost use Rattle.std.specs.Prelude.{◌≡◌, ◌<◌, ◌≤◌, length};
ghost use Rattle.definition.specs.Records.{record_at};
ghost use Rattle.spot.specs.Spot.{body_of, pairs_in, count_in, spot_at};

use definition::{Cursor, Group, Text, Words};
use node::Lead;

#[derive(Clone, Copy)]
pub enum Body {
    Null,
    Scalar(Words),
    Alias(Text),
    Sequence(Group),
    Mapping(Group),
}

impl Body {
    // A mapping: its members are pairs.
    #[tactic(auto, unfolding(crate::specs::Spot::pairs_in))]
    pub fn is_mapping(&self) -> bool
        ensures { result ≡ pairs_in self.now }
    {
        matches!(self, Body::Mapping(_))
    }

    // How many members a collection has; a leaf has none.
    #[tactic(auto, unfolding(crate::specs::Spot::count_in))]
    pub fn count(&self) -> usize
        ensures { result ≡ count_in self.now }
    {
        match self {
            Body::Sequence(g) | Body::Mapping(g) => g.count,
            _ => 0,
        }
    }
}

#[derive(Clone, Copy)]
pub struct Spot {
    pub lead: Lead,
    pub body: Body,
    pub place: usize,
    pub next: Cursor,
}

// The record at a cursor, as a node's own.
fn body_at(deck: &[u8], c: Cursor) -> Body
    requires { c.at ≤ length deck.now }
    ensures { result ≡ body_of (record_at deck.now c) }
{
    let inside = Cursor { at: c.at + 1 };
    match deck::kind(deck, c) {
        0x21 => Body::Scalar(deck::words_at(deck, inside)),
        0x22 => Body::Alias(deck::text_only(deck, inside)),
        0x23 => Body::Sequence(deck::group_at(deck, inside)),
        0x24 => Body::Mapping(deck::group_at(deck, inside)),
        _ => Body::Null,
    }
}

// The node at a cursor.
pub fn spot_at(deck: &[u8], c: Cursor) -> Spot
    requires { c.at ≤ length deck.now }
    ensures is { result ≡ spot_at deck.now c }
    ensures few { count_in result.body < 65536 }
{
    let front = node::front_at(deck, c);
    let lead = front.lead;
    let own = front.own;
    let body = body_at(deck, own);
    let next = deck::next(deck, own);
    Spot {
        lead,
        body,
        place: own.at,
        next,
    }
}
