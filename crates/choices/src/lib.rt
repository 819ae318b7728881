// The walk's tests on a node, and the columns that it chooses, from what the emitter takes of the node.
#![tactic(auto)]

ghost use Rattle.std.specs.Prelude.{◌≡◌, not, ◌&&◌, ◌||◌, ◌+◌, ◌<◌, ◌≤◌, ◌^◌, length};
ghost use Rattle.definition.specs.Base.{is_nil};
ghost use Rattle.definition.specs.Settings.{step_of, is_empty_style};
ghost use Rattle.definition.specs.Deck.{words, marked};
ghost use Rattle.definition.specs.Walk.{is_block_form, is_block_style, is_plain};
ghost use Rattle.node.specs.Head.{there};
ghost use Rattle.choices.specs.Choices.{block_group, block_in, sequence_in, none_in, empty_in, needs_in, explicit_in, included_in, edited_in, bare_in, flush_in, value_column_in, item_column_in, on_dash_line_in, root_column_in, bare_root_in};
ghost use Rattle.choices.specs.Siblings.{Some};

use atoms::is_block_style;
use deck::is_marked;
use definition::{Cursor, Form, Group, Lines, NullStyle, Settings, Style, Words};
use given::Given;
use node::Lead;
use parts::is_either;
use spot::{Body, Spot};

// A block collection that is not empty.
#[tactic(auto, unfolding(crate::specs::Choices::block_group, definition::specs::Walk::is_block_form, atoms::specs::Atoms::on))]
fn is_block_group(g: &Group) -> bool
    ensures { result ≡ block_group g.now }
{
    g.form == Form::Block && g.count != 0
}

#[tactic(auto, unfolding(crate::specs::Choices::block_in))]
pub fn is_block(body: &Body) -> bool
    ensures { result ≡ block_in body.now }
{
    match body {
        Body::Sequence(g) | Body::Mapping(g) => is_block_group(g),
        _ => false,
    }
}

#[tactic(auto, unfolding(crate::specs::Choices::sequence_in))]
fn is_sequence(body: &Body) -> bool
    ensures { result ≡ sequence_in body.now }
{
    matches!(body, Body::Sequence(_))
}

#[tactic(auto, unfolding(crate::specs::Choices::none_in))]
fn is_null(body: &Body) -> bool
    ensures { result ≡ none_in body.now }
{
    matches!(body, Body::Null)
}

#[tactic(auto, unfolding(definition::specs::Walk::is_plain, definition::specs::Base::is_nil))]
fn is_empty_plain(pool: &[u8], said: &Words) -> bool
    ensures { result ≡ (is_plain said.now.style && is_nil (words pool.now said.now.text)) }
{
    said.style == Style::Plain && deck::words_of(pool, said.text).is_empty()
}

// A null, or a plain scalar of no bytes.
#[tactic(auto, unfolding(crate::specs::Choices::empty_in))]
fn is_empty_scalar(body: &Body, pool: &[u8]) -> bool
    ensures { result ≡ empty_in pool.now body.now }
{
    match body {
        Body::Null => true,
        Body::Scalar(said) => is_empty_plain(pool, said),
        _ => false,
    }
}

// `key_needs_explicit`
#[tactic(auto, unfolding(crate::specs::Choices::needs_in))]
fn needs_explicit(lines: &Lines, body: &Body) -> bool
    ensures { result ≡ needs_in lines.now body.now }
{
    let marked = is_marked(lines.marks, 16);
    match body {
        Body::Null => false,
        Body::Scalar(said) => marked || is_block_style(said.style),
        Body::Alias(_) => marked,
        Body::Sequence(g) | Body::Mapping(g) => is_block_group(g),
    }
}

// A key is written with `?`; `first` is the first key of its mapping.
#[tactic(auto, unfolding(crate::specs::Choices::explicit_in))]
pub fn is_explicit(first: bool, x: &Spot) -> bool
    ensures { result ≡ explicit_in first x.now.lead x.now.body }
{
    let lead = &x.lead;
    if needs_explicit(&lead.lines, &x.body) {
        return true;
    }
    !first && is_marked(lead.lines.marks, 8) && is_either(lead.tag, lead.anchor)
}

// A null that was edited in.
#[tactic(auto, unfolding(crate::specs::Choices::edited_in))]
fn is_edited(x: &Spot) -> bool
    ensures { result ≡ edited_in x.now.lead.lines x.now.body }
{
    is_marked(x.lead.lines.marks, 8) && is_null(&x.body)
}

#[tactic(auto, unfolding(definition::specs::Settings::is_empty_style))]
fn is_silent(settings: &Settings, x: &Spot) -> bool
    ensures { result ≡ (not (there x.now.lead.remark) && (not (edited_in x.now.lead.lines x.now.body) || is_empty_style settings.now.null_style)) }
{
    if x.lead.remark.is_some() {
        return false;
    }
    !is_edited(x) || settings.null_style == NullStyle::Empty
}

// A null or an empty plain scalar of which nothing is written after its introducer.
#[tactic(auto, unfolding(crate::specs::Choices::bare_in))]
pub fn bare(given: &Given, x: &Spot) -> bool
    ensures { result ≡ bare_in given.now.settings given.now.pool.now x.now.lead.lines x.now.lead.remark x.now.body }
{
    is_empty_scalar(&x.body, given.pool) && is_silent(&given.settings, x)
}

// Columns of one step: 0 means 2.
#[tactic(auto, unfolding(definition::specs::Settings::step_of))]
pub fn step_of(settings: &Settings) -> usize
    ensures { (result ≡ step_of settings.now) × (settings.now.indent ≤ 16 → result ≤ 16) }
{
    let step = settings.indent;
    if step == 0 {
        return 2;
    }
    step
}

// A sequence stands at its key's column.
#[tactic(auto, unfolding(crate::specs::Choices::flush_in))]
fn is_flush(settings: &Settings, lead: &Lead, i: usize) -> bool
    ensures { result ≡ flush_in settings.now lead.now.lines lead.now.tag i }
{
    if settings.indent_sequences {
        return settings.indentless && lead.tag.is_none();
    }
    lead.lines.column <= i
}

// The column of a block collection's body after a key at column i.
#[tactic(auto, unfolding(crate::specs::Choices::value_column_in))]
pub fn value_column(settings: &Settings, x: &Spot, i: usize) -> usize
    requires { (i < 2 ^ 40) × (settings.now.indent ≤ 16) }
    ensures { (result ≡ value_column_in settings.now x.now.lead.lines x.now.lead.tag i x.now.body) × (i ≤ result) × (result ≤ i + 16) }
{
    if is_sequence(&x.body) && is_flush(settings, &x.lead, i) {
        return i;
    }
    i + step_of(settings)
}

// The column of a block collection's body after a dash at column i.
#[tactic(auto, unfolding(crate::specs::Choices::item_column_in))]
pub fn item_column(settings: &Settings, x: &Spot, i: usize) -> usize
    requires { (i < 2 ^ 40) × (settings.now.indent ≤ 16) }
    ensures { (result ≡ item_column_in settings.now x.now.lead.tag x.now.lead.anchor i x.now.body) × (i ≤ result) × (result ≤ i + 16) }
{
    if is_either(x.lead.tag, x.lead.anchor) && !is_sequence(&x.body) {
        return i + step_of(settings);
    }
    i + 2
}

// A block collection goes on its dash's line.
#[tactic(auto, unfolding(crate::specs::Choices::on_dash_line_in))]
pub fn on_dash_line(x: &Spot) -> bool
    ensures { result ≡ on_dash_line_in x.now.lead.lines x.now.lead.tag x.now.lead.anchor x.now.lead.remark x.now.body }
{
    let lead = &x.lead;
    if is_either(lead.tag, lead.anchor) {
        return false;
    }
    if is_sequence(&x.body) {
        return is_marked(lead.lines.marks, 4);
    }
    !(lead.remark.is_some() || is_marked(lead.lines.marks, 2))
}

fn is_tagged(lead: &Lead) -> bool
    ensures { result ≡ (marked lead.now.lines.marks 8 && there lead.now.tag) }
{
    is_marked(lead.lines.marks, 8) && lead.tag.is_some()
}

// The body of a root collection stands a step in: under a tag of its own, unless its dashes are flush.
fn is_under_tag(settings: &Settings, x: &Spot) -> bool
    ensures { result ≡ (marked x.now.lead.lines.marks 8 && there x.now.lead.tag && not (sequence_in x.now.body && settings.now.indentless)) }
{
    is_tagged(&x.lead) && !(is_sequence(&x.body) && settings.indentless)
}

// The column of a root collection's body.
#[tactic(auto, unfolding(crate::specs::Choices::root_column_in))]
pub fn root_column(settings: &Settings, x: &Spot) -> usize
    ensures { (result ≡ root_column_in settings.now x.now.lead.lines x.now.lead.tag x.now.body) × (settings.now.indent ≤ 16 → result ≤ 16) }
{
    if is_under_tag(settings, x) {
        return step_of(settings);
    }
    0
}

// A root null of which only the tag is written.
#[tactic(auto, unfolding(crate::specs::Choices::bare_root_in, definition::specs::Settings::is_empty_style))]
pub fn bare_root(settings: &Settings, x: &Spot) -> bool
    ensures { result ≡ bare_root_in settings.now x.now.lead.lines x.now.lead.remark x.now.lead.tag x.now.lead.anchor x.now.body }
{
    let lead = &x.lead;
    if is_null(&x.body) && is_tagged(lead) {
        return lead.remark.is_none()
            && lead.anchor.is_none()
            && settings.null_style == NullStyle::Empty;
    }
    false
}

// Some of n nodes that stand one after another have comments. Where the last one ends is not looked for.
pub fn some_comments(deck: &[u8], c: Cursor, n: usize) -> bool
    requires { c.at ≤ length deck.now }
    ensures { Some deck.now c n result }
{
    if n == 0 {
        return false;
    }
    let mut here = c;
    for _ in 1..n {
        if node::has_comments(deck, here) {
            return true;
        }
        here = node::subtree_end(deck, here);
    }
    node::has_comments(deck, here)
}
