// Whether a text is written as a literal block. The emitter does not ask it: a node has its style. It is there for builders of trees.
#![tactic(auto)]

ghost use Rattle.std.specs.Prelude.{◌≡◌, true, not, eqb};
ghost use Rattle.std.specs.List.{find};
ghost use Rattle.definition.specs.Base.{has};
ghost use Rattle.definition.specs.Ascii.{LF};
ghost use Rattle.definition.specs.Utf8.{well_formed};
ghost use Rattle.definition.specs.Block.{leads_blank, use_literal_block};
ghost use Rattle.laws.specs.Places.{any_at};
ghost use Rattle.literal.specs.Unfit.{unfit_at};

use chars::is_non_printable;
use laws::any_place;
use pieces::{is_c1, is_non};

// The text has a line break.
#[tactic(auto, using(crate::proofs::Laws::has_by))]
fn has_break(t: &[u8]) -> bool
    ensures { result ≡ has LF t.now }
{
    t.contains(&b'\n')
}

// A literal block cannot hold the byte `a`, with `b` and `c` after it.
#[tactic(auto, unfolding(crate::specs::Unfit::unfit_at, laws::specs::Pieces::non_printable_at))]
fn is_unfit(a: u8, b: u8, c: u8) -> bool
    ensures { result ≡ unfit_at a b c }
{
    match a {
        b'\r' => true,
        0x00..=0x7f => is_non_printable(u32::from(a)),
        _ => is_c1(a, b) || is_non(a, b, c),
    }
}

// The text has something that a literal block cannot hold.
fn has_unfit(t: &[u8]) -> bool
    ensures { result ≡ any_at unfit_at t.now }
{
    any_place(t, 0, is_unfit)
}

// The first byte that is no line break.
fn first_of_line(t: &[u8]) -> Option<u8>
    ensures { result ≡ find (λ b. not (eqb b LF)) t.now }
{
    t.iter().copied().find(|b| *b != b'\n')
}

// The first line that is not empty begins with a space or a tab.
#[tactic(auto, using(crate::proofs::Laws::leads_space, crate::proofs::Laws::leads_tab, crate::proofs::Laws::leads_other, crate::proofs::Laws::leads_not))]
fn leads_blank(t: &[u8]) -> bool
    ensures { result ≡ leads_blank t.now }
{
    matches!(first_of_line(t), Some(b' ' | b'\t'))
}

// `use_literal_block`.
#[tactic(auto, using(crate::proofs::Laws::together))]
pub fn use_literal_block(t: &[u8]) -> bool
    requires { well_formed t.now ≡ true }
    ensures { result ≡ use_literal_block t.now }
{
    has_break(t) && !has_unfit(t) && !leads_blank(t)
}
