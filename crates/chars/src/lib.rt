// Printability of a character, by a match over ranges of its number.
#![tactic(auto)]

ghost use Rattle.std.specs.Prelude.{◌≡◌};
ghost use Rattle.definition.specs.Char.{non_printable};

// `is_non_printable`.
#[tactic(auto, unfolding(definition::specs::Char::non_printable, definition::specs::Base::within))]
pub fn is_non_printable(c: u32) -> bool
    ensures { result ≡ non_printable c }
{
    matches!(
        c,
        0x00..=0x08 | 0x0b..=0x0c | 0x0e..=0x1f
            | 0x7f..=0x84 | 0x86..=0x9f
            | 0xfffe..=0xffff
    )
}
