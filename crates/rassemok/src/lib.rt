// The public calls: one document written, all documents, under a null style or under settings; the changed test. Nothing is asked of the
// caller.
#![tactic(auto, unfolding(definition::specs::Calls::outcome, definition::specs::Settings::plain_settings, writing::specs::Written::written))]

ghost use Rattle.std.specs.Prelude.{◌≡◌, []};
ghost use Rattle.definition.specs.Settings.{null_as, null_style_of};
ghost use Rattle.definition.specs.Calls.{outcome, emit_roundtrip, emit_roundtrip_with, emit_roundtrip_all_with, emit_roundtrip_dump, call_local_modified, collect_changed_include_changes, tell_modified};
ghost use Rattle.told.specs.Outcome.{lent};
ghost use Rattle.answers.specs.Answer.{outcome_of, answer_of};
ghost use Rattle.plan.specs.Collected.{lent_with};
ghost use Rattle.rassemok.specs.Options.{settings_of};

use answers::{Answer, admit, answer_of};
use definition::{Change, Cursor, Fault, NullStyle, Refusal, Settings};

// Settings, as numbers.
#[repr(C)]
#[derive(Clone, Copy)]
pub struct Options {
    pub null_style: usize,
    pub indent_sequences: usize,
    pub explicit_end: usize,
    pub indent: usize,
    pub indentless: usize,
    pub single_quotes: usize,
    pub width: usize,
}

impl From<Options> for Settings {
    ghost from_gives = { λ o s. s ≡ settings_of o };

    #[tactic(auto, unfolding(crate::specs::Options::settings_of, definition::specs::Settings::is_on))]
    fn from(options: Options) -> Self {
        Settings {
            null_style: NullStyle::from(options.null_style),
            indent_sequences: options.indent_sequences != 0,
            explicit_end: options.explicit_end != 0,
            indent: options.indent,
            indentless: options.indentless != 0,
            single_quotes: options.single_quotes != 0,
            width: options.width,
        }
    }
}

pub fn emit_roundtrip(deck: &[u8], pool: &[u8], out: &mut [u8]) -> Answer
    ensures { outcome_of result out.new [] ≡ outcome emit_roundtrip (lent deck.now pool.now out.old) }
{
    let settings = Settings::from(NullStyle::Null);
    writing::write(deck, pool, out, settings, false)
}

pub fn emit_roundtrip_with(
    deck: &[u8],
    pool: &[u8],
    out: &mut [u8],
    null_style: NullStyle,
) -> Answer
    ensures { outcome_of result out.new [] ≡ outcome (emit_roundtrip_with null_style) (lent deck.now pool.now out.old) }
{
    let settings = Settings::from(null_style);
    writing::write(deck, pool, out, settings, false)
}

pub fn emit_roundtrip_all_with(
    deck: &[u8],
    pool: &[u8],
    out: &mut [u8],
    null_style: NullStyle,
) -> Answer
    ensures { outcome_of result out.new [] ≡ outcome (emit_roundtrip_all_with null_style) (lent deck.now pool.now out.old) }
{
    let settings = Settings::from(null_style);
    writing::write(deck, pool, out, settings, true)
}

pub fn emit_roundtrip_dump(deck: &[u8], pool: &[u8], out: &mut [u8], settings: Settings) -> Answer
    ensures { outcome_of result out.new [] ≡ outcome (emit_roundtrip_dump settings) (lent deck.now pool.now out.old) }
{
    writing::write(deck, pool, out, settings, false)
}

// The limits, the judge, and the changed test of the one document.
fn look(deck: &[u8], pool: &[u8]) -> Result<Answer, Refusal>
    ensures { outcome_of (answer_of result) [] [] ≡ tell_modified (lent deck.now pool.now []) }
{
    let settings = Settings::from(NullStyle::Null);
    let documents = admit(deck, pool, 0, 0, &settings)?;
    if documents != 1 {
        return Err(Refusal {
            fault: Fault::Documents,
            place: 0,
        });
    }
    let c = Cursor { at: 0 };
    Ok(Answer {
        number: 0,
        place: 0,
        length: 0,
        count: 0,
        modified: modified::local_modified(deck, c),
    })
}

pub fn local_modified(deck: &[u8], pool: &[u8]) -> Answer
    ensures { outcome_of result [] [] ≡ outcome call_local_modified (lent deck.now pool.now []) }
{
    answer_of(look(deck, pool))
}

// The calls as C and Rust call them: a null style and settings come as numbers. The crate rassemok_c exports them.
pub fn rassemok_emit_roundtrip(deck: &[u8], pool: &[u8], out: &mut [u8]) -> Answer
    ensures { outcome_of result out.new [] ≡ outcome emit_roundtrip (lent deck.now pool.now out.old) }
{
    emit_roundtrip(deck, pool, out)
}

pub fn rassemok_emit_roundtrip_with(
    deck: &[u8],
    pool: &[u8],
    out: &mut [u8],
    null_style: usize,
) -> Answer
    ensures { outcome_of result out.new [] ≡ outcome (emit_roundtrip_with (null_style_of null_style)) (lent deck.now pool.now out.old) }
{
    emit_roundtrip_with(deck, pool, out, NullStyle::from(null_style))
}

pub fn rassemok_emit_roundtrip_all_with(
    deck: &[u8],
    pool: &[u8],
    out: &mut [u8],
    null_style: usize,
) -> Answer
    ensures { outcome_of result out.new [] ≡ outcome (emit_roundtrip_all_with (null_style_of null_style)) (lent deck.now pool.now out.old) }
{
    emit_roundtrip_all_with(deck, pool, out, NullStyle::from(null_style))
}

pub fn rassemok_emit_roundtrip_dump(
    deck: &[u8],
    pool: &[u8],
    out: &mut [u8],
    options: Options,
) -> Answer
    ensures { outcome_of result out.new [] ≡ outcome (emit_roundtrip_dump (settings_of options)) (lent deck.now pool.now out.old) }
{
    emit_roundtrip_dump(deck, pool, out, Settings::from(options))
}

pub fn rassemok_local_modified(deck: &[u8], pool: &[u8]) -> Answer
    ensures { outcome_of result [] [] ≡ outcome call_local_modified (lent deck.now pool.now []) }
{
    local_modified(deck, pool)
}

pub fn rassemok_collect_changed_include_changes(
    deck: &[u8],
    pool: &[u8],
    out: &mut [u8],
    list: &mut [Change],
) -> Answer
    ensures { outcome_of result out.new list.new
        ≡ outcome collect_changed_include_changes (lent_with deck.now pool.now out.old list.old) }
{
    plan::collect(deck, pool, out, list)
}
