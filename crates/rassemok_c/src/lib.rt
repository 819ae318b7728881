// The archive: the calls as C and Rust link them, over the library of the same name. Nothing is asked of the caller.
#![tactic(auto)]

ghost use Rattle.std.specs.Prelude.{◌≡◌, []};
ghost use Rattle.definition.specs.Settings.{null_style_of};
ghost use Rattle.definition.specs.Calls.{outcome, emit_roundtrip, emit_roundtrip_with, emit_roundtrip_all_with, emit_roundtrip_dump, call_local_modified, collect_changed_include_changes};
ghost use Rattle.told.specs.Outcome.{lent};
ghost use Rattle.answers.specs.Answer.{outcome_of};
ghost use Rattle.plan.specs.Collected.{lent_with};
ghost use Rattle.rassemok.specs.Options.{settings_of};

use answers::Answer;
use definition::Change;
use rassemok::Options;

#[unsafe(no_mangle)]
pub extern "C" fn rassemok_emit_roundtrip(deck: &[u8], pool: &[u8], out: &mut [u8]) -> Answer
    ensures { outcome_of result out.new [] ≡ outcome emit_roundtrip (lent deck.now pool.now out.old) }
{
    rassemok::rassemok_emit_roundtrip(deck, pool, out)
}

#[unsafe(no_mangle)]
pub extern "C" fn rassemok_emit_roundtrip_with(
    deck: &[u8],
    pool: &[u8],
    out: &mut [u8],
    null_style: usize,
) -> Answer
    ensures { outcome_of result out.new [] ≡ outcome (emit_roundtrip_with (null_style_of null_style)) (lent deck.now pool.now out.old) }
{
    rassemok::rassemok_emit_roundtrip_with(deck, pool, out, null_style)
}

#[unsafe(no_mangle)]
pub extern "C" fn rassemok_emit_roundtrip_all_with(
    deck: &[u8],
    pool: &[u8],
    out: &mut [u8],
    null_style: usize,
) -> Answer
    ensures { outcome_of result out.new [] ≡ outcome (emit_roundtrip_all_with (null_style_of null_style)) (lent deck.now pool.now out.old) }
{
    rassemok::rassemok_emit_roundtrip_all_with(deck, pool, out, null_style)
}

#[unsafe(no_mangle)]
pub extern "C" fn rassemok_emit_roundtrip_dump(
    deck: &[u8],
    pool: &[u8],
    out: &mut [u8],
    options: Options,
) -> Answer
    ensures { outcome_of result out.new [] ≡ outcome (emit_roundtrip_dump (settings_of options)) (lent deck.now pool.now out.old) }
{
    rassemok::rassemok_emit_roundtrip_dump(deck, pool, out, options)
}

#[unsafe(no_mangle)]
pub extern "C" fn rassemok_local_modified(deck: &[u8], pool: &[u8]) -> Answer
    ensures { outcome_of result [] [] ≡ outcome call_local_modified (lent deck.now pool.now []) }
{
    rassemok::rassemok_local_modified(deck, pool)
}

#[unsafe(no_mangle)]
pub extern "C" fn rassemok_collect_changed_include_changes(
    deck: &[u8],
    pool: &[u8],
    out: &mut [u8],
    list: &mut [Change],
) -> Answer
    ensures { outcome_of result out.new list.new
        ≡ outcome collect_changed_include_changes (lent_with deck.now pool.now out.old list.old) }
{
    rassemok::rassemok_collect_changed_include_changes(deck, pool, out, list)
}
