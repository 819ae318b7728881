// What every call begins and ends with: the limits and the judge, and the answer that it hands back.
#![tactic(auto)]

ghost use Rattle.std.specs.Prelude.{◌≡◌, length};
ghost use Rattle.judge.specs.Judge.{fault_told, told};
ghost use Rattle.answers.specs.Answer.{refusal, answer_of};
ghost use Rattle.answers.specs.Limits.{limit_of};
ghost use Rattle.answers.specs.Admitted.{admit_of};

use definition::{Fault, Refusal, Settings};

// C reads number and place: those of the refusal, 0 and 0 of an answer. Then how many bytes were written; how many entries were stored; the yes
// or no of `local_modified`.
#[repr(C)]
#[derive(Clone, Copy, PartialEq, Eq)]
pub struct Answer {
    pub number: usize,
    pub place: usize,
    pub length: usize,
    pub count: usize,
    pub modified: bool,
}

// A refusal by number and place.
#[tactic(auto, unfolding(crate::specs::Answer::refusal))]
pub fn refuse(number: usize, place: usize) -> Answer
    ensures { result ≡ refusal number place }
{
    Answer {
        number,
        place,
        length: 0,
        count: 0,
        modified: false,
    }
}

// What is handed back of a call that came to an answer or to a refusal.
pub fn answer_of(outcome: Result<Answer, Refusal>) -> Answer
    ensures { result ≡ answer_of outcome }
{
    match outcome {
        Ok(answer) => answer,
        Err(refusal) => refuse(refusal.fault.number(), refusal.place),
    }
}

// Refusal 1 or 2, where there is one.
#[tactic(auto, unfolding(crate::specs::Limits::limit_of, judge::specs::Judge::fault_told))]
fn over_limits(
    deck: &[u8],
    pool: &[u8],
    room: usize,
    entries: usize,
    settings: &Settings,
) -> Result<(), Fault>
    ensures { fault_told result ≡ limit_of settings.now (length deck.now) (length pool.now) room entries }
{
    if settings.indent > 16 || settings.width > 65535 {
        return Err(Fault::Setting);
    }
    if deck.len() > 65536 || pool.len() > 65536 || room > 1048576 || entries > 4096 {
        return Err(Fault::Size);
    }
    Ok(())
}

// Refusals 1 to 7, or how many documents the deck has.
#[tactic(auto, unfolding(crate::specs::Admitted::admit_of, judge::specs::Judge::fault_told, judge::specs::Judge::told))]
pub fn admit(
    deck: &[u8],
    pool: &[u8],
    room: usize,
    entries: usize,
    settings: &Settings,
) -> Result<usize, Refusal>
    ensures { told result ≡ admit_of settings.now deck.now pool.now room entries }
{
    over_limits(deck, pool, room, entries, settings).map_err(|fault| Refusal { fault, place: 0 })?;
    judge::judge(deck, pool)
}
