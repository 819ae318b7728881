// The rows of a list, one after another. A list is any bytes: what lies past its end reads as 0, and a row that is cut off ends the run.
ghost use Rattle.std.specs.Prelude.{◌≡◌, ℕ, ◌≤◌, length, drop, IfOk, IfSome};

use std::io;
use std::io::Write;

// Where a row's name begins: after its kind, its style, four numbers, two steps that follow and four lengths.
const HEAD: usize = 20;

// The line of a sample.
fn say(rt: &HostRuntime, name: &[u8], good: bool) -> io::Result<()> {
    let end: &[u8] = if good { b": ok\n" } else { b": DIFFERS\n" };
    let mut out = rt.stdout();
    out.write_all(name)?;
    out.write_all(end)
}

// The text comes out as the row has it.
fn holds(row: &[u8], t: &[u8], note: &[u8], want: &[u8]) -> bool
    requires { length t.now ≤ 65536 }
{
    match deck::byte(row, 0) {
        0..=7 => crate::written::holds(row, t, note, want),
        8..=13 => crate::asked::answer(row, t) == (deck::word(row, 2) > 0),
        14 => crate::asked::judged(row, t, note),
        _ => false,
    }
}

// Runs the row that a list begins with. The answer is the list after it, or none if it is cut off.
fn sample<'a>(rt: &HostRuntime, rows: &'a [u8]) -> io::Result<Option<&'a [u8]>>
    ensures { IfOk result (λ answer. IfSome answer (λ rest. (n : ℕ) × (n ≤ length rows.now) × (rest.now ≡ drop n rows.now))) }
{
    let text = HEAD + deck::word(rows, 12);
    let note = text + deck::word(rows, 14);
    let want = note + deck::word(rows, 16);
    let end = want + deck::word(rows, 18);
    if end > rows.len() {
        return Ok(None);
    }
    let good = holds(rows, &rows[text..note], &rows[note..want], &rows[want..end]);
    say(rt, &rows[HEAD..text], good)?;
    Ok(Some(&rows[end..]))
}

// Runs as many rows as the list says it has. The answer is whether it ends where the last one ends.
pub fn run(rt: &HostRuntime, list: &[u8]) -> io::Result<bool> {
    let Some(mut rows) = list.get(2..) else {
        return Ok(false)
    };
    for _ in 0..deck::word(list, 0) {
        let Some(rest) = sample(rt, rows)? else {
            return Ok(false)
        };
        rows = rest;
    }
    Ok(rows.is_empty())
}
