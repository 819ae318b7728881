// Tests of characters, of UTF-8 and of texts, and decks through the judge.
ghost use Rattle.std.specs.Prelude.{◌≤◌, length};

pub fn answer(row: &[u8], t: &[u8]) -> bool
    requires { length t.now ≤ 65536 }
{
    match deck::byte(row, 0) {
        8 => chars::is_non_printable((deck::word(row, 4) + 65536 * deck::word(row, 6)) as u32),
        9 => utf8::well_formed(t),
        10 => scalar::starts_bom(t),
        11 => scalar::unsafe_in_flow(t),
        12 => scalar::quotable(t),
        _ => quoted::has_breakable(t),
    }
}

// The verdict on a deck is the one that the row has: no refusal is 0, and has the number of documents in the place.
pub fn judged(row: &[u8], deck: &[u8], pool: &[u8]) -> bool {
    let (number, place) = match judge::judge(deck, pool) {
        Ok(documents) => (0, documents),
        Err(refusal) => (refusal.fault.number(), refusal.place),
    };
    number == deck::word(row, 2) && place == deck::word(row, 4)
}
