// The fixed list of cases, read from the file that args names, through the public calls. The line that is written says how many came out as
// the Rust has them, how many did not, and how many are of calls that are not replayed here.
#![tactic(auto)]

mod replay;

use input::read_full;
use replay::Tally;
use std::{env, fs, io};

fn report(rt: &HostRuntime, t: Tally) -> io::Result<()> {
    let good = t.good;
    let bad = t.bad;
    let other = t.other;
    println!(rt; "{good} as expected, {bad} not, {other} of other calls")
}

fn replay_all(rt: &HostRuntime, list: &[u8]) -> io::Result<()> {
    if list.len() < 4 {
        return println!(rt; "There is no list.");
    }
    let mut deck = replay::deck_room();
    let mut pool = replay::deck_room();
    let mut out = replay::output_room();
    report(rt, replay::replay(list, &mut deck, &mut pool, &mut out))
}

fn replay_file(rt: &HostRuntime, path: &str) -> io::Result<()> {
    let mut file = fs::open(rt, path)?;
    let mut list = replay::list_room();
    let m = read_full(&mut file, &mut list)?;
    replay_all(rt, &list[..m])
}

// Where no file is named, none is found.
fn main(rt: HostRuntime) -> io::Result<()> {
    let mut words = env::args(&rt)?;
    let _program = words.next();
    match words.next() {
        Some(path) => replay_file(&rt, path.as_str()),
        None => replay_file(&rt, ""),
    }
}
