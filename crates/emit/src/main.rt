// The emit program: standard input is a deck's length, the deck and its pool; what the deck holds, or the line of its refusal, is written.
#![tactic(auto)]

mod frame;

use input::read_full;
use std::io;
use std::io::Write;

fn main(rt: HostRuntime) -> io::Result<()> {
    let mut room = frame::input();
    let n = read_full(&mut rt.stdin(), &mut room)?;
    let mut out = frame::output();
    let len = frame::run(&room[..n], &mut out);
    rt.stdout().write_all(&out[..len])
}
