// Samples of the proved leaves. Every row of the list on standard input is run, and `NAME: ok` or `NAME: DIFFERS` is written for it. The file stdout
// has the lines that are expected. The list's rows are the oracle's (oracle/src/leaf_rows.rs); docs/ORACLE.md has their form.
#![tactic(auto)]

ghost use Rattle.std.specs.Prelude.{◌≡◌, length};

mod asked;
mod rows;
mod written;

use input::read_full;
use std::io;

// Room for a list.
fn list_room() -> [u8; 65536]
    ensures { 65536 ≡ length result }
{
    [0; 65536]
}

fn main(rt: HostRuntime) -> io::Result<()> {
    let mut list = list_room();
    let n = read_full(&mut rt.stdin(), &mut list)?;
    if rows::run(&rt, &list[..n])? {
        return Ok(());
    }
    println!(rt; "The list does not end where its last row ends.")
}
