// Plays calls stored as bytes (docs/SCRIPTS.md, "Calls as bytes") on the C face, and holds each to what is stored with it. Standard
// input has the entries. It writes how many calls were played, and what the last of them differs in, if it does.
#![tactic(auto)]

mod entry;
mod world;

ghost use Rattle.std.specs.Prelude.{◌≡◌, length};

use std::io;
use world::World;

// Room for the stored bytes. It is a function because so long an array, written in main, runs the checker out of stack.
fn room() -> [u8; 1048576]
    ensures { 1048576 ≡ length result }
{
    [0; 1048576]
}

fn main(rt: HostRuntime) -> io::Result<()> {
    let mut room = room();
    let n = host_io::read_full(&mut rt.stdin(), &mut room)?;
    let mut world = World::new(&room[..n]);
    let played = world.play_all();
    let calls = world.calls;
    match played {
        Ok(()) => println!(rt; "{calls} calls played, no difference"),
        Err(difference) => println!(rt; "{calls} calls played, the last {difference}"),
    }
}
