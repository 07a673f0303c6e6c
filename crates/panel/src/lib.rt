// The panel: document 01's five calls, for the 112 by 16 module. No call has a `requires`. `store` are the state's downloads.
// It uses modules for the module's value, and the calls of calls_start, calls_glass, calls_feed and calls_hold for it.
// Each call's contract is one line: what it answers and leaves is the paper's definition of that call.
#![tactic(auto)]

ghost use Rattle.std.specs.Prelude.{◌≡◌};
ghost use Rattle.paper.specs.Panel.{panel};
ghost use Rattle.paper.specs.Calls.{start_call, feed_call, hold_call, release_call, refresh_call};
ghost use Rattle.laws_state.specs.Told.{started, fed, refreshed};

use paper::{Answer, Fed, Refreshed, State};

// The initial state with no download, the memory zeroed and all of it marked as written. 1: the memory is not 1,024 bytes.
pub fn start(mem: &mut [u8], store: &mut [u8]) -> Answer
    ensures { started result mem.new store.new ≡ start_call panel mem.old store.old }
{
    calls_start::start(modules::small(), mem, store)
}

// A piece of the stream. 1: the memory is not 1,024 bytes; 2: the font is not 1,120; 8: the state breaks a bound.
pub fn feed(mem: &mut [u8], store: &mut [u8], font: &[u8], piece: &[u8], s: State) -> Fed
    ensures { fed result mem.new store.new
        ≡ feed_call panel font.now s store.old mem.old piece.now }
{
    calls_feed::feed(modules::small(), mem, store, font, piece, s)
}

// Holds user window k. 8: the state breaks a bound; 6: a window is held; 4: k is not 1 to 4; 5: window k is not defined.
pub fn hold(store: &[u8], s: State, k: usize) -> Answer
    ensures { result ≡ hold_call panel s store.now k }
{
    calls_hold::hold(modules::small(), store, s, k)
}

// Releases the held window. 8: the state breaks a bound; 7: no window is held.
pub fn release(store: &[u8], s: State) -> Answer
    ensures { result ≡ release_call panel s store.now }
{
    calls_hold::release(modules::small(), store, s)
}

// Brings the glass in step. 1: the memory is not 1,024 bytes; 3: the glass is not 224; 8: the state breaks a bound.
pub fn refresh(store: &[u8], mem: &[u8], glass: &mut [u8], s: State) -> Refreshed
    ensures { refreshed result glass.new ≡ refresh_call panel s store.now mem.now glass.old }
{
    calls_glass::refresh(modules::small(), store, mem, glass, s)
}
