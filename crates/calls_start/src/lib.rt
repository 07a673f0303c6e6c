// Start, for any usable module: what is refused, and the memory and the downloads that it leaves.
// It may use modules for the memory's length, state for the initial one, dots for the memory and downloads_write for the end of the
// downloads.
#![tactic(auto)]

ghost use Rattle.std.specs.Prelude.{◌≡◌};
ghost use Rattle.paper.specs.Calls.{start_call};
ghost use Rattle.laws_state.specs.Room.{Usable};
ghost use Rattle.laws_state.specs.Told.{started};

use paper::{Answer, Module, Refusal, State};

// The initial state with no download, the memory zeroed and all of it marked as written. 1: the memory has not its length.
pub fn start(g: Module, mem: &mut [u8], store: &mut [u8]) -> Answer
    requires { Usable g × (g.rows ≡ 2) }
    ensures { started result mem.new store.new ≡ start_call g mem.old store.old }
{
    downloads_write::erase_all(store);
    let t = state::initial_state(g);
    if mem.len() != modules::memory_length(g) {
        return Answer {
            refusal: Refusal::MemoryLength,
            state: t,
        };
    }
    let none = t.spans;
    let spans = dots::erase(g, mem, none);
    let state = State { spans, ..t };
    Answer {
        refusal: Refusal::Accepted,
        state,
    }
}
