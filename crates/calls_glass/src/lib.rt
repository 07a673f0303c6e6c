// Refresh, for any usable module: what is refused, in its order, and the glass that it leaves.
// It may use modules for the lengths, state for spans that are empty, accept for the state's test and glass for what is copied to the
// glass.
#![tactic(auto)]

ghost use Rattle.std.specs.Prelude.{◌≡◌, []};
ghost use Rattle.paper.specs.Calls.{refreshing, refresh_call};
ghost use Rattle.laws_state.specs.Room.{Usable};
ghost use Rattle.laws_state.specs.Told.{refreshed};

use paper::{Module, Refreshed, Refusal, State};

// A refresh answered so. Refreshed is the paper's: a refused call hands the state back too (document 01), so it is no Result.
fn moves(refusal: Refusal, state: State, moved: usize) -> Refreshed
    ensures { result ≡ (refreshing refusal state moved []).answer }
{
    Refreshed {
        refusal,
        state,
        moved,
    }
}

// Brings the glass in step. 1: the memory has not its length; 3: the glass has not; 8: the state breaks a bound.
pub fn refresh(g: Module, store: &[u8], mem: &[u8], glass: &mut [u8], s: State) -> Refreshed
    requires { Usable g × (g.rows ≡ 2) }
    ensures { refreshed result glass.new ≡ refresh_call g s store.now mem.now glass.old }
{
    if mem.len() != modules::memory_length(g) {
        return moves(Refusal::MemoryLength, s, 0);
    }
    if glass.len() != modules::glass_length(g) {
        return moves(Refusal::GlassLength, s, 0);
    }
    if accept::is_accepted(g, s, store) {
        let spans = s.spans;
        let moved = glass::refresh(g, mem, glass, spans);
        let state = State {
            spans: state::no_spans(g),
            ..s
        };
        return moves(Refusal::Accepted, state, moved);
    }
    moves(Refusal::BrokenState, s, 0)
}
