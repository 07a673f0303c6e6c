// What a hold makes of a state, and its release. It uses the paper alone: what is refused is for the calls to say.
#![tactic(auto)]

ghost use Rattle.std.specs.Prelude.{◌≡◌};
ghost use Rattle.paper.specs.Calls.{held_by, put_back};

use paper::{Half, Held, State};

// The state with user window k held: what is half read is dropped, settings and selection are saved.
pub fn held_by(s: State, k: u8) -> State
    ensures { result ≡ held_by s k }
{
    let hold = Some(Held {
        window: k,
        selected: s.selected,
        settings: s.settings,
    });
    let half = Half::Nothing;
    State {
        selected: k,
        hold,
        half,
        ..s
    }
}

// The state with nothing held: what is half read is dropped, the saved settings and selection are put back.
pub fn put_back(s: State, h: Option<Held>) -> State
    ensures { result ≡ put_back s h }
{
    match h {
        None => s,
        Some(held) => State {
            settings: held.settings,
            selected: held.selected,
            hold: None,
            half: Half::Nothing,
            ..s
        },
    }
}
