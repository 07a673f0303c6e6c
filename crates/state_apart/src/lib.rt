// The state taken apart and put together again, for the compiler's sake.
// It may use paper alone. Its contract says that the state is the same.
#![tactic(auto)]

ghost use Rattle.std.specs.Prelude.{◌≡◌};

use paper::{Held, Settings, State};

// The same state, what is saved in it taken apart and put together again: so the compiler sees fields that the loop over a piece
// leaves alone, and not a block to be copied with each byte.
pub fn apart(s: State) -> State
    ensures { result ≡ s }
{
    match s.hold {
        None => s,
        Some(held) => {
            let settings = held.settings;
            let style = settings.style;
            let again = Settings {
                charset: settings.charset,
                codes: settings.codes,
                caret: settings.caret,
                brightness: settings.brightness,
                speed: settings.speed,
                width: settings.width,
                write: settings.write,
                switch: settings.switch,
                style,
            };
            let hold = Some(Held {
                settings: again,
                ..held
            });
            State { hold, ..s }
        }
    }
}
