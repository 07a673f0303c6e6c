// A recorded link, fed to a panel at an address: its telegrams for the address, or for all, one after the other. Each one's data are fed
// from where they lie in the link, and each call reads on behind what the one before has found.
ghost use Rattle.std.specs.Prelude.{◌≡◌, ◌≤◌, length, drop};

use paper::State;

// What became of the telegrams: the panel's state, how many they were, commands carried out, and those answered 11 to 19.
#[derive(Clone, Copy)]
pub struct Taken {
    pub state: State,
    pub telegrams: usize,
    pub carried: usize,
    pub answered: usize,
}

// What lies from a place on.
fn rest(link: &[u8], at: usize) -> &[u8]
    requires { at ≤ length link.now }
    ensures { result.now ≡ drop at link.now }
{
    &link[at..]
}

// Feeds the link's telegrams to a panel.
pub fn feed(
    font: &[u8],
    link: &[u8],
    address: usize,
    mem: &mut [u8],
    store: &mut [u8],
    fresh: State,
) -> Taken {
    let mut state = fresh;
    let mut telegrams = 0;
    let mut carried = 0;
    let mut answered = 0;
    let mut at = 0;
    while let Ok(t) = telegrams::find(rest(link, at), address) {
        let f = panel::feed(
            mem,
            store,
            font,
            telegrams::handed(rest(link, at), t),
            state,
        );
        state = f.state;
        telegrams += 1;
        carried += f.carried;
        answered += f.answered;
        at += t.after;
    }
    Taken {
        state,
        telegrams,
        carried,
        answered,
    }
}
