// Hold and release, for any module: what is refused, in its order, and the state that each leaves.
// It may use accept for the state's test, state for whether a window is held and state_held for what becomes of it. Neither call asks
// anything of its caller.
#![tactic(auto)]

ghost use Rattle.std.specs.Prelude.{◌≡◌, ◌≤◌};
ghost use Rattle.paper.specs.Settings.{window_at, is_defined};
ghost use Rattle.paper.specs.Calls.{answer, hold_call, release_call};

use paper::{Answer, Module, Refusal, State};

// A call answered so. Answer is the paper's: a refused call hands the state back too (document 01), so it is no Result.
fn answers(refusal: Refusal, state: State) -> Answer
    ensures { result ≡ answer refusal state }
{
    Answer { refusal, state }
}

// Whether user window k is defined. accept_windows has the like within: one more use between crates for one comparison is no plainer.
fn is_defined(s: State, k: usize) -> bool
    requires { (1 ≤ k) × (k ≤ 4) }
    ensures { result ≡ is_defined (window_at s.windows k) }
{
    0 < s.windows[k - 1].width
}

// Holds user window k. 8: the state breaks a bound; 6: a window is held; 4: k is not 1 to 4; 5: window k is not defined.
pub fn hold(g: Module, store: &[u8], s: State, k: usize) -> Answer
    ensures { result ≡ hold_call g s store.now k }
{
    if !accept::is_accepted(g, s, store) {
        return answers(Refusal::BrokenState, s);
    }
    if state::is_held(s.hold) {
        return answers(Refusal::HeldAlready, s);
    }
    if !(1..=4).contains(&k) {
        return answers(Refusal::NoSuchWindow, s);
    }
    if is_defined(s, k) {
        return answers(Refusal::Accepted, state_held::held_by(s, k as u8));
    }
    answers(Refusal::UndefinedWindow, s)
}

// Releases the held window. 8: the state breaks a bound; 7: no window is held.
pub fn release(g: Module, store: &[u8], s: State) -> Answer
    ensures { result ≡ release_call g s store.now }
{
    if !accept::is_accepted(g, s, store) {
        return answers(Refusal::BrokenState, s);
    }
    if state::is_held(s.hold) {
        return answers(Refusal::Accepted, state_held::put_back(s, s.hold));
    }
    answers(Refusal::NotHeld, s)
}
