// The record read: the state that its first 115 bytes stand for; the downloads, which follow, are read as they are. docs/RECORD.md has
// the layout.
// It uses the paper, record_parts and record_state for what the bytes give, record_half and record_back for what is half read, and
// record_bytes, to see whether the bytes are those of a state.
#![tactic(auto)]

ghost use Rattle.std.specs.Prelude.{◌≡◌, true, ◌+◌, ◌≤◌, ◌&&◌, ◌==◌, length};
ghost use Rattle.std.specs.List.{fold};
ghost use Rattle.paper.specs.Panel.{bytes_from};
ghost use Rattle.record_bytes.specs.Bytes.{encoded};
ghost use Rattle.record_parts.specs.Parts.{decoded_with};
ghost use Rattle.record_read.specs.Record.{Idle, same, state_of};

use paper::{Half, Held, State};
use record_bytes::{AT_HALF, AT_HOLD, AT_UPPER, STATE};

// Whether a part of l, from `at` on, is these bytes.
fn is_at(a: &[u8], l: &[u8], at: usize) -> bool
    requires { at + length a.now ≤ length l.now }
    ensures { result ≡ same a.now (bytes_from (length a.now) at l.now) }
{
    a == &l[at..at + a.len()]
}

// Whether bytes are those of their state, with this held and this half read: only the bytes of these two can be others.
fn is_written(l: &[u8; STATE], hold: Option<Held>, half: Half) -> bool
    ensures { result ≡ same (encoded (decoded_with l.now hold half)) l.now }
{
    let held = record_bytes::hold_bytes(hold);
    let read = record_bytes::slot_bytes(half.into());
    is_at(&held, l, AT_HOLD) & is_at(&read, l, AT_HALF)
}

// Whether all of them are 0. Each is looked at: with no way out of the turns the compiler tests many at once.
// (accept_store has the like: one more use between crates for one line is no plainer.)
fn is_zero(l: &[u8]) -> bool
    ensures { result ≡ fold (λ zero b. zero && (b == 0)) true l.now }
{
    l.iter().fold(true, |zero, b| zero & (*b == 0))
}

// Whether the bytes of what is held and of what is half read are all 0.
fn is_idle(l: &[u8; STATE]) -> bool
    ensures { result ≡ true → Idle l.now }
{
    is_zero(&l[AT_HOLD..AT_UPPER])
}

// The state that bytes stand for: those that no state is encoded by stand for a broken one, which every call refuses. With nothing
// held or half read there are no such bytes.
pub fn state_of(l: &[u8; STATE]) -> State
    ensures { result ≡ state_of l.now }
{
    let s = record_state::decode_with(l, None, Half::Nothing);
    if is_idle(l) {
        return s;
    }
    let hold = record_parts::hold_at(l, AT_HOLD);
    let half = record_back::half_of(record_parts::slots_at(l, AT_HALF));
    if is_written(l, hold, half) {
        return State { hold, half, ..s };
    }
    State {
        hold,
        half,
        selected: 5,
        ..s
    }
}
