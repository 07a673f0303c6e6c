// The record written: a state as 115 bytes, for C. In the record the downloads follow, as their own bytes. docs/RECORD.md has the layout.
// It uses the paper, and record_bytes for the bytes of each part and their places.
#![tactic(auto)]

ghost use Rattle.std.specs.Prelude.{◌≡◌, ◌+◌, ◌≤◌, length};
ghost use Rattle.record_bytes.specs.Bytes.{at_first, at_base, state_length, windows_bytes, spans_into, tail_bytes, encoded};
ghost use Rattle.record_write.specs.Parts.{Put};

use paper::{Spans, State, Window};
use record_bytes::{AT_BASE, AT_FIRST, AT_FOURTH, AT_HALF, AT_HOLD, AT_SECOND, AT_THIRD, AT_UPPER};

// Copies a part into the state's bytes.
fn put(src: &[u8], to: &mut [u8], at: usize)
    requires { at + length src.now ≤ length to.old }
    ensures { Put at to.old to.new src.now }
{
    to[at..at + src.len()].copy_from_slice(src);
}

// Puts the four user windows, after the settings. Four lines and no loop: each place has its name in the layout, as in the definition.
fn put_windows(ws: [Window; 4], to: &mut [u8])
    requires { length to.old ≡ state_length }
    ensures { Put at_first to.old to.new (windows_bytes ws) }
{
    let [a, b, c, d] = ws;
    put(&record_bytes::window_bytes(a), to, AT_FIRST);
    put(&record_bytes::window_bytes(b), to, AT_SECOND);
    put(&record_bytes::window_bytes(c), to, AT_THIRD);
    put(&record_bytes::window_bytes(d), to, AT_FOURTH);
}

// Writes the spans into a state's bytes, which they end, and leaves all before them.
// It takes a slice and no array of STATE bytes: the edit face/spans_end_the_record hands it one of another length.
pub fn put_spans(ps: Spans, to: &mut [u8])
    requires { length to.old ≡ state_length }
    ensures { to.new ≡ spans_into to.old ps }
{
    put(&record_bytes::spans_bytes(ps), to, AT_UPPER);
}

// Puts what follows the windows.
fn put_tail(s: State, to: &mut [u8])
    requires { length to.old ≡ state_length }
    ensures { Put at_base to.old to.new (tail_bytes s) }
{
    put(&record_bytes::base_bytes(s.base, s.selected), to, AT_BASE);
    put(&record_bytes::hold_bytes(s.hold), to, AT_HOLD);
    put(&record_bytes::half_bytes(s.half), to, AT_HALF);
    put_spans(s.spans, to);
}

// Writes a state as bytes. It and its parts take a slice, as above: the edit face/state_of_116_bytes hands it one of another length.
pub fn encode(s: State, to: &mut [u8])
    requires { length to.old ≡ state_length }
    ensures { to.new ≡ encoded s }
{
    put(&record_bytes::settings_bytes(s.settings), to, 0);
    put_windows(s.windows, to);
    put_tail(s, to);
}
