// Whether a state record is accepted: number 8 of document 01, over every field of it and over its downloads.
// It tests the record alone: memory, font and glass are not in it.
// It uses accept_settings, accept_windows, accept_half, accept_store and accept_note for those parts; the hold's and the spans' tests
// stand here.
#![tactic(auto)]

ghost use Rattle.std.specs.Prelude.{◌≡◌};
ghost use Rattle.paper.specs.Bounds.{hold_ok, span_ok, spans_ok, state_ok, accepted};

use paper::{Held, Module, Span, Spans, State, Window};

// While held: the held window is the selected one, and what the release puts back may be put back.
#[tactic(auto, unfolding(paper::specs::Bounds::hold_ok))]
fn hold_ok(g: Module, ws: [Window; 4], selected: u8, hold: Option<Held>) -> bool
    ensures { result ≡ hold_ok g ws selected hold }
{
    match hold {
        None => true,
        Some(held) => {
            let kept = accept_windows::selectable(ws, held.selected)
                & accept_settings::settings_ok(g, held.settings);
            (1 <= held.window)
                & ((held.window == selected) & (accept_windows::selectable(ws, held.window) & kept))
        }
    }
}

// The span is nothing, or its first column lies before its end, and its end in the memory.
#[tactic(auto, unfolding(paper::specs::Bounds::span_ok))]
fn span_ok(g: Module, p: Span) -> bool
    ensures { result ≡ span_ok g p }
{
    (p == Span::default()) | ((p.first < p.end) & ((p.end as usize) <= g.columns))
}

// The spans of the two rows.
fn spans_ok(g: Module, ps: Spans) -> bool
    ensures { result ≡ spans_ok g ps }
{
    ps.iter().all(|&p| span_ok(g, p))
}

// Whether the state, its downloads aside, keeps every bound.
#[tactic(auto, unfolding(paper::specs::Bounds::state_ok))]
fn state_ok(g: Module, s: State) -> bool
    ensures { result ≡ state_ok g s }
{
    accept_settings::settings_ok(g, s.settings)
        & accept_windows::windows_ok(g, s.windows)
        & accept_windows::cursor_ok(g.columns, g.rows, s.base)
        & accept_windows::selectable(s.windows, s.selected)
        & hold_ok(g, s.windows, s.selected, s.hold)
        & accept_half::half_ok(g, s.half)
        & spans_ok(g, s.spans)
}

// Whether the record, a state and its downloads, keeps every bound.
#[tactic(auto, unfolding(paper::specs::Bounds::accepted))]
pub fn is_accepted(g: Module, s: State, ds: &[u8]) -> bool
    ensures { result ≡ accepted g s ds.now }
{
    state_ok(g, s) & (accept_store::store_ok(ds) & accept_note::define_ok(ds, s.hold, s.half))
}
