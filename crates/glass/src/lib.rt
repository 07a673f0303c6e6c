// Glass: what goes from memory to the glass. The visible columns of each span are copied, and what is copied is counted.
// Each contract gives the whole glass afterwards.
// It may use the paper, the laws of the memory, and dots for an address; it knows nothing of characters, windows or the state.
#![tactic(auto)]

ghost use Rattle.std.specs.Prelude.{◌≡◌, [], ◌∷◌, ◌-◌, ◌≤◌, ◌<◌, length, get_or, set};
ghost use Rattle.paper.specs.Strokes.{shown, shown_all, refreshed};
ghost use Rattle.laws_memory.specs.Glass.{Shows, copied, copied_from};

use paper::{Module, Span, Spans};

// How many of a span's columns are visible.
pub fn shown_of(g: Module, p: Span) -> usize
    ensures { result ≡ shown g p }
{
    let end = usize::from(p.end).min(g.visible);
    end.saturating_sub(usize::from(p.first))
}

// Copies one byte to the glass, whatever stands there. What is counted is what is copied: one byte.
fn copy_byte(mem: &[u8], glass: &mut [u8], a: usize) -> usize
    requires { (a < length mem.now) × (a < length glass.old) }
    ensures { (glass.new ≡ set glass.old a (get_or mem.now a 0)) × (result ≡ 1) }
{
    glass[a] = mem[a];
    1
}

// Copies a span's visible columns of row y to the glass: its bytes stand apart, so that no slice holds them alone. The number of bytes copied.
pub fn copy_row(g: Module, mem: &[u8], glass: &mut [u8], y: usize, p: Span) -> usize
    requires { (y < g.rows) × Shows g mem.now glass.old }
    ensures { (glass.new ≡ copied g mem.now y p glass.old) × (result ≡ shown g p) }
{
    let first = p.first as usize;
    let width = shown_of(g, p);
    let mut moved = 0;
    for j in 0..width {
        let a = dots::at(g, first + j, y);
        moved += copy_byte(mem, glass, a);
    }
    moved
}

// Copies the bytes from one address up to another, and counts each that it copies; the compiler makes a copy of whole words of a loop as plain
// as this. The number of bytes copied.
fn copy_bytes(mem: &[u8], glass: &mut [u8], from: usize, end: usize) -> usize
    requires { (from ≤ end) × (end ≤ length mem.now) × (end ≤ length glass.old) }
    ensures { (glass.new ≡ copied_from mem.now from (end - from) glass.old) × (result ≡ end - from) }
{
    let mut moved = 0;
    for a in from..end {
        moved += copy_byte(mem, glass, a);
    }
    moved
}

// Copies a span's visible columns of both rows to the glass: their bytes stand side by side. The number of bytes copied.
fn copy_both(g: Module, mem: &[u8], glass: &mut [u8], p: Span) -> usize
    requires { (g.rows ≡ 2) × Shows g mem.now glass.old }
    ensures { (glass.new ≡ refreshed g mem.now (p ∷ p ∷ []) glass.old)
        × (result ≡ shown_all g (p ∷ p ∷ [])) }
{
    let end = usize::from(p.end).min(g.visible);
    let first = usize::from(p.first).min(end);
    copy_bytes(mem, glass, 2 * first, 2 * end)
}

// Copies each span's visible columns to the glass, row by row. The number of bytes copied.
fn copy_rows(g: Module, mem: &[u8], glass: &mut [u8], spans: Spans) -> usize
    requires { (2 ≤ g.rows) × Shows g mem.now glass.old }
    ensures { (glass.new ≡ refreshed g mem.now spans glass.old)
        × (result ≡ shown_all g spans) }
{
    let mut moved = 0;
    for (y, &p) in spans.iter().enumerate() {
        moved += copy_row(g, mem, glass, y, p);
    }
    moved
}

// Copies each span's visible columns to the glass, those of two rows with the same span at once. The number of bytes copied.
pub fn refresh(g: Module, mem: &[u8], glass: &mut [u8], spans: Spans) -> usize
    requires { (2 ≤ g.rows) × Shows g mem.now glass.old }
    ensures { (glass.new ≡ refreshed g mem.now spans glass.old)
        × (result ≡ shown_all g spans) }
{
    let top = spans[0];
    let bottom = spans[1];
    if (g.rows == 2) & (top == bottom) {
        return copy_both(g, mem, glass, top);
    }
    copy_rows(g, mem, glass, spans)
}
