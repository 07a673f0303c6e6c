// Spans: a row's span grows to include a written column, and both rows' spans grow by a written rectangle: `mark`.
// The span is lent by `&mut` to a thin function over one by value; `mark` grows its spans by `grown_by`, whose parameters are plain:
// three functions of one contract, a named form (docs/DECISIONS).
// It may use the paper and the laws of the memory.
#![tactic(auto)]

ghost use Rattle.std.specs.Prelude.{◌≡◌, ◌+◌, ◌<◌};
ghost use Rattle.paper.specs.Strokes.{grown, grown_by, mark_rect};

use paper::{Rect, Span, Spans};

// The span that holds what p holds, and a column.
fn including(p: Span, column: u16) -> Span
    requires { column < 65535 }
    ensures { result ≡ grown p column (column + 1) }
{
    let from = p.first;
    let to = p.end;
    let after = column + 1;
    if to == 0 {
        Span {
            first: column,
            end: after,
        }
    } else {
        Span {
            first: from.min(column),
            end: to.max(after),
        }
    }
}

// A lent span grows to include a column.
fn grow(p: &mut Span, column: u16)
    requires { column < 65535 }
    ensures { p.new ≡ grown p.old column (column + 1) }
{
    *p = including(*p, column);
}

// The same with plain parameters: it makes the reference, so that no caller has to.
fn grown_by(p: Span, column: u16) -> Span
    requires { column < 65535 }
    ensures { result ≡ grown p column (column + 1) }
{
    let mut q = p;
    grow(&mut q, column);
    q
}

// The span grown by `width` columns from `left`: by the first of them and by the last.
fn grow_columns(p: Span, left: usize, width: usize) -> Span
    requires { (0 < width) × (left + width < 65536) }
    ensures { result ≡ grown p left (left + width) }
{
    let last = left + (width - 1);
    let q = grown_by(p, left as u16);
    grown_by(q, last as u16)
}

// Row y's span, grown by the columns of a rectangle on that row.
fn grow_row(p: Span, y: usize, r: Rect) -> Span
    requires { (r.left + r.width < 65536) × (r.top + r.height < 65536) }
    ensures { result ≡ grown_by r y p }
{
    let reached = (0 < r.width) & ((r.top <= y) & (y < r.top + r.height));
    if reached {
        grow_columns(p, r.left, r.width)
    } else {
        p
    }
}

// Both rows' spans, grown by a rectangle.
pub fn mark(spans: Spans, r: Rect) -> Spans
    requires { (r.left + r.width < 65536) × (r.top + r.height < 65536) }
    ensures { result ≡ mark_rect r spans }
{
    let above = grow_row(spans[0], 0, r);
    let below = grow_row(spans[1], 1, r);
    [above, below]
}
