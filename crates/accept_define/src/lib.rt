// Whether the parts of a half-read define are proper: its codes, and the columns that have come. A part of number 8's last clause.
// It uses the paper alone. `batch_ok` and `columns_ok` are the calls.
#![tactic(auto)]

ghost use Rattle.std.specs.Prelude.{◌≡◌};
ghost use Rattle.paper.specs.Bounds.{batch_ok, rest_blank, columns_ok};

use paper::{Batch, Columns};

// The codes of a half-read define: from 20h on, and the one that it is at among them.
#[tactic(auto, unfolding(paper::specs::Bounds::batch_ok))]
pub fn batch_ok(d: Batch) -> bool
    ensures { result ≡ batch_ok d }
{
    (0x20 <= d.first) & (d.first..=d.last).contains(&d.code)
}

// The columns that have not come are 0.
fn rest_blank(c: Columns) -> bool
    ensures { result ≡ rest_blank c }
{
    let columns = [c.c0, c.c1, c.c2, c.c3, c.c4, c.c5, c.c6];
    columns.iter().skip(usize::from(c.come)).all(|&b| b == 0)
}

// Five columns or seven, of which one is still to come.
#[tactic(auto, unfolding(paper::specs::Bounds::columns_ok))]
pub fn columns_ok(c: Columns) -> bool
    ensures { result ≡ columns_ok c }
{
    matches!(c.width, 5 | 7) & ((c.come < c.width) & rest_blank(c))
}
