// Inner crate: rows of a flat batch, and the checks of them that loss, training and prediction share.
#![tactic(auto)]

ghost use Rattle.std.specs.Prelude.{◌≡◌, ◌*◌, ◌≤◌, ◌<◌, length};
ghost use Rattle.refusals.specs.Refusals.{outcome_of};
ghost use Rattle.batches.specs.Batch.{rows_in, row_at, row_fault, rows_fault, batch_fault};

use refusals::{Refusal, refuse_unless};

// How many rows of width w stand in n numbers, a short last one counted.
#[tactic(auto, using(crate::proofs::Rows::rows_rounded_up))]
pub fn rows_in(n: usize, w: usize) -> usize
    requires { 0 < w }
    ensures { result ≡ rows_in n w }
{
    n.div_ceil(w)
}

// Row r, short where the batch ends within it.
pub fn row(xs: &[f32], w: usize, r: usize) -> &[f32]
    requires { r * w ≤ length xs.now }
    ensures { result.now ≡ row_at xs.now w r }
{
    let at = r * w;
    let left = xs.len() - at;
    if left < w {
        return &xs[at..];
    }
    let end = at + w;
    &xs[at..end]
}

// A row's own checks: its width first, then its numbers.
#[tactic(auto, unfolding(crate::specs::Batch::row_fault))]
pub fn check_row(xs: &[f32], width: usize, not_wide: u32, not_finite: u32) -> Result<(), Refusal>
    ensures { result ≡ outcome_of (row_fault width not_wide not_finite xs.now) 0 }
{
    refuse_unless(xs.len() == width, not_wide)?;
    refuse_unless(floats::all_finite(xs), not_finite)
}

// A batch's rows in order.
#[tactic(auto, using(crate::proofs::Rows::row_begins, refusals::proofs::Firsts::first_none, refusals::proofs::Firsts::first_more, refusals::proofs::Firsts::not_refused, refusals::proofs::Firsts::stops_at), unfolding(crate::specs::Batch::rows_fault))]
fn check_rows(xs: &[f32], width: usize, not_wide: u32, not_finite: u32) -> Result<(), Refusal>
    requires { 0 < width }
    ensures { result ≡ outcome_of (rows_fault width not_wide not_finite xs.now) 0 }
{
    for r in 0..rows_in(xs.len(), width) {
        check_row(row(xs, width, r), width, not_wide, not_finite)?;
    }
    Ok(())
}

// What loss and training ask of a batch, in the order of R5.4: 12 to 18.
#[tactic(auto, unfolding(crate::specs::Batch::batch_fault))]
pub fn check_batch(inputs: &[f32], targets: &[f32], w: usize, v: usize) -> Result<(), Refusal>
    requires { (0 < w) × (0 < v) }
    ensures { result ≡ outcome_of (batch_fault w v inputs.now targets.now) 0 }
{
    let rows = rows_in(inputs.len(), w);
    refuse_unless(rows == rows_in(targets.len(), v), 12)?;
    refuse_unless(rows != 0, 13)?;
    check_rows(inputs, w, 14, 15)?;
    check_rows(targets, v, 16, 17)?;
    refuse_unless(targets.len() <= 16_777_216, 18)
}
