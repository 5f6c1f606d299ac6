// Public crate: prediction of a batch, row by row. It answers every argument, or refuses by number; one record says the
// answer and the final contents of everything that was lent.
#![tactic(auto)]

ghost use Rattle.std.specs.Prelude.{◌≡◌, ◌+◌, ◌*◌, ◌≤◌, ◌<◌, ◌++◌, length, take, drop};
ghost use Rattle.layers.specs.Net.{net_of, Net};
ghost use Rattle.layers.specs.Widths.{parameters_in};
ghost use Rattle.passes.specs.Turns.{Fits, holder};
ghost use Rattle.prediction.specs.Predict.{Predicted, outputs_fit, from10_to11};
ghost use Rattle.prediction.specs.Steps.{Predictable, RowsPredicted};

use admission::check_work;
use exponential::PowerTable;
use layer_cursor::Layer;
use refusals::{Refusal, refuse_unless};
use spline::Grid;

// 10: the outputs are as many as rows times the output width, which may pass 2^64.
#[tactic(auto, using(crate::proofs::Outputs::same_product), unfolding(crate::specs::Predict::outputs_fit))]
fn outputs_fit(inputs: usize, w: usize, outputs: usize, v: usize) -> bool
    requires { 0 < w }
    ensures { result ≡ outputs_fit w v inputs outputs }
{
    batches::rows_in(inputs, w).checked_mul(v) == Some(outputs)
}

// The last layer's values, from the slice that holds them to the front of `outputs`.
fn copy_outputs(layers: usize, v: usize, first: &[f32], second: &[f32], outputs: &mut [f32])
    requires { (v ≤ length first.now) × (v ≤ length second.now) × (v ≤ length outputs.old) }
    ensures { outputs.new ≡ take v (holder layers first.now second.now) ++ drop v
        outputs.old }
{
    if layers % 2 == 0 {
        floats::copy(&second[..v], outputs);
    } else {
        floats::copy(&first[..v], outputs);
    }
}

// Rows in order, up to the first that is refused, whose refusal carries its number. No check is left before them: hence
// 0 and 0 in the promise. By index, since a proof learns nothing of what is written through chunks_mut.
fn predict_rows(
    grid: Grid,
    widths: &[usize],
    model: &[f32],
    inputs: &[f32],
    rows: usize,
    first: &mut [f32],
    second: &mut [f32],
    outputs: &mut [f32],
) -> Result<(), Refusal>
    requires { Predictable grid model.now widths.now inputs.now first.old second.old outputs.old rows }
    ensures { RowsPredicted (net_of grid) model.now widths.now inputs.now 0 0
        first.old second.old outputs.old result first.new second.new
        outputs.new }
{
    let layers = widths.len() - 1;
    let w = widths[0];
    let v = widths[layers];
    let table = PowerTable::new();
    let start = Layer::first(widths, grid);
    for r in 0..rows {
        passes::run_row(
            start,
            grid,
            &table,
            widths,
            model,
            batches::row(inputs, w, r),
            first,
            second,
        )
        .map_err(|refusal| Refusal {
            carried: r,
            ..refusal
        })?;
        let at = r * v;
        copy_outputs(layers, v, first, second, &mut outputs[at..]);
    }
    Ok(())
}

// Past check 9: 10, 11, and then the rows.
#[tactic(auto, using(crate::proofs::Calls::outputs_room, crate::proofs::Calls::rows_run, passes::proofs::EachRow::wide_rows), unfolding(crate::specs::Predict::from10_to11))]
fn predict_sound(
    grid: Grid,
    widths: &[usize],
    model: &[f32],
    inputs: &[f32],
    first: &mut [f32],
    second: &mut [f32],
    outputs: &mut [f32],
) -> Result<(), Refusal>
    requires { Fits grid model.now widths.now first.old second.old }
    ensures { RowsPredicted (net_of grid) model.now widths.now inputs.now
        (from10_to11 widths.now model.now inputs.now (length outputs.old))
        (parameters_in (grid.intervals + 5) widths.now)
        first.old second.old outputs.old result first.new second.new
        outputs.new }
{
    let layers = widths.len() - 1;
    let w = widths[0];
    let fit = outputs_fit(inputs.len(), w, outputs.len(), widths[layers]);
    refuse_unless(fit, 10)?;
    refuse_unless(floats::all_finite(model), 11)?;
    let rows = batches::rows_in(inputs.len(), w);
    predict_rows(grid, widths, model, inputs, rows, first, second, outputs)
}

// Predicts each row of a flat batch into `outputs`.
pub fn predict_batch(
    widths: &[usize],
    grid: Grid,
    model: &[f32],
    inputs: &[f32],
    first: &mut [f32],
    second: &mut [f32],
    outputs: &mut [f32],
) -> Result<(), Refusal>
    ensures { Predicted (net_of grid) widths.now grid model.now inputs.now
        first.old second.old outputs.old result first.new second.new
        outputs.new }
{
    let sizes = check_work(widths, grid, model.len(), first.len(), second.len())?;
    let answer = predict_sound(grid, widths, model, inputs, first, second, outputs);
    floats::clear(first, sizes.widest);
    floats::clear(second, sizes.widest);
    answer
}
