// A whole batch, row by row.
ghost use Rattle.std.specs.Prelude.{◌≡◌, true, length};
ghost use Rattle.local_basis.specs.Fours.{Finite};
ghost use Rattle.layers.specs.Net.{net_of};
ghost use Rattle.fast_gradients.specs.Adding.{Clean};
ghost use Rattle.row_gradients.specs.Calls.{WorkFits};
ghost use Rattle.batch_gradients.specs.Calls.{FullRows, RowsTaken};

use exponential::PowerTable;
use refusals::Refusal;
use row_gradients::take_row;
use spline::Grid;

// Takes the rows through the layers, up to one that meets 20; where `add` says so, the gradients of each are added
// before the next is taken: then those of the rows before a refused one stay. A training step clears the slice anyway;
// who must leave it lets the rows be tested first. `clean` says that no gradient is -0.0.
#[tactic(auto, using(crate::proofs::Turns::one_of_all))]
pub fn take_rows(
    grid: Grid,
    table: &PowerTable,
    widths: &[usize],
    model: &[f32],
    inputs: &[f32],
    targets: &[f32],
    scale: f32,
    gradients: &mut [f32],
    work: &mut [f32],
    add: bool,
    clean: bool,
) -> Result<(), Refusal>
    requires { WorkFits grid model.now widths.now work.old × FullRows widths.now inputs.now targets.now
        × (length gradients.old ≡ length model.now) × Finite (length model.now) model.now
        × (clean ≡ true → Clean (length gradients.old) gradients.old) }
    ensures { RowsTaken (net_of grid) model.now widths.now inputs.now
        targets.now scale add gradients.old work.old gradients.new
        work.new result }
{
    let last = widths.len() - 1;
    let w = widths[0];
    let v = widths[last];
    let count = batches::rows_in(inputs.len(), w);
    // Rows as `batches::row` cuts them, which is what the contract speaks of: chunks are no plainer.
    for r in 0..count {
        let input = batches::row(inputs, w, r);
        let target = batches::row(targets, v, r);
        take_row(
            grid, table, widths, model, input, target, scale, gradients, work, add, clean,
        )?;
    }
    Ok(())
}
