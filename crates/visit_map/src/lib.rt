// Public crate: the visit map, which parameters of a model a batch touches. It takes all arguments and answers, or
// refuses by number (R3.1); one record says the answer and the final contents of everything that was lent.
#![tactic(auto)]

ghost use Rattle.std.specs.Prelude.{◌≡◌, length};
ghost use Rattle.layers.specs.Net.{net_of, Net};
ghost use Rattle.admission.specs.Admission.{up_to9};
ghost use Rattle.visit_map.specs.Visits.{map_up_to11, Visited};
ghost use Rattle.visit_map.specs.Steps.{Unswept};

use admission::check_work;
use exponential::PowerTable;
use refusals::{Refusal, refuse_unless};
use spline::Grid;

// Past check 11: rows in order, up to the first that is refused. Then no mark stays.
fn mark_rows(
    grid: Grid,
    widths: &[usize],
    model: &[f32],
    inputs: &[f32],
    first: &mut [f32],
    second: &mut [f32],
    map: &mut [u8],
) -> Result<(), Refusal>
    requires { map_up_to11 widths.now grid model.now (length first.old) (length second.old) (length map.old)
        ≡ 0 }
    ensures { Unswept (net_of grid) widths.now grid model.now inputs.now
        first.old second.old map.old result first.new second.new
        map.new }
{
    let w = widths[0];
    let bytes = map.len();
    let table = PowerTable::new();
    touched_layer::unmark(map, bytes);
    for r in 0..batches::rows_in(inputs.len(), w) {
        let row = batches::row(inputs, w, r);
        let marked = touched_row::mark_row(grid, &table, widths, model, row, first, second, map);
        if let Err(refusal) = marked {
            touched_layer::unmark(map, bytes);
            return Err(Refusal {
                carried: r,
                ..refusal
            });
        }
    }
    Ok(())
}

// Past check 9: 10, 11, and then the rows. The model is P numbers long here.
fn visit_sound(
    grid: Grid,
    widths: &[usize],
    model: &[f32],
    inputs: &[f32],
    first: &mut [f32],
    second: &mut [f32],
    map: &mut [u8],
) -> Result<(), Refusal>
    requires { up_to9 widths.now grid (length model.now) (length first.old) (length second.old) ≡ 0 }
    ensures { Unswept (net_of grid) widths.now grid model.now inputs.now
        first.old second.old map.old result first.new second.new
        map.new }
{
    refuse_unless(map.len() == model.len(), 10)?;
    refuse_unless(floats::all_finite(model), 11)?;
    mark_rows(grid, widths, model, inputs, first, second, map)
}

// Marks in `map`, one byte per parameter, which parameters a flat batch touches.
pub fn visit_map(
    widths: &[usize],
    grid: Grid,
    model: &[f32],
    inputs: &[f32],
    first: &mut [f32],
    second: &mut [f32],
    map: &mut [u8],
) -> Result<(), Refusal>
    ensures { Visited (net_of grid) widths.now grid model.now inputs.now
        first.old second.old map.old result first.new second.new
        map.new }
{
    let sizes = check_work(widths, grid, model.len(), first.len(), second.len())?;
    let answer = visit_sound(grid, widths, model, inputs, first, second, map);
    floats::clear(first, sizes.widest);
    floats::clear(second, sizes.widest);
    answer
}
