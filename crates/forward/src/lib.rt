// Public crate: one row, whose outputs are handed back as a part of the slice that holds them. It takes all arguments
// and answers, or refuses by number.
#![tactic(auto)]

ghost use Rattle.std.specs.Prelude.{◌≡◌, ◌++◌, ◌-◌, ◌≤◌, length, take, drop};
ghost use Rattle.std.specs.Borrow.{fsep, sem};
ghost use denote.Slice.{finally};
ghost use denote.Builtin as builtin;
ghost use Rattle.floats.specs.Sums.{zeros};
ghost use Rattle.layers.specs.Net.{net_of, Net};
ghost use Rattle.passes.specs.Turns.{Fits};
ghost use Rattle.forward.specs.Forward.{in_first, forward_first, forward_second, Handed};
ghost use Rattle.refusals.specs.Refusals.{refusal_of};
ghost use Rattle.forward.specs.Steps.{Passed, Swept, Forwarded, outputs_in};

use admission::check_work;
use exponential::PowerTable;
use layer_cursor::Layer;
use refusals::{Refusal, refuse_unless};
use spline::Grid;

// 11, and then the row.
fn pass(
    grid: Grid,
    widths: &[usize],
    model: &[f32],
    row: &[f32],
    first: &mut [f32],
    second: &mut [f32],
) -> Result<(), Refusal>
    requires { Fits grid model.now widths.now first.old second.old }
    ensures { Passed (net_of grid) model.now widths.now row.now
        first.old second.old first.new second.new result }
{
    refuse_unless(floats::all_finite(model), 11)?;
    let table = PowerTable::new();
    let start = Layer::first(widths, grid);
    passes::run_row(start, grid, &table, widths, model, row, first, second)
}

// +0.0 from `front` up to `widest`; what lies before and behind is untouched.
fn sweep_behind(front: usize, widest: usize, s: &mut [f32])
    requires { (front ≤ widest) × (widest ≤ length s.old) }
    ensures { s.new ≡ take front s.old ++ (zeros (widest - front) ++ drop widest s.old) }
{
    let count = widest - front;
    floats::clear(&mut s[front..], count);
}

// Sweeps both slices, but for the n numbers in front of the one that holds the last of `layers` layers.
fn sweep_pass(layers: usize, n: usize, widest: usize, first: &mut [f32], second: &mut [f32])
    requires { (n ≤ widest) × (widest ≤ length first.old) × (widest ≤ length second.old) }
    ensures { Swept layers n widest first.old second.old first.new second.new }
{
    if layers % 2 == 0 {
        sweep_behind(0, widest, first);
        sweep_behind(n, widest, second);
    } else {
        sweep_behind(n, widest, first);
        sweep_behind(0, widest, second);
    }
}

// Whether the last layer lies in the first slice. No widths count as one, which no call reaches.
#[tactic(auto, unfolding(crate::specs::Forward::in_first))]
fn lies_in_first(widths: &[usize]) -> bool
    ensures { result ≡ in_first widths.now }
{
    widths.len().saturating_sub(1) % 2 != 0
}

// All but the handing back: how many outputs there are.
fn run(
    widths: &[usize],
    grid: Grid,
    model: &[f32],
    row: &[f32],
    first: &mut [f32],
    second: &mut [f32],
) -> Result<usize, Refusal>
    ensures { Forwarded (net_of grid) widths.now grid model.now row.now
        first.old second.old (refusal_of result).number (outputs_in result) first.new second.new }
{
    let sizes = check_work(widths, grid, model.len(), first.len(), second.len())?;
    let layers = widths.len() - 1;
    match pass(grid, widths, model, row, first, second) {
        Ok(()) => {
            let n = widths[layers];
            sweep_pass(layers, n, sizes.widest, first, second);
            Ok(n)
        }
        Err(refusal) => {
            sweep_pass(layers, 0, sizes.widest, first, second);
            Err(refusal)
        }
    }
}

// The same as `forward` wants it, whose proof is a walk by hand for the sake of `finally`: the number lent, and 0
// outputs where it refuses.
fn work(
    number: &mut u32,
    widths: &[usize],
    grid: Grid,
    model: &[f32],
    row: &[f32],
    first: &mut [f32],
    second: &mut [f32],
) -> usize
    ensures { Forwarded (net_of grid) widths.now grid model.now row.now
        first.old second.old number.new result first.new second.new }
{
    match run(widths, grid, model, row, first, second) {
        Ok(n) => {
            *number = 0;
            n
        }
        Err(refusal) => {
            *number = refusal.number;
            0
        }
    }
}

// One row through all layers. The part handed back lies in front of the first slice or of the second, by the number of
// layers, and is empty where the lent number says why. `finally` says what either slice holds once the part is given
// up. No `Result`: `Handed` says where the part lies also when the call refuses, and an `Err` would hand none back.
pub fn forward<'a>(
    number: &mut u32,
    widths: &[usize],
    grid: Grid,
    model: &[f32],
    row: &[f32],
    first: &'a mut [f32],
    second: &'a mut [f32],
) -> &'a [f32]
    ensures* { sem 𝓛 (fsep
        (finally builtin.f32 first.entry.ghost_name
        (forward_first (net_of grid) widths.now grid model.now row.now
        first.old second.old))
        (finally builtin.f32 second.entry.ghost_name
        (forward_second (net_of grid) widths.now grid model.now row.now
        first.old second.old)))
        ∗ ⌜ Handed (net_of grid) widths.now grid model.now row.now first.old
        second.old first.entry.ref_ptr second.entry.ref_ptr result.now result.ref_ptr number.new ⌝ }
{
    let n = work(number, widths, grid, model, row, first, second);
    let lies = lies_in_first(widths);
    either_front::pick(lies, n, first, second)
}
