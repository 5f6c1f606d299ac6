// Public crate: one layer's coefficients from an NPY file, as NumPy writes it. The call takes all arguments and
// answers, or refuses by number (R3.1); one record says the answer and the model that it leaves.
#![tactic(auto)]

ghost use Rattle.std.specs.Prelude.{◌≡◌, ◌*◌, ◌≤◌};
ghost use Rattle.refusals.specs.Refusals.{outcome_of};
ghost use Rattle.npy_header.specs.Steps.{Small};
ghost use Rattle.layer_coefficients.specs.Steps.{Ready, SmallLayer};
ghost use Rattle.npy_reading.specs.Reader.{bytes_fault, NpyRead};
ghost use Rattle.npy_reading.specs.Steps.{FileTaken, ReadDone};

use admission::check_model;
use layer_cursor::Layer;
use refusals::{Refusal, refuse_unless};
use spline::Grid;

// What a file is refused for: its header, then its length, then its numbers.
#[tactic(auto, using(crate::proofs::Faults::bodies), unfolding(crate::specs::Reader::bytes_fault))]
fn check_bytes(
    file: &[u8],
    shape: &[usize],
    edges: usize,
    coefficients: usize,
) -> Result<(), Refusal>
    requires { Small shape.now × (edges * (4 * coefficients) ≤ 1000000) × (coefficients ≤ 1000000) }
    ensures { result ≡ outcome_of (bytes_fault shape.now edges coefficients file.now) 0 }
{
    npy_header::check_header(file, shape)?;
    let at = npy_header::body_at(file);
    let body = &file[at..];
    refuse_unless(body.len() == edges * (4 * coefficients), 29)?;
    refuse_unless(words::all_finite(body, edges * coefficients), 11)
}

// Takes the coefficients of a layer from a file, unless the file is refused.
#[tactic(auto, using(crate::proofs::Faults::accepted_length))]
fn take_file(grid: Grid, model: &mut [f32], layer: Layer, file: &[u8]) -> Result<(), Refusal>
    requires { SmallLayer grid model.old layer }
    ensures { FileTaken grid model.old layer file.now result model.new }
{
    let coefficients = grid.intervals + 3;
    let edges = layer.outputs * layer.inputs;
    let shape = [layer.outputs, layer.inputs, coefficients];
    check_bytes(file, &shape, edges, coefficients)?;
    let body = npy_header::body_at(file);
    layer_coefficients::take_coefficients(model, layer.at, grid.intervals, edges, &file[body..]);
    Ok(())
}

// Past check 8: 37 and the model's 11, and then the file. The model is P numbers long here.
#[tactic(auto, unfolding(crate::specs::Reader::from_model_to_file))]
fn read_sound(
    widths: &[usize],
    grid: Grid,
    model: &mut [f32],
    layer: usize,
    file: &[u8],
) -> Result<(), Refusal>
    requires { Ready widths.now grid model.old }
    ensures { ReadDone widths.now grid model.old layer file.now result
        model.new }
{
    refuse_unless(layer < widths.len() - 1, 37)?;
    refuse_unless(floats::all_finite(model), 11)?;
    let found = layer_coefficients::find_layer(widths, grid, layer);
    take_file(grid, model, found, file)
}

// Refused in the order configuration, 8, 37, 11, and then as the file is; the model is then as it was.
pub fn read_npy(
    widths: &[usize],
    grid: Grid,
    model: &mut [f32],
    layer: usize,
    file: &[u8],
) -> Result<(), Refusal>
    ensures { NpyRead widths.now grid model.old layer file.now result
        model.new }
{
    check_model(widths, grid, model.len())?;
    read_sound(widths, grid, model, layer, file)
}
