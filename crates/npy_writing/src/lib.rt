// Public crate: one layer's coefficients written as an NPY file, for NumPy. The call takes all arguments and answers,
// or refuses by number (R3.1); one record says the answer and the bytes that it leaves.
#![tactic(auto)]

ghost use Rattle.std.specs.Prelude.{◌≡◌};
ghost use Rattle.layer_coefficients.specs.Steps.{Ready};
ghost use Rattle.npy_writing.specs.Writing.{file_of, NpyWritten};
ghost use Rattle.npy_writing.specs.Steps.{Writable, WriteDone};

use admission::check_model;
use layer_cursor::Layer;
use refusals::{Refusal, refuse_unless};
use spline::Grid;

// All bytes, from the front: the header, and the coefficients of the layer.
fn put_file(widths: &[usize], grid: Grid, model: &[f32], layer: Layer, file: &mut [u8])
    requires { Writable widths.now grid model.now layer.index layer file.old }
    ensures { file.new ≡ file_of widths.now grid model.now layer.index }
{
    npy_front::put_header(file, layer.outputs, layer.inputs, grid.intervals + 3);
    layer_coefficients::put_coefficients(
        model,
        layer.at,
        grid.intervals,
        layer.outputs * layer.inputs,
        &mut file[npy_front::HEADER_BYTES..],
    );
}

// Past check 8: 37, 10 and 11, and then the bytes. The model is P numbers long here.
#[tactic(auto, unfolding(crate::specs::Writing::from10_to11))]
fn write_sound(
    widths: &[usize],
    grid: Grid,
    model: &[f32],
    layer: usize,
    file: &mut [u8],
) -> Result<(), Refusal>
    requires { Ready widths.now grid model.now }
    ensures { WriteDone widths.now grid model.now layer file.old result
        file.new }
{
    refuse_unless(layer < widths.len() - 1, 37)?;
    let found = layer_coefficients::find_layer(widths, grid, layer);
    let edges = found.outputs * found.inputs;
    let bytes = npy_front::HEADER_BYTES + edges * (4 * (grid.intervals + 3));
    refuse_unless(file.len() == bytes, 10)?;
    refuse_unless(floats::all_finite(model), 11)?;
    put_file(widths, grid, model, found, file);
    Ok(())
}

// Refused in the order configuration, 8, 37, 10, 11, and then nothing is written.
pub fn write_npy(
    widths: &[usize],
    grid: Grid,
    model: &[f32],
    layer: usize,
    file: &mut [u8],
) -> Result<(), Refusal>
    ensures { NpyWritten widths.now grid model.now layer file.old result
        file.new }
{
    check_model(widths, grid, model.len())?;
    write_sound(widths, grid, model, layer, file)
}
