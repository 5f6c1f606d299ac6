// A layer, input by input: from one slice to another, and within one slice.
ghost use Rattle.std.specs.Prelude.{◌≡◌, ◌++◌, ◌+◌, drop};
ghost use Rattle.floats.specs.Places.{part_at, written_at};
ghost use Rattle.layers.specs.Basis.{Basis};
ghost use Rattle.layers.specs.Net.{basis_of};
ghost use Rattle.layers.specs.Layer.{layer_of};
ghost use Rattle.fast_forward.specs.Inputs.{Room, Within};

use crate::inputs::add_input;
use exponential::PowerTable;
use local_basis::Mesh;

// From one slice to the first n numbers of another.
pub fn layer_forward(
    mesh: Mesh,
    table: &PowerTable,
    params: &[f32],
    inputs: &[f32],
    outputs: &mut [f32],
    n: usize,
)
    requires { Room mesh.grid params.now inputs.now outputs.old n }
    ensures { outputs.new ≡ layer_of (basis_of mesh.grid) params.now
        inputs.now n ++ drop n
        outputs.old }
{
    let w = inputs.len();
    floats::clear(outputs, n);
    for (j, x) in inputs.iter().enumerate() {
        add_input(
            mesh.grid.intervals,
            mesh.grid.lo,
            mesh.grid.hi,
            mesh.width,
            mesh.calm,
            table,
            params,
            w,
            j,
            *x,
            outputs,
            n,
        );
    }
}

// From the w numbers at `from` to n numbers at `to`.
pub fn layer_in(
    mesh: Mesh,
    table: &PowerTable,
    params: &[f32],
    work: &mut [f32],
    from: usize,
    w: usize,
    to: usize,
    n: usize,
)
    requires { Within mesh.grid params.now work.old from w to n (to + n) }
    ensures { work.new ≡ written_at work.old to
        (layer_of (basis_of mesh.grid) params.now (part_at work.old from w) n) }
{
    let end = from + w;
    let (before, behind) = work.split_at_mut(to);
    floats::clear(behind, n);
    for (j, x) in before[from..end].iter().enumerate() {
        add_input(
            mesh.grid.intervals,
            mesh.grid.lo,
            mesh.grid.hi,
            mesh.width,
            mesh.calm,
            table,
            params,
            w,
            j,
            *x,
            behind,
            n,
        );
    }
}
