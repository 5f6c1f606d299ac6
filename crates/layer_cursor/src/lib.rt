// Inner crate: the one walk over the layers of a flat model. No other loop works out where a layer's part of it begins.
#![tactic(auto)]

ghost use Rattle.std.specs.Prelude.{◌≡◌, ◌+◌, ◌-◌, ◌≤◌, ◌<◌, length};
ghost use Rattle.layers.specs.Widths.{width_at};
ghost use Rattle.layer_cursor.specs.Cursor.{Walkable, Stands};

use local_basis::Mesh;
use spline::Grid;

// A layer: its number, the mesh of its grid, where its part of the model and its nodes begin, and its two widths.
#[derive(Clone, Copy)]
pub struct Layer {
    pub index: usize,
    pub mesh: Mesh,
    pub at: usize,
    pub node: usize,
    pub inputs: usize,
    pub outputs: usize,
}

// A width, and 0 past the last one: so a walk may step past the last layer.
fn width(widths: &[usize], l: usize) -> usize
    ensures { result ≡ width_at widths.now l }
{
    widths.get(l).copied().unwrap_or(0)
}

impl Layer {
    #[tactic(auto, using(layers::proofs::Widths::params_none, crate::proofs::Cursors::widths_none))]
    pub fn first(widths: &[usize], grid: Grid) -> Layer
        requires { grid.intervals ≤ 250000 }
        ensures { Stands grid widths.now 0 result }
    {
        Layer {
            index: 0,
            mesh: local_basis::mesh_of(grid),
            at: 0,
            node: 0,
            inputs: width(widths, 0),
            outputs: width(widths, 1),
        }
    }

    #[tactic(auto, using(crate::proofs::Cursors::small))]
    pub fn next(self, widths: &[usize], grid: Grid) -> Layer
        requires { Walkable grid widths.now × (self.index < length widths.now - 1)
            × Stands grid widths.now self.index self }
        ensures { Stands grid widths.now (self.index + 1) result }
    {
        let stride = grid.intervals + 5;
        let index = self.index + 1;
        Layer {
            index,
            mesh: self.mesh,
            at: self.at + self.outputs * (self.inputs * stride),
            node: self.node + self.inputs,
            inputs: self.outputs,
            outputs: width(widths, index + 1),
        }
    }

    // The layer before this one, also from the place past the last layer, where a walk forward ends.
    pub fn previous(self, widths: &[usize], grid: Grid) -> Layer
        requires { Walkable grid widths.now × (0 < self.index) × (self.index < length widths.now)
            × Stands grid widths.now self.index self }
        ensures { Stands grid widths.now (self.index - 1) result }
    {
        let stride = grid.intervals + 5;
        let index = self.index - 1;
        let inputs = width(widths, index);
        Layer {
            index,
            mesh: self.mesh,
            at: self.at - self.inputs * (inputs * stride),
            node: self.node - inputs,
            inputs,
            outputs: self.inputs,
        }
    }
}
