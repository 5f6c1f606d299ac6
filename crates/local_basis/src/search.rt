// The interval of knots that holds an input.
ghost use Rattle.std.specs.Prelude.{◌≡◌, true, false, ◌+◌, ◌≤◌};
ghost use Rattle.std.specs.Float.Ieee.{le, lt};
ghost use Rattle.std.specs.Float.Ieee.Scale.{finite};
ghost use Rattle.spline.specs.Spline.{knot_of};
ghost use Rattle.local_basis.specs.Meshes.{Holds, Located};

use crate::Mesh;

#[tactic(auto, unfolding(spline::specs::Spline::knot_of))]
pub fn knot_at(mesh: Mesh, i: usize) -> f32
    requires { i ≤ 300000 }
    ensures { result ≡ knot_of mesh.grid i }
{
    spline::knot_by(mesh.grid.lo, mesh.width, i)
}

// Some interval, most often the right one: from 2^23 to 2^24 the low bits of an f32 are its whole part.
fn guess(mesh: Mesh, x: f32) -> usize
    ensures { result ≤ mesh.grid.intervals + 5 }
{
    let last = mesh.grid.intervals + 5;
    let raised = (x - mesh.grid.lo) / mesh.width + 2.5 + 8_388_608.0;
    if raised < 8_650_752.0 {
        let whole = (raised.to_bits() % 8_388_608) as usize;
        whole.min(last)
    } else {
        last
    }
}

// Down to a knot that x is not below.
fn down(mesh: Mesh, x: f32, start: usize) -> usize
    requires { (start ≤ mesh.grid.intervals + 5) × (le (knot_of mesh.grid 0) x ≡ true) }
    ensures { (result ≤ mesh.grid.intervals + 5) × (le (knot_of mesh.grid result) x ≡ true) }
{
    for at in (1..=start).rev() {
        if knot_at(mesh, at) <= x {
            return at;
        }
    }
    0
}

// Up to an interval that ends above x.
#[tactic(auto, using(crate::proofs::Found::step_up, crate::proofs::Meshes::calm_grid))]
fn up(mesh: Mesh, x: f32, start: usize) -> usize
    requires { (start ≤ mesh.grid.intervals + 5) × (le (knot_of mesh.grid start) x ≡ true)
        × (lt x (knot_of mesh.grid (mesh.grid.intervals + 6)) ≡ true) × (mesh.calm ≡ true) × (finite x ≡ true) }
    ensures { Holds mesh.grid x result }
{
    let last = mesh.grid.intervals + 5;
    for at in start..last {
        if x < knot_at(mesh, at + 1) {
            return at;
        }
    }
    last
}

// The interval that holds x, or one past the last for an x outside the knots. The guess is tested before all else, and
// is nearly always right: the searches are for inputs on a knot or beside one.
#[tactic(auto, using(crate::proofs::Found::outside_by, crate::proofs::Found::in_of, crate::proofs::Found::first_le, crate::proofs::Found::last_lt, crate::proofs::Meshes::calm_grid))]
pub fn interval(mesh: Mesh, x: f32) -> usize
    requires { mesh.calm ≡ true }
    ensures { Located mesh.grid x result }
{
    let near = guess(mesh, x);
    if knot_at(mesh, near) <= x && x < knot_at(mesh, near + 1) {
        return near;
    }
    let last = mesh.grid.intervals + 6;
    if spline::beyond(knot_at(mesh, 0), knot_at(mesh, last), x) {
        return last;
    }
    up(mesh, x, down(mesh, x, near))
}
