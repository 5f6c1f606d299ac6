// Which coefficients an input touches, and their marks in one edge, by the four basis values and slopes that can be
// other than zero.
ghost use Rattle.std.specs.Prelude.{◌≡◌, cond, ◌+◌, ◌≤◌, ◌<◌, length};
ghost use Rattle.layers.specs.Net.{basis_of};
ghost use Rattle.touched_layer.specs.Touched.{touches, touches_by};
ghost use Rattle.touched_layer.specs.Marks.{mark_at, four_marked};

use local_basis::Eight;
use spline::Grid;

// Whether a coefficient of this basis value and this slope is touched: a value may underflow where its slope does not.
#[tactic(auto, unfolding(crate::specs::Touched::touches_by))]
fn touched_by(value: f32, slope: f32) -> bool
    ensures { result ≡ touches_by value slope }
{
    value != 0.0 || slope != 0.0
}

// Whether the number x touches coefficient k.
#[tactic(auto, unfolding(crate::specs::Touched::touches))]
pub fn is_touched(grid: Grid, k: usize, x: f32) -> bool
    requires { (grid.intervals ≤ 250000) × (k < grid.intervals + 3) }
    ensures { result ≡ touches (basis_of grid) k x }
{
    touched_by(
        spline::basis_value(grid, k, x),
        spline::basis_slope(grid, k, x),
    )
}

pub fn mark(byte: u8, touched: bool) -> u8
    ensures { result ≡ cond touched 1 byte }
{
    if touched { 1 } else { byte }
}

// Byte k, by its coefficient's basis value and slope.
#[tactic(auto, unfolding(crate::specs::Marks::mark_at))]
fn mark_at(map: &mut [u8], k: usize, value: f32, slope: f32)
    requires { k < length map.old }
    ensures { map.new ≡ mark_at k (touches_by value slope) map.old }
{
    map[k] = mark(map[k], touched_by(value, slope));
}

// Four neighbouring bytes.
pub fn mark_four(eight: Eight, map: &mut [u8])
    requires { eight.values.start + 4 ≤ length map.old }
    ensures { map.new ≡ four_marked eight map.old }
{
    let values = eight.values;
    let slopes = eight.slopes;
    let at = values.start;
    mark_at(map, at, values.first, slopes.first);
    mark_at(map, at + 1, values.second, slopes.second);
    mark_at(map, at + 2, values.third, slopes.third);
    mark_at(map, at + 3, values.fourth, slopes.fourth);
}
