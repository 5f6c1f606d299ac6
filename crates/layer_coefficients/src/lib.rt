// Inner crate: the coefficients of one layer, moved between a flat model and the words of a file. The weights between them stay
// where they are.
#![tactic(auto)]

ghost use Rattle.std.specs.Prelude.{◌≡◌, true, ◌++◌, ◌*◌, ◌+◌, ◌-◌, ◌<◌, length, drop};
ghost use Rattle.floats.specs.Sums.{all_finite};
ghost use Rattle.layer_cursor.specs.Cursor.{Walkable, Stands};
ghost use Rattle.layer_coefficients.specs.Coefficients.{body_of, replaced};
ghost use Rattle.layer_coefficients.specs.Steps.{Fitting};

use layer_cursor::Layer;
use spline::Grid;

// The layer of a number.
pub fn find_layer(widths: &[usize], grid: Grid, layer: usize) -> Layer
    requires { Walkable grid widths.now × (layer < length widths.now - 1) }
    ensures { Stands grid widths.now layer result }
{
    let mut found = Layer::first(widths, grid);
    for _ in 0..layer {
        found = found.next(widths, grid);
    }
    found
}

// The coefficients of so many edges as words, at the front of the bytes. Edges are taken by place, here and below: after
// `chunks_exact_mut` a proof knows no byte.
pub fn put_coefficients(
    model: &[f32],
    from: usize,
    intervals: usize,
    edges: usize,
    bytes: &mut [u8],
)
    requires { Fitting model.now from intervals edges bytes.old × (all_finite model.now ≡ true) }
    ensures { bytes.new ≡ body_of model.now from intervals edges
        ++ drop (edges * (4 * (intervals + 3))) bytes.old }
{
    let each = 4 * (intervals + 3);
    for edge in 0..edges {
        let at = from + edge * (intervals + 5) + 2;
        let end = at + (intervals + 3);
        let place = edge * each;
        words::put_floats(&mut bytes[place..], &model[at..end]);
    }
}

// The coefficients of so many edges from the words at the front of the bytes.
pub fn take_coefficients(
    model: &mut [f32],
    from: usize,
    intervals: usize,
    edges: usize,
    bytes: &[u8],
)
    requires { Fitting model.old from intervals edges bytes.now }
    ensures { model.new ≡ replaced model.old from intervals edges bytes.now }
{
    let each = 4 * (intervals + 3);
    for edge in 0..edges {
        let first = from + edge * (intervals + 5) + 2;
        let end = first + (intervals + 3);
        let place = edge * each;
        words::take_floats(&bytes[place..], &mut model[first..end]);
    }
}
