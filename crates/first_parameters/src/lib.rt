// Inner crate: the first parameters of a model, drawn from a seed. The generator goes by value from edge to edge.
#![tactic(auto)]

ghost use Rattle.std.specs.Prelude.{◌≡◌, ◌+◌, ◌*◌, ◌≤◌, length};
ghost use Rattle.first_parameters.specs.Initial.{edge_initial, layer_initial, model_initial};
ghost use Rattle.first_parameters.specs.Filled.{Filled, Whole};

use generator::SplitMix64;
use layer_cursor::Layer;
use spline::Grid;

// One edge: the base weight's draw comes before the coefficients'.
fn fill_edge(random: SplitMix64, intervals: usize, root: f32, params: &mut [f32]) -> SplitMix64
    requires { (intervals ≤ 250000) × (intervals + 5 ≤ length params.old) }
    ensures { Filled (edge_initial intervals root random) (intervals + 5) (intervals + 4) random
        params.old params.new result }
{
    let base = random.signed_uniform();
    params[0] = base.value / root;
    params[1] = 1.0;
    let mut next = base.next;
    let end = intervals + 5;
    for coefficient in params[2..end].iter_mut() {
        let drawn = next.signed_uniform();
        *coefficient = 0.01 * drawn.value;
        next = drawn.next;
    }
    next
}

// One layer, edge by edge. All edges divide by the same root, so it is worked out once.
#[tactic(auto, using(crate::proofs::Parts::edges_below))]
fn fill_layer(
    mut random: SplitMix64,
    intervals: usize,
    inputs: usize,
    outputs: usize,
    params: &mut [f32],
) -> SplitMix64
    requires { (intervals ≤ 250000) × (outputs * (inputs * (intervals + 5)) ≤ length params.old) }
    ensures { Filled (layer_initial intervals inputs outputs random) (outputs * (inputs * (intervals + 5)))
        (outputs * inputs * (intervals + 4)) random params.old params.new result }
{
    let stride = intervals + 5;
    let root = generator::root(inputs);
    let edges = outputs * inputs;
    // By place, since a proof does not know what the parts of `chunks_exact_mut` were left with.
    for e in 0..edges {
        let at = e * stride;
        random = fill_edge(random, intervals, root, &mut params[at..]);
    }
    random
}

// All layers, each on the part of the model that begins at its own first edge. What the model held before is gone.
pub fn initialise(widths: &[usize], grid: Grid, seed: u64, model: &mut [f32])
    requires { Whole grid widths.now model.old }
    ensures { model.new ≡ model_initial widths.now grid.intervals seed }
{
    let mut random = SplitMix64::new(seed);
    let mut layer = Layer::first(widths, grid);
    for _ in 0..widths.len() - 1 {
        let at = layer.at;
        random = fill_layer(
            random,
            grid.intervals,
            layer.inputs,
            layer.outputs,
            &mut model[at..],
        );
        layer = layer.next(widths, grid);
    }
}
