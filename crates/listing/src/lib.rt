// Inner crate: the listing of an image, line by line, in a lent slice that has room for the longest one.
#![tactic(auto)]

ghost use Rattle.std.specs.Prelude.{◌≡◌, ◌+◌, ◌*◌, ◌≤◌, length};
ghost use Rattle.text.specs.Appended.{Appended, AppendedWithin};
ghost use Rattle.listing.specs.Listing.{grid_line, layer_text, layers_text, sound_text, listing_of};
ghost use Rattle.listing.specs.Steps.{FiniteEnds, Listable};

use image_reading::Description;
use spline::Grid;
use text::{append, append_labelled, append_number, append_pattern};

// An image of more bytes is refused.
const MOST_BYTES: usize = 65_536;

fn grid_line(out: &mut [u8], at: usize, grid: Grid) -> usize
    requires { (at + 44 ≤ length out.old) × FiniteEnds grid }
    ensures { AppendedWithin 44 out.old at (grid_line grid) out.new result }
{
    let labelled = append(out, at, b"grid ");
    let counted = append_number(out, labelled, grid.intervals, b' ');
    let lower = append_pattern(out, counted, grid.lo.to_bits(), b' ');
    append_pattern(out, lower, grid.hi.to_bits(), b'\n')
}

// Layer l, from its number, its two widths and its parameters.
fn layer_line(
    out: &mut [u8],
    at: usize,
    layer: usize,
    inputs: usize,
    outputs: usize,
    parameters: usize,
) -> usize
    requires { at + 90 ≤ length out.old }
    ensures { AppendedWithin 90 out.old at (layer_text layer inputs outputs parameters)
        out.new result }
{
    let labelled = append(out, at, b"layer ");
    let numbered = append_number(out, labelled, layer, b' ');
    let fed = append_number(out, numbered, inputs, b' ');
    let fanned = append_number(out, fed, outputs, b' ');
    append_number(out, fanned, parameters, b'\n')
}

// One line for each layer; the widths follow the parameters. The loop counts, for a line shows its layer's number, and
// that number says where the layer's two widths are: pairs of chunks would be no plainer.
fn layer_lines(out: &mut [u8], at: usize, image: &[u8], description: Description) -> usize
    requires { (at + 90 * description.widths ≤ length out.old) × Listable image.now description }
    ensures { AppendedWithin (90 * description.widths) out.old at
        (layers_text image.now description) out.new result }
{
    let layers = description.widths - 1;
    let from = 4 * description.parameters;
    let each = description.grid.intervals + 5;
    let mut next = at;
    for layer in 0..layers {
        let place = from + layer * 4;
        let inputs = words::size(image, place);
        let outputs = words::size(image, place + 4);
        let parameters = outputs * (inputs * each);
        next = layer_line(out, next, layer, inputs, outputs, parameters);
    }
    next
}

fn render_sound(out: &mut [u8], image: &[u8], description: Description) -> usize
    requires { (71 + 90 * description.widths ≤ length out.old) × Listable image.now description }
    ensures { Appended out.old 0 (sound_text image.now description) out.new result }
{
    let after_grid = grid_line(out, 0, description.grid);
    let after_layers = layer_lines(out, after_grid, image, description);
    append_labelled(out, after_layers, b"total ", description.parameters)
}

// Room for the longest listing. Its length is all that a caller needs to know.
pub fn room() -> [u8; 1500000]
    ensures { 1500000 ≡ length result }
{
    [0; 1500000]
}

// The text stands at the front of `out`, and the answer is its length.
pub fn render(out: &mut [u8], image: &[u8]) -> usize
    requires { 1500000 ≤ length out.old }
    ensures { Appended out.old 0 (listing_of image.now) out.new result }
{
    if image.len() > MOST_BYTES {
        return append_labelled(out, 0, b"refused ", 24);
    }
    match image_reading::describe(image) {
        Ok(description) => render_sound(out, image, description),
        Err(refusal) => append_labelled(out, 0, b"refused ", refusal.number as usize),
    }
}
