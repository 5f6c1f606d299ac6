// Inner crate: settled cases of a single forward pass, each a slice of words: the arguments, the part that the call must hand
// back, the lent number, and what must be left in both work slices, which are filled with 9.0 before.
#![tactic(auto)]

use case_reading::{Case, Setup};

// A tag that is none of these agrees with nothing.
pub fn agrees(tag: u8, words: &[u64]) -> bool {
    let mut case = Case::new(words);
    let met = match tag {
        b'F' => forward(&mut case),
        b'G' => drawn_forward(&mut case),
        _ => None,
    };
    met.is_some()
}

// K widths.. g lo hi M model.. N row.. A B n part(n).. number first(A).. second(B)..
fn forward(case: &mut Case) -> Option<()> {
    let mut widths = [0; 8];
    let setup = case.setup(&mut widths)?;
    let mut model = [0.0; 128];
    let model = case.floats(&mut model)?;
    let mut row = [0.0; 128];
    let row = case.floats(&mut row)?;
    forward_row(case, setup, model, row)
}

// K widths.. g lo hi seed N row.. A B n part(n).. number first(A).. second(B)..: on the model drawn from the seed
fn drawn_forward(case: &mut Case) -> Option<()> {
    let mut widths = [0; 8];
    let setup = case.setup(&mut widths)?;
    let seed = case.word()?;
    let mut row = [0.0; 128];
    let row = case.floats(&mut row)?;
    let mut model = [9.0; 1024];
    let model = drawn_model(setup, seed, &mut model)?;
    forward_row(case, setup, model, row)
}

// The model has the length that the configuration asks, so that it is drawn.
fn drawn_model<'b>(setup: Setup, seed: u64, model: &'b mut [f32]) -> Option<&'b mut [f32]> {
    let parameters = config::parameter_count(setup.widths, setup.grid).ok()?;
    let model = model.get_mut(..parameters)?;
    initialisation::initialise(setup.widths, setup.grid, seed, model).ok()?;
    Some(model)
}

// A B n part(n).. number first(A).. second(B)..
fn forward_row(case: &mut Case, setup: Setup, model: &[f32], row: &[f32]) -> Option<()> {
    let mut first = [9.0; 128];
    let first = case.part(&mut first)?;
    let mut second = [9.0; 128];
    let second = case.part(&mut second)?;
    let mut number = 99;
    let part = forward::forward(
        &mut number,
        setup.widths,
        setup.grid,
        model,
        row,
        first,
        second,
    );
    case.meet(part.len() as u64)?;
    case.meet_floats(part)?;
    case.meet(u64::from(number))?;
    case.meet_floats(first)?;
    case.meet_floats(second)?;
    case.end()
}
