// One function a call: whether it answers and leaves what the case says. Before a call each work slice is filled with 9.0, the
// outputs with 5.0 and a model to be drawn with 9.0, so that what stays unchanged is seen too.
use case_reading::{Case, Setup};

// K widths.. g lo hi number carried P, where P is 0 on refusal
pub fn check(case: &mut Case) -> Option<()> {
    let mut widths = [0; 8];
    let setup = case.setup(&mut widths)?;
    let answer = config::check(setup.widths, setup.grid);
    case.meet_outcome(&answer)?;
    case.meet(answer.map_or(0, |sizes| sizes.parameters as u64))?;
    case.end()
}

// K widths.. g lo hi seed M number carried model(M)..
pub fn initialise(case: &mut Case) -> Option<()> {
    let mut widths = [0; 8];
    let setup = case.setup(&mut widths)?;
    let seed = case.word()?;
    let mut model = [9.0; 128];
    let model = case.part(&mut model)?;
    let outcome = initialisation::initialise(setup.widths, setup.grid, seed, model);
    case.meet_outcome(&outcome)?;
    case.meet_floats(model)?;
    case.end()
}

// K widths.. g lo hi M model.. N inputs.. A B O number carried first(A).. second(B).. outputs(O)..
pub fn predict(case: &mut Case) -> Option<()> {
    let mut widths = [0; 8];
    let setup = case.setup(&mut widths)?;
    let mut model = [0.0; 128];
    let model = case.floats(&mut model)?;
    let mut inputs = [0.0; 128];
    let inputs = case.floats(&mut inputs)?;
    predict_batch(case, setup, model, inputs)
}

// K widths.. g lo hi seed N inputs.. A B O number carried first(A).. second(B).. outputs(O)..
// As `predict`, on the model that is drawn from the seed: for models that are longer than a case.
pub fn drawn_predict(case: &mut Case) -> Option<()> {
    let mut widths = [0; 8];
    let setup = case.setup(&mut widths)?;
    let seed = case.word()?;
    let mut inputs = [0.0; 128];
    let inputs = case.floats(&mut inputs)?;
    let mut model = [9.0; 1024];
    let model = drawn_model(setup, seed, &mut model)?;
    predict_batch(case, setup, model, inputs)
}

// The model has the length that the configuration asks, so that it is drawn.
fn drawn_model<'b>(setup: Setup, seed: u64, model: &'b mut [f32]) -> Option<&'b mut [f32]> {
    let parameters = config::parameter_count(setup.widths, setup.grid).ok()?;
    let model = model.get_mut(..parameters)?;
    initialisation::initialise(setup.widths, setup.grid, seed, model).ok()?;
    Some(model)
}

// A B O number carried first(A).. second(B).. outputs(O)..
fn predict_batch(case: &mut Case, setup: Setup, model: &[f32], inputs: &[f32]) -> Option<()> {
    let mut first = [9.0; 128];
    let first = case.part(&mut first)?;
    let mut second = [9.0; 128];
    let second = case.part(&mut second)?;
    let mut outputs = [5.0; 128];
    let outputs = case.part(&mut outputs)?;
    let outcome = prediction::predict_batch(
        setup.widths,
        setup.grid,
        model,
        inputs,
        first,
        second,
        outputs,
    );
    case.meet_outcome(&outcome)?;
    case.meet_floats(first)?;
    case.meet_floats(second)?;
    case.meet_floats(outputs)?;
    case.end()
}

// K widths.. g lo hi M model.. N inputs.. T targets.. A B number carried loss first(A).. second(B).., where loss is 0 on refusal
pub fn mse_loss(case: &mut Case) -> Option<()> {
    let mut widths = [0; 8];
    let setup = case.setup(&mut widths)?;
    let mut model = [0.0; 128];
    let model = case.floats(&mut model)?;
    let mut inputs = [0.0; 128];
    let inputs = case.floats(&mut inputs)?;
    let mut targets = [0.0; 128];
    let targets = case.floats(&mut targets)?;
    let mut first = [9.0; 128];
    let first = case.part(&mut first)?;
    let mut second = [9.0; 128];
    let second = case.part(&mut second)?;
    let loss = loss::mse_loss(
        setup.widths,
        setup.grid,
        model,
        inputs,
        targets,
        first,
        second,
    );
    case.meet_outcome(&loss)?;
    case.meet_floats(&[loss.unwrap_or(0.0)])?;
    case.meet_floats(first)?;
    case.meet_floats(second)?;
    case.end()
}
