// One function a call: whether it answers and leaves what the case says. Before the call both lent slices are filled with 9.0, so
// that what stays unchanged is seen too.
use case_reading::Case;

// K widths.. g lo hi M model.. N inputs.. T targets.. A B rate number carried model(M).. gradients(A).. work(B)..
pub fn train_step(case: &mut Case) -> Option<()> {
    let mut widths = [0; 8];
    let setup = case.setup(&mut widths)?;
    let mut model = [0.0; 128];
    let model = case.floats(&mut model)?;
    let mut inputs = [0.0; 128];
    let inputs = case.floats(&mut inputs)?;
    let mut targets = [0.0; 128];
    let targets = case.floats(&mut targets)?;
    let mut gradients = [9.0; 128];
    let gradients = case.part(&mut gradients)?;
    let mut work = [9.0; 128];
    let work = case.part(&mut work)?;
    let rate = case.float()?;
    let outcome = training::train_step(
        setup.widths,
        setup.grid,
        model,
        inputs,
        targets,
        rate,
        gradients,
        work,
    );
    case.meet_outcome(&outcome)?;
    meet_left(case, model, gradients, work)
}

// K widths.. g lo hi M model.. N inputs.. T targets.. A B rate steps number carried done model(M).. gradients(A).. work(B)..
pub fn train(case: &mut Case) -> Option<()> {
    let mut widths = [0; 8];
    let setup = case.setup(&mut widths)?;
    let mut model = [0.0; 128];
    let model = case.floats(&mut model)?;
    let mut inputs = [0.0; 128];
    let inputs = case.floats(&mut inputs)?;
    let mut targets = [0.0; 128];
    let targets = case.floats(&mut targets)?;
    let mut gradients = [9.0; 128];
    let gradients = case.part(&mut gradients)?;
    let mut work = [9.0; 128];
    let work = case.part(&mut work)?;
    let rate = case.float()?;
    let steps = case.size()?;
    let answer = training::train(
        setup.widths,
        setup.grid,
        model,
        inputs,
        targets,
        steps,
        rate,
        gradients,
        work,
    );
    case.meet_outcome(&answer.map_err(|stop| stop.refusal))?;
    case.meet(answer.unwrap_or_else(|stop| stop.done) as u64)?;
    meet_left(case, model, gradients, work)
}

// model(M).. gradients(A).. work(B)..
fn meet_left(case: &mut Case, model: &[f32], gradients: &[f32], work: &[f32]) -> Option<()> {
    case.meet_floats(model)?;
    case.meet_floats(gradients)?;
    case.meet_floats(work)?;
    case.end()
}
