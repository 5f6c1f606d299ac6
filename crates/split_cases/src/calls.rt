// One function a call: whether it answers and leaves what the case says.
use case_reading::Case;

// K widths.. g lo hi M model.. N inputs.. T targets.. total D gradients.. B number carried gradients(D).. work(B)..
// The work is filled with 9.0 before.
pub fn accumulate(case: &mut Case) -> Option<()> {
    let mut widths = [0; 8];
    let setup = case.setup(&mut widths)?;
    let mut model = [0.0; 128];
    let model = case.floats(&mut model)?;
    let mut inputs = [0.0; 128];
    let inputs = case.floats(&mut inputs)?;
    let mut targets = [0.0; 128];
    let targets = case.floats(&mut targets)?;
    let total = case.size()?;
    let mut gradients = [0.0; 128];
    let gradients = case.floats(&mut gradients)?;
    let mut work = [9.0; 128];
    let work = case.part(&mut work)?;
    let outcome = split_training::accumulate(
        setup.widths,
        setup.grid,
        model,
        inputs,
        targets,
        total,
        gradients,
        work,
    );
    case.meet_outcome(&outcome)?;
    case.meet_floats(gradients)?;
    case.meet_floats(work)?;
    case.end()
}

// K widths.. g lo hi M model.. D gradients.. rate number carried model(M)..
pub fn apply(case: &mut Case) -> Option<()> {
    let mut widths = [0; 8];
    let setup = case.setup(&mut widths)?;
    let mut model = [0.0; 128];
    let model = case.floats(&mut model)?;
    let mut gradients = [0.0; 128];
    let gradients = case.floats(&mut gradients)?;
    let rate = case.float()?;
    let outcome = split_training::apply(setup.widths, setup.grid, model, gradients, rate);
    case.meet_outcome(&outcome)?;
    case.meet_floats(model)?;
    case.end()
}
