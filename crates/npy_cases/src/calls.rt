// One function a call: whether it answers and leaves what the case says.
use case_reading::Case;

// K widths.. g lo hi M model.. layer L number carried file(L)..
// Before the call every byte is 85 (hexadecimal 55).
pub fn write(case: &mut Case) -> Option<()> {
    let mut widths = [0; 8];
    let setup = case.setup(&mut widths)?;
    let mut model = [0.0; 128];
    let model = case.floats(&mut model)?;
    let layer = case.size()?;
    let mut file = [85; 512];
    let file = case.part(&mut file)?;
    let outcome = npy_writing::write_npy(setup.widths, setup.grid, model, layer, file);
    case.meet_outcome(&outcome)?;
    case.meet_bytes(file)?;
    case.end()
}

// K widths.. g lo hi M model.. layer N file.. number carried model(M)..
pub fn read(case: &mut Case) -> Option<()> {
    let mut widths = [0; 8];
    let setup = case.setup(&mut widths)?;
    let mut model = [0.0; 128];
    let model = case.floats(&mut model)?;
    let layer = case.size()?;
    let mut file = [0; 512];
    let file = case.bytes(&mut file)?;
    let outcome = npy_reading::read_npy(setup.widths, setup.grid, model, layer, file);
    case.meet_outcome(&outcome)?;
    case.meet_floats(model)?;
    case.end()
}
