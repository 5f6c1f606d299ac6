// Whether the writer answers and writes what the case says. Before the call every byte is 85 (hexadecimal 55).
use case_reading::Case;

// K widths.. g lo hi M model.. N number carried image(N)..
pub fn write(case: &mut Case) -> Option<()> {
    let mut widths = [0; 8];
    let setup = case.setup(&mut widths)?;
    let mut model = [0.0; 128];
    let model = case.floats(&mut model)?;
    let mut image = [85; 128];
    let image = case.part(&mut image)?;
    let outcome = image_writing::write(setup.widths, setup.grid, model, image);
    case.meet_outcome(&outcome)?;
    case.meet_bytes(image)?;
    case.end()
}
