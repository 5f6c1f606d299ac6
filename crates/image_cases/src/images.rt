// One function for each call that takes an image: whether it answers and leaves what the case says. Before unpacking
// every width is 77 and every parameter 5.0, so that what stays unchanged is seen too.
use case_reading::Case;
use image_reading::Description;

// N image.. number carried, and g lo hi K P where it is accepted
pub fn describe(case: &mut Case) -> Option<()> {
    let mut image = [0; 512];
    let image = case.bytes(&mut image)?;
    let answer = image_reading::describe(image);
    case.meet_outcome(&answer)?;
    if let Ok(description) = answer {
        meet_description(case, description)?;
    }
    case.end()
}

// g lo hi K P
fn meet_description(case: &mut Case, description: Description) -> Option<()> {
    let grid = description.grid;
    case.meet(grid.intervals as u64)?;
    case.meet_floats(&[grid.lo, grid.hi])?;
    case.meet(description.widths as u64)?;
    case.meet(description.parameters as u64)
}

// N image.. number n part(n)..; the number is 9 before the call
pub fn read(case: &mut Case) -> Option<()> {
    let mut image = [0; 512];
    let image = case.bytes(&mut image)?;
    let mut number = 9;
    let part = image_reading::read(image, &mut number);
    case.meet(u64::from(number))?;
    case.meet(part.len() as u64)?;
    case.meet_bytes(part)?;
    case.end()
}

// N image.. A B number carried widths(A).. model(B)..
pub fn unpack(case: &mut Case) -> Option<()> {
    let mut image = [0; 512];
    let image = case.bytes(&mut image)?;
    let mut widths = [77; 8];
    let widths = case.part(&mut widths)?;
    let mut model = [5.0; 128];
    let model = case.part(&mut model)?;
    let outcome = image_unpacking::unpack(image, widths, model);
    case.meet_outcome(&outcome)?;
    case.meet_sizes(widths)?;
    case.meet_floats(model)?;
    case.end()
}
