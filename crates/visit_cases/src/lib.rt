// Inner crate: settled cases of the visit map, each a slice of words: the arguments, what the call must answer, and what it must
// leave in both work slices, which are filled with 9.0 before, and in the map, which is filled with 7. f32 numbers are words of
// 32 bits.
#![tactic(auto)]

use case_reading::Case;

// Another tag agrees with nothing.
pub fn agrees(tag: u8, words: &[u64]) -> bool {
    let mut case = Case::new(words);
    let met = match tag {
        b'V' => visit_map(&mut case),
        _ => None,
    };
    met.is_some()
}

// K widths.. g lo hi M model.. N inputs.. A B O number carried first(A).. second(B).. map(O)..
fn visit_map(case: &mut Case) -> Option<()> {
    let mut widths = [0; 8];
    let setup = case.setup(&mut widths)?;
    let mut model = [0.0; 128];
    let model = case.floats(&mut model)?;
    let mut inputs = [0.0; 128];
    let inputs = case.floats(&mut inputs)?;
    let mut first = [9.0; 128];
    let first = case.part(&mut first)?;
    let mut second = [9.0; 128];
    let second = case.part(&mut second)?;
    let mut map = [7; 128];
    let map = case.part(&mut map)?;
    let outcome = visit_map::visit_map(setup.widths, setup.grid, model, inputs, first, second, map);
    case.meet_outcome(&outcome)?;
    case.meet_floats(first)?;
    case.meet_floats(second)?;
    case.meet_bytes(map)?;
    case.end()
}
