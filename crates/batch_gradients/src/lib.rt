// Inner crate: a batch's rows taken through the layers, to test them or to add their gradients to a lent slice; and the
// scale that these have.
#![tactic(auto)]

mod scale;
mod taking;

pub use scale::scale_of;
pub use taking::take_rows;
