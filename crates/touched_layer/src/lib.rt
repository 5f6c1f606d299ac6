// Inner crate: which parameters a layer touches (specs/), and their marks in a map of one byte per parameter.
#![tactic(auto)]

mod coefficients;
mod layer;

pub use layer::{mark_layer, unmark};
