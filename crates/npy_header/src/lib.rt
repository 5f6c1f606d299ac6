// Inner crate: the header of an NPY file of version 1.0 as it is read: whether a lent file's says that f32 numbers of
// an expected shape follow, row by row.
#![tactic(auto)]

mod entries;
mod frame;
mod sizes;

pub use frame::{body_at, check_header};
