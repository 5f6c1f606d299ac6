// Public crate: training. Each call takes all arguments and answers, or refuses by number (R3.1); one record says the
// answer and the final contents of everything that was lent.
#![tactic(auto)]

mod calls;

pub use calls::{Stop, train, train_step};
