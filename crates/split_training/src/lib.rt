// Public crate: a training step in two calls. Several builders gather gradients with `accumulate`, and one applies
// them with `apply`. Each call takes all arguments and answers, or refuses by number (R3.1); one record says the
// answer and the final contents of everything that was lent.
#![tactic(auto)]

mod accumulating;
mod applying;

pub use accumulating::accumulate;
pub use applying::apply;
