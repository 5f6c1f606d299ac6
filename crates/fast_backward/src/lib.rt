// Inner crate: what a layer hands back to its inputs, as `gradients` has it, by the four slopes that can be other than
// zero. They and the derivative of SiLU are worked out once for each input. Callers have checked that the layer's
// parameters are finite (11); where the knots' span is not finite, the plain function is taken.
#![tactic(auto)]

mod back;

pub use back::back_layer;
