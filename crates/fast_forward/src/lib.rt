// Inner crate: a layer forward as `layers` has it, by the four basis values that can be other than zero. SiLU and the
// four values are worked out once for each input. Callers have checked that the layer's parameters are finite (11);
// where the knots' span is not finite, the plain edge is taken, so that no refusal is lost.
#![tactic(auto)]

mod inputs;
mod layer;

pub use inputs::{curve_by, edge_by};
pub use layer::{layer_forward, layer_in};
