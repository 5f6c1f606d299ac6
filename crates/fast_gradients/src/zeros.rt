// Whether a slice is free of -0.0, which a zero that is added to it would change.
ghost use Rattle.std.specs.Prelude.{◌≡◌};
ghost use Rattle.floats.specs.Zeros.{is_minus_zero};
ghost use Rattle.fast_gradients.specs.Adding.{Tested};

// Of the two zeros, the one with a bit set.
#[tactic(auto, using(crate::proofs::MinusZero::zero_by_bits, crate::proofs::MinusZero::no_zero, crate::proofs::MinusZero::eq_real))]
fn is_minus_zero(x: f32) -> bool
    ensures { result ≡ is_minus_zero x }
{
    if x == 0.0 {
        return f32::to_bits(x) != 0;
    }
    false
}

// Reads every number before it answers: with no way out of the loop the compiler tests several at a time.
pub fn no_minus_zero(numbers: &[f32]) -> bool
    ensures { Tested numbers.now result }
{
    numbers
        .iter()
        .fold(true, |clean, x| clean & !is_minus_zero(*x))
}
