// The scale of a batch's gradients, of the mean over a number of target values.
ghost use Rattle.std.specs.Prelude.{◌≡◌, ◌≤◌};
ghost use Rattle.batch_gradients.specs.Accumulate.{scale_of};

// 2 over the number; f32 has every number that small.
pub fn scale_of(total: usize) -> f32
    requires { total ≤ 16777216 }
    ensures { result ≡ scale_of total }
{
    2.0 / (total as f32)
}
