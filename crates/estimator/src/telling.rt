// Inner: how an answer goes out through C. The number of refusal is returned, 0 for none, and what the refusal carries
// goes into a lent number.
ghost use Rattle.std.specs.Prelude.{◌≡◌};
ghost use Rattle.refusals.specs.Refusals.{refusal_of};
ghost use Rattle.estimator.specs.Linkage.{Told};

use refusals::Refusal;

pub fn tell<T: Copy>(answer: Result<T, Refusal>, carried: &mut usize) -> u32
    ensures { Told refusal_of result carried.new answer }
{
    match answer {
        Ok(_) => {
            *carried = 0;
            0
        }
        Err(refusal) => {
            *carried = refusal.carried;
            refusal.number
        }
    }
}
