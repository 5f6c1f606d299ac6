// Public crate: what a refused call says. A call answers `Ok` with what it gives, or `Err` with its refusal.
#![tactic(auto)]

ghost use Rattle.std.specs.Prelude.{◌≡◌};
ghost use Rattle.refusals.specs.Refusals.{◌otherwise◌, plain, outcome_of};

// The number of a refusal (R3.1), and what it carries (R3.2), 0 where it carries nothing.
#[derive(Clone, Copy, Debug, PartialEq, Eq)]
pub struct Refusal {
    pub number: u32,
    pub carried: usize,
}

impl Refusal {
    // One that carries nothing.
    pub fn new(number: u32) -> Refusal
        ensures { result ≡ plain number }
    {
        Refusal { number, carried: 0 }
    }
}

// One check (R3.3): its number where its test fails. Number 0 stands for no refusal.
pub fn refuse_unless(passes: bool, number: u32) -> Result<(), Refusal>
    ensures { result ≡ outcome_of (passes otherwise number) 0 }
{
    if passes || number == 0 {
        Ok(())
    } else {
        Err(Refusal::new(number))
    }
}
