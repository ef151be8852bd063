#![tactic(auto)]

// A refusal: the error of every function that can refuse.
ghost use Rattle.std.specs.Prelude.{◌≡◌};
ghost use Rattle.refusal.specs.Outcome.{refusal_of};

// Document 01's number, from 1 on.
#[derive(Clone, Copy)]
pub struct Refusal {
    pub number: u64,
}

pub fn refuse(number: u64) -> Refusal
    ensures { result ≡ refusal_of number }
{
    Refusal { number }
}
