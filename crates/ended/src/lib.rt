#![tactic(auto)]

// How a call ends: a refusal, or an answer of so many bytes.
ghost use Rattle.std.specs.Prelude.{◌≡◌, ◌<◌};
ghost use Rattle.ended.specs.Ends.{stopped, answered, told_by};

use refusal::Refusal;

#[derive(Clone, Copy)]
pub struct Ended {
    pub verdict: Result<(), Refusal>,
    pub bytes: usize,
}

pub fn stop(r: Refusal) -> Ended
    ensures { result ≡ stopped r }
{
    Ended {
        verdict: Err(r),
        bytes: 0,
    }
}

pub fn answer(n: usize) -> Ended
    ensures { result ≡ answered n }
{
    Ended {
        verdict: Ok(()),
        bytes: n,
    }
}

// What an entry point hands back: the number, and 256 times the bytes.
pub fn told_by(v: Result<(), Refusal>, n: usize) -> u64
    requires { n < 72057594037927936 }
    ensures { result ≡ told_by v n }
{
    match v {
        Ok(()) => 256 * (n as u64),
        Err(r) => r.number,
    }
}
