#![tactic(auto)]

// Work memory zeroed, several slices at a time.
ghost use Rattle.std.specs.Prelude.{◌≡◌, length, replicate};
ghost use Rattle.clear.specs.Clear.{zeros, zero_floats};

// Three slices of floats.
pub fn zero3(a: &mut [f64], b: &mut [f64], c: &mut [f64])
    ensures a_after { a.new ≡ zero_floats a.old }
    ensures b_after { b.new ≡ zero_floats b.old }
    ensures c_after { c.new ≡ zero_floats c.old }
{
    room::zero(a);
    room::zero(b);
    room::zero(c);
}

// Three slices of whole numbers.
pub fn zero_counts3(a: &mut [u64], b: &mut [u64], c: &mut [u64])
    ensures a_after { a.new ≡ zeros a.old }
    ensures b_after { b.new ≡ zeros b.old }
    ensures c_after { c.new ≡ zeros c.old }
{
    room::zero_counts(a);
    room::zero_counts(b);
    room::zero_counts(c);
}

// Four slices of whole numbers.
pub fn zero_counts4(a: &mut [u64], b: &mut [u64], c: &mut [u64], d: &mut [u64])
    ensures a_after { a.new ≡ zeros a.old }
    ensures b_after { b.new ≡ zeros b.old }
    ensures c_after { c.new ≡ zeros c.old }
    ensures d_after { d.new ≡ zeros d.old }
{
    room::zero_counts(a);
    room::zero_counts(b);
    room::zero_counts(c);
    room::zero_counts(d);
}
