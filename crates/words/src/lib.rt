#![tactic(auto)]

// Numbers in bytes, the lowest byte first. Each contract is one equation with a definition of `specs/Little.antt`.
ghost use Rattle.std.specs.Prelude.{◌≡◌, ◌+◌, ◌≤◌, ◌<◌, length, drop, get_or};
ghost use Rattle.std.proofs.lemmas.List.Edits.{sets};
ghost use Rattle.words.specs.Little.{digits, index_at, word_at, float_at, float_bytes};

// Byte i from a place on; 0 past the end.
fn byte_at(s: &[u8], at: usize, i: usize) -> u64
    ensures value { result ≡ get_or (drop at s.now) i 0 }
    ensures upper_bound { result < 256 }
{
    if s.len() <= at {
        return 0;
    }
    if s.len() - at <= i {
        return 0;
    }
    u64::from(s[at + i])
}

// The number of 2 bytes.
#[tactic(auto, using(crate::specs::Laws::index_is))]
pub fn index_at(s: &[u8], at: usize) -> u64
    ensures { result ≡ index_at s.now at }
{
    let b0 = byte_at(s, at, 0);
    let b1 = byte_at(s, at, 1);
    b0 + 256 * b1
}

// The number of 8 bytes.
#[tactic(auto, using(crate::specs::Laws::word_is))]
pub fn word_at(s: &[u8], at: usize) -> u64
    ensures { result ≡ word_at s.now at }
{
    let b0 = byte_at(s, at, 0);
    let b1 = byte_at(s, at, 1);
    let b2 = byte_at(s, at, 2);
    let b3 = byte_at(s, at, 3);
    let b4 = byte_at(s, at, 4);
    let b5 = byte_at(s, at, 5);
    let b6 = byte_at(s, at, 6);
    let b7 = byte_at(s, at, 7);
    b0 + 256 * (b1 + 256 * (b2 + 256 * (b3 + 256 * (b4 + 256 * (b5 + 256 * (b6 + 256 * b7))))))
}

#[tactic(auto, unfolding(crate::specs::Little::float_at))]
pub fn float_at(s: &[u8], at: usize) -> f64
    ensures { result ≡ float_at s.now at }
{
    float::float_of(word_at(s, at))
}

// The n lowest bytes of x are stored from a place on.
fn put_digits(out: &mut [u8], at: usize, n: usize, x: u64)
    requires { at + n ≤ length out.old }
    ensures { out.new ≡ sets out.old at (digits n x) }
{
    let mut rest = x;
    for i in 0..n {
        out[at + i] = (rest % 256) as u8;
        rest = rest / 256;
    }
}

pub fn put_index(out: &mut [u8], at: usize, x: u64)
    requires { at + 2 ≤ length out.old }
    ensures { out.new ≡ sets out.old at (digits 2 x) }
{
    put_digits(out, at, 2, x);
}

pub fn put_count(out: &mut [u8], at: usize, x: u64)
    requires { at + 4 ≤ length out.old }
    ensures { out.new ≡ sets out.old at (digits 4 x) }
{
    put_digits(out, at, 4, x);
}

#[tactic(auto, unfolding(crate::specs::Little::float_bytes))]
pub fn put_float(out: &mut [u8], at: usize, x: f64)
    requires { at + 8 ≤ length out.old }
    ensures { out.new ≡ sets out.old at (float_bytes x) }
{
    put_digits(out, at, 8, float::bits_of(x));
}
