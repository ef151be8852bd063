#![tactic(auto)]

// What `solidjob` prints: lines of text out of a call's number and the bytes of its answer.
ghost use Rattle.std.specs.Prelude.{◌≡◌, ◌+◌, ◌*◌, ◌%◌, ◌≤◌, ◌<◌, length, drop, get_or};
ghost use Rattle.std.proofs.lemmas.List.Edits.{sets};
ghost use Rattle.lines.specs.Text.{decimal, answer_line, body_line, way, shell_line, count, behind, skip, lines_of};
ghost use Rattle.lines.specs.Turns.{Turn};

// Where the walk over the bytes stands: behind so many bodies, and so many shells of the last, which has others left.
#[derive(Clone, Copy)]
struct Spot {
    at: usize,
    body: u64,
    shell: u64,
    left: u64,
}

#[derive(Clone, Copy)]
struct Turned {
    spot: Spot,
    end: usize,
}

// The text stands at a place; returns the place behind it.
fn put(out: &mut [u8], at: usize, text: &[u8]) -> usize
    requires { at + length text.now ≤ length out.old }
    ensures value { result ≡ at + length text.now }
    ensures out_after { out.new ≡ sets out.old at text.now }
{
    let end = at + text.len();
    out[at..end].copy_from_slice(text);
    end
}

fn digit(x: u64) -> u8
    ensures { result ≡ 48 + x % 10 }
{
    (48 + x % 10) as u8
}

// The digits of x up to the end of the text; returns where they begin.
fn spell(x: u64, text: &mut [u8; 20]) -> usize
    requires { length text.old ≡ 20 }
    ensures { (result ≤ 19) × (drop result text.new ≡ decimal x) × (length text.new ≡ 20) }
{
    let mut rest = x;
    let mut i = 19;
    // It ends with the digits, of which there are as many as x has, so this is no counting loop.
    while (9 < rest) & (0 < i) {
        text[i] = digit(rest);
        rest = rest / 10;
        i -= 1;
    }
    text[i] = digit(rest);
    i
}

#[tactic(auto, using(crate::specs::Text::decimal, crate::specs::Turns::part_all, crate::specs::Turns::decimal_short))]
fn put_decimal(out: &mut [u8], at: usize, x: u64) -> usize
    requires { at + 20 ≤ length out.old }
    ensures value { (result ≡ at + length (decimal x)) × (result ≤ at + 20) }
    ensures out_after { out.new ≡ sets out.old at (decimal x) }
{
    let mut text = [0u8; 20];
    let i = spell(x, &mut text);
    put(out, at, &text[i..])
}

fn put_answer(out: &mut [u8], number: u64) -> usize
    requires { 28 ≤ length out.old }
    ensures value { (result ≡ length (answer_line number)) × (result ≤ 28) }
    ensures out_after { out.new ≡ sets out.old 0 (answer_line number) }
{
    let a = put(out, 0, b"answer ");
    let b = put_decimal(out, a, number);
    put(out, b, b"\n")
}

fn put_body(out: &mut [u8], at: usize, body: u64, shells: u64) -> usize
    requires { at + 54 ≤ length out.old }
    ensures value { (result ≡ at + length (body_line body shells)) × (result ≤ at + 54) }
    ensures out_after { out.new ≡ sets out.old at (body_line body shells) }
{
    let a = put(out, at, b"body ");
    let b = put_decimal(out, a, body);
    let c = put(out, b, b" shells ");
    let d = put_decimal(out, c, shells);
    put(out, d, b"\n")
}

#[tactic(auto, using(crate::specs::Turns::way_in, crate::specs::Turns::way_out), unfolding(crate::specs::Text::way))]
fn put_way(out: &mut [u8], at: usize, sense: u64) -> usize
    requires { at + 16 ≤ length out.old }
    ensures value { (result ≡ at + length (way sense)) × (result ≤ at + 16) }
    ensures out_after { out.new ≡ sets out.old at (way sense) }
{
    if sense == 0 {
        return put(out, at, b" inward facets ");
    }
    put(out, at, b" outward facets ")
}

fn put_shell(out: &mut [u8], at: usize, shell: u64, sense: u64, facets: u64) -> usize
    requires { at + 63 ≤ length out.old }
    ensures value { (result ≡ at + length (shell_line shell sense facets)) × (result ≤ at + 63) }
    ensures out_after { out.new ≡ sets out.old at (shell_line shell sense facets) }
{
    let a = put(out, at, b"shell ");
    let b = put_decimal(out, a, shell);
    let c = put_way(out, b, sense);
    let d = put_decimal(out, c, facets);
    put(out, d, b"\n")
}

// The byte at a place; 0 past the end.
fn byte_at(s: &[u8], at: usize) -> u64
    ensures { (result ≡ get_or s.now at 0) × (result < 256) }
{
    if s.len() <= at {
        return 0;
    }
    u64::from(s[at])
}

#[tactic(auto, using(crate::specs::Turns::count_is))]
fn count_at(s: &[u8], at: usize) -> u64
    requires { at ≤ length s.now + 200 }
    ensures { (result ≡ count (drop at s.now)) × (result < 4294967296) }
{
    let a = byte_at(s, at);
    let b = byte_at(s, at + 1);
    let c = byte_at(s, at + 2);
    let d = byte_at(s, at + 3);
    a + 256 * (b + 256 * (c + 256 * d))
}

// The place behind a facet; the end where the bytes end before.
#[tactic(auto, using(crate::specs::Turns::behind_none, crate::specs::Turns::behind_past, crate::specs::Turns::behind_in))]
fn behind_facet(s: &[u8], at: usize) -> usize
    requires { at ≤ length s.now + 5 }
    ensures { (drop result s.now ≡ behind (drop at s.now)) × (at ≤ result) × (result ≤ length s.now + 5) }
{
    if s.len() <= at {
        return at;
    }
    let n = 100 + 24 * count_at(s, at + 96);
    if (s.len() - at) as u64 <= n {
        return s.len();
    }
    at + n as usize
}

#[tactic(auto, using(crate::specs::Turns::skipping_turn, crate::specs::Turns::skipping_end))]
fn behind_facets(s: &[u8], from: usize, m: u64) -> usize
    requires { from ≤ length s.now + 5 }
    ensures { (drop result s.now ≡ skip m (drop from s.now)) × (from ≤ result) × (result ≤ length s.now + 5) }
{
    let mut at = from;
    for _ in 0..m {
        at = behind_facet(s, at);
    }
    at
}

// The line of a body or of a shell, and the spot behind it.
fn turn(bytes: &[u8], s: Spot, out: &mut [u8], end: usize) -> Turned
    requires { (s.at < length bytes.now) × (s.body ≤ s.at) × (s.shell ≤ s.at) × (end + 63 ≤ length out.old) }
    ensures { Turn bytes.now s end result out.old out.new }
{
    let at = s.at;
    if s.left == 0 {
        let shells = count_at(bytes, at);
        let spot = Spot {
            at: at + 4,
            body: s.body + 1,
            shell: 0,
            left: shells,
        };
        let e = put_body(out, end, s.body + 1, shells);
        return Turned { spot, end: e };
    }
    let facets = count_at(bytes, at + 1);
    let spot = Spot {
        at: behind_facets(bytes, at + 5, facets),
        body: s.body,
        shell: s.shell + 1,
        left: s.left - 1,
    };
    let e = put_shell(out, end, s.shell + 1, byte_at(bytes, at), facets);
    Turned { spot, end: e }
}

// All lines; returns how many bytes they are.
pub fn put_lines(number: u64, bytes: &[u8], out: &mut [u8]) -> usize
    requires { 14 * length bytes.now + 100 ≤ length out.old }
    ensures value { (result ≡ length (lines_of number bytes.now)) × (result ≤ length out.old) }
    ensures out_after { out.new ≡ sets out.old 0 (lines_of number bytes.now) }
{
    let mut end = put_answer(out, number);
    let mut s = Spot {
        at: 0,
        body: 0,
        shell: 0,
        left: 0,
    };
    // s.at goes from each line's bytes to those of the next, so this is no counting loop.
    while s.at < bytes.len() {
        let r = turn(bytes, s, out, end);
        s = r.spot;
        end = r.end;
    }
    end
}
