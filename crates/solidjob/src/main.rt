// The program: a job from standard input, fused in a room of 720 corners, and what document 01 has it print.
#![tactic(auto)]

ghost use Rattle.std.specs.Prelude.{◌≡◌, ◌≤◌, length};
ghost use Rattle.std.specs.Io.{ReadsAtMost};
ghost use Rattle.std.proofs.lemmas.List.Edits.{sets};
ghost use Rattle.solidjob.specs.Report.{IsPrefixLen, report, Done};

use ended::Ended;
use std::io;
use std::io::{Read, Write};

// A job fused in a room of the call's own. The bytes of the answer stand at the front of its memory, none for a refusal.
fn fuse_job(job: &[u8], answer: &mut [u8]) -> Ended
    requires { length answer.old ≡ 46080 }
    ensures { Done job.now result answer.new }
{
    let mut rest = [0.0; 4144];
    let mut spare = [0.0; 9584];
    let mut dst = [0.0; 9584];
    let mut held = [0u64; 848];
    let mut slots = [0u64; 848];
    let mut counts = [0u64; 848];
    let mut sizes = [0u64; 721];
    let mut seats = [0u64; 721];
    let mut lengths = [0u64; 720];
    let mut owners = [0u64; 720];
    let mut cells = [0u64; 720];
    let mut cuts = [0u64; 721];
    let mut runs = [0u64; 2160];
    let mut keys = [0u64; 1440];
    let mut begins = [0u64; 721];
    let mut ord = [0u64; 720];
    let mut ends = [0u64; 720];
    let mut marks = [0u64; 721];
    let mut out = [0u64; 720];
    let mut many = [0u64; 720];
    let mut shells = [0u64; 720];
    fuse_served::served(
        job,
        720,
        &mut rest,
        &mut spare,
        &mut dst,
        &mut held,
        &mut slots,
        &mut counts,
        &mut sizes,
        &mut seats,
        &mut lengths,
        &mut owners,
        &mut cells,
        &mut cuts,
        &mut runs,
        &mut keys,
        &mut begins,
        &mut ord,
        &mut ends,
        &mut marks,
        &mut out,
        &mut many,
        &mut shells,
        answer,
    )
}

// Room for what is printed: 14 bytes for each of an answer's 46,080, and 100.
fn page() -> [u8; 645220] {
    [0; 645220]
}

// What is printed for a job; returns how many bytes it has.
fn put_report(job: &[u8], text: &mut [u8]) -> usize
    requires { 645220 ≤ length text.old }
    ensures value { (result ≡ length (report job.now)) × IsPrefixLen result text.new }
    ensures text_after { text.new ≡ sets text.old 0 (report job.now) }
{
    let mut answer = [0u8; 46080];
    let e = fuse_job(job, &mut answer);
    let v = e.verdict;
    let n = e.bytes;
    lines::put_lines(lent::number_by(v), &answer[..n], text)
}

// Reads until the list is full or the input ends; returns how many bytes stand at the front of the list.
fn read_full(from: &mut impl Read, list: &mut [u8]) -> io::Result<usize>
    ensures { ReadsAtMost result list.new }
{
    let mut done = 0;
    // How much a read brings, only the input says.
    while done < list.len() {
        let n = from.read(&mut list[done..])?;
        if n == 0 {
            break;
        }
        done += n;
    }
    Ok(done)
}

// A byte more than a job can have is read, so that a longer one is refused.
fn main(rt: HostRuntime) -> io::Result<()> {
    let mut job = [0u8; 32769];
    let n = read_full(&mut rt.stdin(), &mut job)?;
    let mut text = page();
    let m = put_report(&job[..n], &mut text);
    rt.stdout().write_all(&text[..m])
}
