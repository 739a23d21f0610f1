// Reads a list of calls with the Rust's answers from standard input, makes each call on a table and a bucket of its own, and compares
// the code and the checksum of all that the call may write: the table or the bucket, then the output or the answer. Writes how many
// calls agree, by call, or the first record that does not.
#![tactic(auto)]

ghost use Rattle.std.specs.Io.{ReadsAtMost};

mod calls;
mod checksum;
mod names;
mod record;

use crate::names::{CALLS, NAMES, ON_BUCKET};
use crate::record::Record;
use bucket::KBucket;
use std::io::Read;
use std::{fmt, io};
use storage::Layout;

const MOST: u64 = 100_000;

const OUTPUT: usize = (4096 + 5) * Layout::NODE;

// What the output or the answer holds before a call.
const FILL: u8 = 165;

// The code of a record that cannot be read: no call answers it.
const UNREADABLE: u32 = 0xffff_ffff;

// The code that a call returns, a number as C sees it, or UNREADABLE; and the checksum of what the call may write.
#[derive(Clone, Copy, PartialEq, Eq)]
struct Answer {
    code: u32,
    sum: u64,
}

impl fmt::Display for Answer {
    fn fmt<W: fmt::Write>(&self, f: &mut fmt::Formatter<W>) -> fmt::Result {
        write!(f, "code {} and checksum {:016x}", self.code, self.sum)
    }
}

fn expected(r: &Record) -> Answer {
    Answer {
        code: r.code(),
        sum: r.sum(),
    }
}

// Makes the call on a table or a bucket.
fn found(r: &Record, s: &mut [u8], out: &mut [u8]) -> Answer {
    let room = r.room().min(out.len());
    out[..room].fill(FILL);
    let code = r.made(s, out).unwrap_or(UNREADABLE);
    let written = checksum::checksum(checksum::BASIS, s);
    let sum = checksum::checksum(written, &out[..room]);
    Answer { code, sum }
}

fn agrees_on(
    rt: &impl Print,
    number: u64,
    r: &Record,
    s: &mut [u8],
    out: &mut [u8],
) -> io::Result<bool> {
    let wanted = expected(r);
    let got = found(r, s, out);
    if wanted == got {
        return Ok(true);
    }
    print!(rt; "record {number}: ")?;
    // A number that no call has is told with no name.
    if let Some(name) = NAMES.get(usize::from(r.call())) {
        print!(rt; "{name:24}")?;
    }
    println!(rt; " expected {wanted}, found {got}")?;
    Ok(false)
}

// On the table or the bucket, as the call's number says.
fn agrees(
    rt: &impl Print,
    number: u64,
    r: &Record,
    table: &mut [u8],
    bucket: &mut [u8],
    out: &mut [u8],
) -> io::Result<bool> {
    if r.call() < ON_BUCKET {
        return agrees_on(rt, number, r, table, out);
    }
    agrees_on(rt, number, r, bucket, out)
}

fn count(counts: &mut [u64], call: usize) {
    if let Some(n) = counts.get_mut(call) {
        *n = n.saturating_add(1);
    }
}

fn say_counts(rt: &impl Print, counts: &[u64], number: u64, list: u64) -> io::Result<()> {
    for (name, n) in NAMES.iter().zip(counts) {
        println!(rt; "{name:24} {n}")?;
    }
    println!(rt; "{number} records agree; the list has checksum {list:016x}")
}

// Reads until buf is full or the input ends, and returns how many bytes it put at the start of buf. A `while`,
// since a read may give fewer bytes than there is room for.
fn read_full(input: &mut impl Read, buf: &mut [u8]) -> io::Result<usize>
    ensures { ReadsAtMost result buf.new }
{
    let mut done = 0;
    while done < buf.len() {
        let n = input.read(&mut buf[done..])?;
        if n == 0 {
            break;
        }
        done += n;
    }
    Ok(done)
}

fn replay(
    rt: &(impl Input + Print),
    table: &mut [u8],
    bucket: &mut [u8],
    out: &mut [u8],
    counts: &mut [u64],
) -> io::Result<()> {
    let mut input = rt.reader();
    let mut list = checksum::BASIS;
    for number in 0..MOST {
        let mut r = Record::empty();
        let got = read_full(&mut input, &mut r.bytes)?;
        if got == 0 {
            return say_counts(rt, counts, number, list);
        }
        list = checksum::checksum(list, &r.bytes[..got]);
        if !agrees(rt, number + 1, &r, table, bucket, out)? {
            return Ok(());
        }
        count(counts, usize::from(r.call()));
    }
    println!(rt; "the list is too long")
}

fn main(rt: HostRuntime) -> io::Result<()> {
    let mut table = [0; Layout::STORAGE];
    let mut bucket = [0; KBucket::BYTES];
    // For 4096 nodes and five more.
    let mut out = [0; OUTPUT];
    // How many calls agree, by call.
    let mut counts = [0; CALLS];
    replay(&rt, &mut table, &mut bucket, &mut out, &mut counts)
}
