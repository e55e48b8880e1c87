// Stored test cases: runs the four calls on each case of cases.bin and prints a line for each. crates/test_runs/stdout is the expected
// output.
//
// Numbers in cases.bin are three octets in network byte order. A part is a number and that many octets. The file has the number of cases,
// and for each case its title, call, request (or data, or line), issuer domain name, account, method, book, and buffer length; call and
// buffer length are numbers, the others parts.
//
// Proved: the program is memory-safe and terminates, and `answer` makes the call with the given number on its inputs in order.
#![tactic(auto)]

ghost use Rattle.std.specs.Prelude.{◌≡◌, length, IfSome};
ghost use Rattle.io.specs.Counts.{IsPrefixLen};
ghost use Rattle.test_runs.specs.Answers.{answer_of, buffer_after};

use std::fs::File;
use std::io;
use std::io::Read;

const TITLE_ROOM: usize = 60;

// More than any limit of a request, a book, a line or its data.
const ROOM: usize = 50000;

const ISSUER_ROOM: usize = 300;

// For an account, and for a method.
const ACCOUNT_ROOM: usize = 300;

// How many octets of a buffer are printed.
const SHOWN: usize = 64;

// Reads until the buffer is full, the file ends or a read fails, and returns how many octets it read.
fn read_full(file: &mut File, out: &mut [u8]) -> usize
    ensures { IsPrefixLen result out.new }
{
    let mut n: usize = 0;
    while n < out.len() {
        let Ok(more) = file.read(&mut out[n..]) else {
            break;
        };
        if more == 0 {
            break;
        }
        n += more;
    }
    n
}

// None if the file ends within the number.
fn read_number(file: &mut File) -> Option<usize> {
    let mut n = [0u8; 3];
    if read_full(file, &mut n) < 3 {
        return None;
    }
    Some(u32::from_be_bytes([0, n[0], n[1], n[2]]) as usize)
}

// Reads a part into the buffer, and returns the front of the buffer that holds it. None if the file ends within the part, or the part is longer than the
// buffer.
fn read_part<'a>(file: &mut File, out: &'a mut [u8]) -> Option<&'a [u8]>
    ensures { IfSome result (λ part. IsPrefixLen (length part.now) out.old) }
{
    let n = read_number(file)?;
    let part = out.get_mut(..n)?;
    if read_full(file, part) < n {
        return None;
    }
    Some(part)
}

// A checksum that depends on the order of the octets. It covers the octets of a buffer that are not printed.
fn checksum(s: &[u8]) -> u64 {
    let mut sum: u64 = 0;
    for b in s {
        sum = (sum * 31 + u64::from(*b)) % 4294967296;
    }
    sum
}

// Prints a printable octet except `\` as itself, and others as `\` and two hex digits.
fn print_octet(rt: &impl Print, b: u8) -> io::Result<()> {
    if 32 <= b && b <= 126 && b != b'\\' {
        return rt.write_all(&[b]);
    }
    print!(rt; "\\{b:02x}")
}

// Prints the first octets of the buffer, and the checksum of all of it.
fn print_buffer(rt: &impl Print, s: &[u8]) -> io::Result<()> {
    print!(rt; " [")?;
    for b in s.iter().take(SHOWN) {
        print_octet(rt, *b)?;
    }
    if SHOWN < s.len() {
        print!(rt; "..")?;
    }
    let sum = checksum(s);
    print!(rt; "] {sum:08x}")
}

// Prints the number and the fields a, b and c.
fn print_answer(rt: &impl Print, packed: u64) -> io::Result<()> {
    let number = packed % 256;
    let a = packed / 256 % 16777216;
    let b = packed / 4294967296 % 65536;
    let c = packed / 281474976710656;
    print!(rt; ": {number} {a} {b} {c}")
}

// The packed answer of the call with this number: 1 judges, 2 lists, 3 writes a line, 4 reads one.
#[tactic(auto, unfolding(crate::specs::Answers::answer_of, crate::specs::Answers::buffer_after))]
fn answer(
    call: usize,
    request: &[u8],
    issuer: &[u8],
    account: &[u8],
    method: &[u8],
    book: &[u8],
    buffer: &mut [u8],
) -> u64
    ensures packed { result ≡ answer_of call request.now issuer.now (record { account = account.now; method = method.now }) book.now buffer.old }
    ensures octets { buffer.new ≡ buffer_after call request.now (record { account = account.now; method = method.now }) book.now buffer.old }
{
    if call == 1 {
        return splinepearl::caa_judge_for(request, issuer, account, method, book);
    }
    if call == 2 {
        return splinepearl::caa_permitted_issuers_for(request, account, method, book, buffer);
    }
    if call == 3 {
        return splinepearl::caa_write_line(request, buffer);
    }
    splinepearl::caa_read_line(request, buffer)
}

// The inputs of a call, and how many octets its buffer has.
#[derive(Clone, Copy)]
struct Case<'a> {
    call: usize,
    request: &'a [u8],
    issuer: &'a [u8],
    account: &'a [u8],
    method: &'a [u8],
    book: &'a [u8],
    room: usize,
}

// Reads a case behind its title, into these buffers. None if it is not complete.
fn read_case<'a>(
    file: &mut File,
    request: &'a mut [u8],
    issuer: &'a mut [u8],
    account: &'a mut [u8],
    method: &'a mut [u8],
    book: &'a mut [u8],
) -> Option<Case<'a>> {
    let call = read_number(file)?;
    if call == 0 || 4 < call {
        return None;
    }
    let request = read_part(file, request)?;
    let issuer = read_part(file, issuer)?;
    let account = read_part(file, account)?;
    let method = read_part(file, method)?;
    let book = read_part(file, book)?;
    let room = read_number(file)?;
    Some(Case {
        call,
        request,
        issuer,
        account,
        method,
        book,
        room,
    })
}

// Reads the next case and runs it, and returns whether the case is complete. Its line begins with its title.
fn run_next(rt: &impl Print, file: &mut File) -> io::Result<bool> {
    let mut title = [0u8; TITLE_ROOM];
    let Some(title) = read_part(file, &mut title) else {
        return Ok(false);
    };
    rt.write_all(title)?;
    let mut request = [0u8; ROOM];
    let mut issuer = [0u8; ISSUER_ROOM];
    let mut account = [0u8; ACCOUNT_ROOM];
    let mut method = [0u8; ACCOUNT_ROOM];
    let mut book = [0u8; ROOM];
    let Some(c) = read_case(
        file,
        &mut request,
        &mut issuer,
        &mut account,
        &mut method,
        &mut book,
    ) else {
        return Ok(false);
    };
    let mut buffer = [b'_'; ROOM];
    let Some(buffer) = buffer.get_mut(..c.room) else {
        return Ok(false);
    };
    let packed = answer(
        c.call, c.request, c.issuer, c.account, c.method, c.book, buffer,
    );
    print_answer(rt, packed)?;
    if c.call != 1 {
        print_buffer(rt, buffer)?;
    }
    rt.write_all(b"\n")?;
    Ok(true)
}

// Runs all cases of the file, and returns whether it is well-formed.
fn run_all(rt: &impl Print, file: &mut File) -> io::Result<bool> {
    let Some(cases) = read_number(file) else {
        return Ok(false);
    };
    for _ in 0..cases {
        if !run_next(rt, file)? {
            return Ok(false);
        }
    }
    // Nothing may follow the last case.
    let mut after = [0u8; 1];
    Ok(read_full(file, &mut after) == 0)
}

fn main(rt: HostRuntime) -> io::Result<()> {
    if let Ok(mut file) = File::open(&rt, "cases.bin") {
        if run_all(&rt, &mut file)? {
            return Ok(());
        }
    }
    rt.write_all(b"cases.bin is malformed\n")
}
