// The desk program: reads request.bin, issuer.txt, account.txt, method.txt and book.bin in the current folder, and prints one line.
//
// Proved: put_desk_line makes the line of spec_desk's definition desk_line from the octets given to it, and no read goes past its buffer.
// Not proved, because no contract can speak about files: that each file goes to its parameter (the runs test it), and that open, read and
// write do what they should (assumed).
#![tactic(auto)]

ghost use Rattle.std.specs.Prelude.{◌≡◌, take};
ghost use Rattle.desk.specs.Files.{Taken, octets_of};

use spec_desk::LINE_OCTETS;
use spec_limits::{MAX_ACCOUNT_OCTETS, MAX_BOOK_OCTETS, MAX_ISSUER_OCTETS, MAX_REQUEST_OCTETS};
use std::fs::File;
use std::io::Read;
use std::rt::Files;

// One octet more than the limit, so that a longer file is refused and not truncated.
const REQUEST_ROOM: usize = MAX_REQUEST_OCTETS + 1;

const ISSUER_ROOM: usize = MAX_ISSUER_OCTETS + 1;

// The account text, and the method text as well.
const ACCOUNT_ROOM: usize = MAX_ACCOUNT_OCTETS + 1;

const BOOK_ROOM: usize = MAX_BOOK_OCTETS + 1;

// Reads to the end of the file, or until the buffer is full, and returns how many of its octets are at the start of the buffer. If a read
// fails, the file counts as missing (None), never as a shorter file.
fn read_open(file: &mut File, out: &mut [u8]) -> Option<usize>
    ensures { Taken result out.new }
{
    let mut n = 0;
    while n < out.len() {
        let more = file.read(&mut out[n..]).ok()?;
        if more == 0 {
            break;
        }
        n += more;
    }
    Some(n)
}

// Reads a file of the current folder.
fn read_file(rt: &impl Files<File = File>, path: &str, out: &mut [u8]) -> Option<usize>
    ensures { Taken result out.new }
{
    let mut file = File::open(rt, path).ok()?;
    read_open(&mut file, out)
}

// The octets of a file that was read into this buffer: none if it is missing.
#[tactic(auto, unfolding(crate::specs::Files::octets_of))]
fn octets_of(file: Option<usize>, buffer: &[u8]) -> &[u8]
    requires { Taken file buffer.now }
    ensures { result.now ≡ take (octets_of file) buffer.now }
{
    &buffer[..file.unwrap_or(0)]
}

fn main(rt: HostRuntime) {
    let mut request = [0u8; REQUEST_ROOM];
    let mut issuer = [0u8; ISSUER_ROOM];
    let mut account = [0u8; ACCOUNT_ROOM];
    let mut method = [0u8; ACCOUNT_ROOM];
    let mut book = [0u8; BOOK_ROOM];
    let requested = read_file(&rt, "request.bin", &mut request);
    let named = read_file(&rt, "issuer.txt", &mut issuer);
    let held = read_file(&rt, "account.txt", &mut account);
    let validated = read_file(&rt, "method.txt", &mut method);
    let booked = read_file(&rt, "book.bin", &mut book);
    let mut line = [0u8; LINE_OCTETS];
    // A missing file is an empty text. Only a missing book is told.
    let n = desk_line::put_desk_line(
        booked.is_some(),
        octets_of(requested, &request),
        octets_of(named, &issuer),
        octets_of(held, &account),
        octets_of(validated, &method),
        octets_of(booked, &book),
        &mut line,
    );
    // A failed write can't be reported to anybody.
    let _ = rt.write_all(&line[..n]);
}
