// Writes the list of issuers into the caller's buffer: one entry for each candidate that is in round t.
#![tactic(auto)]

ghost use Rattle.std.specs.Prelude.{◌≡◌, ◌≤◌, length};
ghost use Rattle.spec_octets.specs.Octets.{lowered};
ghost use Rattle.spec_octets.specs.Buffer.{Put, filled};
ghost use Rattle.list_places.specs.Rounds.{kept_names};
ghost use Rattle.list_entry.specs.Entries.{entry_of, EntryLength, entries_of, size_of};

use spec_limits::MAX_RECORDS;

// The number of names, and the number of octets that their entries take.
#[derive(Clone, Copy)]
pub struct ListSize {
    pub count: usize,
    pub octets: usize,
}

// The number of octets that the entry of a name takes.
fn entry_length(name: &[u8]) -> usize
    ensures { EntryLength name.now result }
{
    if name.len() < 256 { name.len() + 1 } else { 0 }
}

// The size of the list. `put_entries` goes through the candidates a second time: it writes nothing before the size is known.
fn list_size(book: &[u8], names: &[u16], count: usize, rounds: &[u16], t: usize) -> ListSize
    ensures { result ≡ size_of (kept_names book.now names.now count rounds.now t) }
{
    let mut kept: usize = 0;
    let mut octets: usize = 0;
    for i in 0..count.min(rounds.len()).min(MAX_RECORDS) {
        let round = rounds[i] as usize;
        if round == t {
            kept += 1;
            octets += entry_length(list_candidate::candidate_at(book, names, i));
        }
    }
    ListSize {
        count: kept,
        octets,
    }
}

// Writes one entry: the length of the name, then the name in lower case. Returns the length of the entry.
fn put_entry(name: &[u8], out: &mut [u8]) -> usize
    requires { length (entry_of (lowered name.now)) ≤ length out.old }
    ensures { Put (entry_of (lowered name.now)) out.old out.new result }
{
    if 256 <= name.len() {
        return 0;
    }
    out[0] = name.len() as u8;
    1 + text_buffer::put_lowered(name, &mut out[1..])
}

// Writes all entries if the buffer has room for them, and else nothing. Returns the size of the list in both cases.
pub fn put_entries(
    book: &[u8],
    names: &[u16],
    count: usize,
    rounds: &[u16],
    t: usize,
    out: &mut [u8],
) -> ListSize
    ensures answer { result ≡ size_of (kept_names book.now names.now count rounds.now t) }
    ensures octets { out.new ≡ filled (entries_of (kept_names book.now names.now count rounds.now t)) out.old }
{
    let size = list_size(book, names, count, rounds, t);
    if out.len() < size.octets {
        return size;
    }
    let mut w: usize = 0;
    for i in 0..count.min(rounds.len()).min(MAX_RECORDS) {
        let round = rounds[i] as usize;
        if round == t {
            w += put_entry(list_candidate::candidate_at(book, names, i), &mut out[w..]);
        }
    }
    size
}
