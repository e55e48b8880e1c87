// The questions that a request asks, one for each name: what does the relevant set of this name say about X, or about *.X? Each is noted as one
// number.
#![tactic(auto)]

ghost use Rattle.std.specs.Prelude.{◌≡◌, ◌++◌, length, drop};
ghost use Rattle.list_places.specs.Questions.{questions, noted, once};

use book_places::Index;
use spec_limits::MAX_RECORDS;

// Finds the relevant set of each name, and notes the number of its question. No question is answered yet.
pub fn note_questions(
    request: &[u8],
    index: Index,
    onward: &[u16],
    numbers: &mut [u16],
) -> Option<usize>
    ensures answer { result ≡ (noted numbers.old (questions request.now index.entry.book.now index.entry.table.now index.entry.links.now index.entry.heads.now onward.now)).answer }
    ensures numbers { numbers.new ≡ (noted numbers.old (questions request.now index.entry.book.now index.entry.table.now index.entry.links.now index.entry.heads.now onward.now)).numbers }
{
    let mut n: usize = 0;
    let mut at: usize = 0;
    while at < request.len() {
        // An accepted request doesn't get here: its names are all good. For a bad name nobody may issue.
        let r = read_request::requested_name(request, at)?;
        at = r.next;
        if let Some(set) = book_climb::nearest_record(index, onward, &request[r.base..r.next]) {
            if numbers.len() <= n {
                return None;
            }
            numbers[n] = book_authorization::question_number(set, r.wildcard) as u16;
            n += 1;
        }
    }
    Some(n)
}

// Removes repeats from the numbers, and returns how many are left. They stand at the front, in the same order.
pub fn ask_once(numbers: &mut [u16]) -> usize
    ensures answer { result ≡ length (once numbers.old) }
    ensures numbers { numbers.new ≡ once numbers.old ++ drop (length (once numbers.old)) numbers.old }
{
    let mut asked = [false; 2 * MAX_RECORDS];
    let mut w: usize = 0;
    for i in 0..numbers.len() {
        let number = numbers[i];
        let q = number as usize;
        if q < asked.len() {
            if asked[q] {
                continue;
            }
            asked[q] = true;
        }
        numbers[w] = number;
        w += 1;
    }
    w
}
