// The call of test_readers as a C function, so that the independent implementation can be compared with the readers.
#![tactic(auto)]

ghost use Rattle.std.specs.Prelude.{◌≡◌};
ghost use Rattle.test_readers.specs.Answers.{reader_answer};

// The answer of the reader with this number. Reader 1 compares s and t; 2, 3 and 6 read s from offset `at` on; the others read s.
#[unsafe(no_mangle)]
pub extern "C" fn readers_answer(number: usize, s: &[u8], t: &[u8], at: usize) -> u64
    ensures { result ≡ reader_answer number s.now t.now at }
{
    test_readers::readers_answer(number, s, t, at)
}
