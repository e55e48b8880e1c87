// Writes the line of a judgement at the start of the buffer.
#![tactic(auto)]

ghost use Rattle.std.specs.Prelude.{◌++◌, ◌+◌, ◌≤◌, length};
ghost use Rattle.spec_octets.specs.Buffer.{Put};
ghost use Rattle.spec_octets.specs.WrittenDecimal.{decimal};
ghost use Rattle.spec_desk.specs.Lines.{numbered, denial_text, answer_text, judgement_line};

use spec_desk::LINE_OCTETS;
use spec_rule::{Denial, Judgement};

// Writes a text and a number.
fn put_number(first: &[u8], n: u64, out: &mut [u8]) -> usize
    requires { length first.now + 20 ≤ length out.old }
    ensures put { Put (first.now ++ decimal n) out.old out.new result }
    ensures few { result ≤ length first.now + 20 }
{
    let w = text_buffer::put_octets(first, out);
    w + text_decimal::put_decimal(n, &mut out[w..])
}

// Writes a text, a number, a text and a number.
fn put_numbered(first: &[u8], a: u64, second: &[u8], b: u64, out: &mut [u8]) -> usize
    requires { length first.now + length second.now + 40 ≤ length out.old }
    ensures put { Put (numbered first.now a second.now b) out.old out.new result }
    ensures few { result ≤ length first.now + length second.now + 40 }
{
    let w = put_number(first, a, out);
    w + put_number(second, b, &mut out[w..])
}

// Writes the words of a denial; `first` is its first words.
fn put_denial(first: &[u8], d: Denial, out: &mut [u8]) -> usize
    requires { length first.now + 72 ≤ length out.old }
    ensures put { Put (denial_text first.now d) out.old out.new result }
    ensures few { result ≤ length first.now + 72 }
{
    let name = d.name;
    let rr = d.rr;
    let up = d.up;
    let w = put_numbered(first, name.0 as u64, b" record ", rr.0 as u64, out);
    w + put_number(b" up ", up.0 as u64, &mut out[w..])
}

// Writes the words of a judgement.
fn put_answer(j: Judgement, out: &mut [u8]) -> usize
    requires { 88 ≤ length out.old }
    ensures put { Put (answer_text j) out.old out.new result }
    ensures few { result ≤ 88 }
{
    match j {
        Judgement::Permitted => text_buffer::put_octets(b"verdict 0", out),
        Judgement::UnknownCritical(d) => put_denial(b"verdict 20 name ", d, out),
        Judgement::NotGranted(d) => put_denial(b"verdict 21 name ", d, out),
        Judgement::TooManyAliases(d) => put_denial(b"verdict 22 name ", d, out),
        Judgement::Refused(r) => {
            let number = spec_refusal::number_of(r);
            let place = spec_refusal::place_of(r) as u64;
            put_numbered(b"refused ", number, b" at ", place, out)
        }
    }
}

// Writes the line of a judgement.
pub fn put_judgement(j: Judgement, out: &mut [u8; LINE_OCTETS]) -> usize
    ensures { Put (judgement_line j) out.old out.new result }
{
    let e = put_answer(j, out);
    out[e] = 10;
    e + 1
}
