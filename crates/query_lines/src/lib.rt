// The answer line of a bench query (document 01, "The bench program"), put into a lent buffer: a refusal as every other line, else the elected address and N.
#![tactic(auto)]

ghost use Rattle.std.specs.Prelude.{◌+◌, ◌≤◌, length};
ghost use Rattle.answers.specs.Answers.{answer_of};
ghost use Rattle.lines.specs.Lines.{Put};
ghost use Rattle.answer_lines.specs.AnswerLines.{address_text, elected_line, query_line, Written};

use answers::Elected;
use refusals::Refusal;

// Puts an address: IPv4 dotted, IPv6 as 32 hexadecimal digits.
#[tactic(auto, using(crate::proofs::Laws::text_hex, crate::proofs::Laws::text_dotted))]
fn put_address(out: &mut [u8], at: usize, family: u8, a: [u32; 4]) -> usize
    ensures { Put out.old at (address_text family a) result out.new }
{
    if family == 6 {
        let octets = address::octets(a[0], a[1], a[2], a[3]);
        return numerals::put_hex(out, at, octets);
    }
    let o = octets::of_u32(a[0]);
    numerals::put_dotted(out, at, o[0], o[1], o[2], o[3])
}

// Puts the line of an accepted query.
fn put_elected(out: &mut [u8], at: usize, family: u8, address: [u32; 4], n: u32) -> usize
    requires { at + 48 ≤ length out.old }
    ensures { Written out.old at (elected_line family address n) result out.new }
{
    let mut end = lines::put_run(out, at, b"q 0 ");
    end = put_address(out, end, family, address);
    end = lines::put_octet(out, end, b' ');
    end = numerals::put_decimal(out, end, n as u64);
    lines::put_octet(out, end, b'\n')
}

// Puts the line of an election's answer.
#[tactic(auto, using(crate::proofs::Laws::line_refused, crate::proofs::Laws::line_elected))]
pub fn put_answer(out: &mut [u8], at: usize, r: Result<Elected, Refusal>) -> usize
    requires { at + 48 ≤ length out.old }
    ensures { Written out.old at (query_line (answer_of r)) result out.new }
{
    match r {
        Ok(e) => put_elected(out, at, e.family, e.address, e.n),
        Err(refusal) => answer_lines::put_line(out, at, b'q', refusal.number()),
    }
}
