// What the exported calls of both tables hand in and hand back: an address of plain numbers, and the answer of an election laid out as C lays it out.
#![tactic(auto)]

ghost use Rattle.std.specs.Prelude.{◌≡◌};
ghost use Rattle.answers.specs.Answers.{answer_of};
ghost use Rattle.export_forms.specs.Forms.{exported_answer, handed_in};

use address::{Address, Family};
use answers::Elected;
use refusals::Refusal;

// The answer of an election.
#[repr(C)]
#[derive(Clone, Copy)]
pub struct Answer {
    pub number: u8,
    pub family: u8,
    pub address: [u32; 4],
    pub algorithm: u8,
    pub n: u32,
    pub candidates: u64,
}

// The answer of an election, field by field: a refusal number comes with zeros.
pub fn exported(a: Result<Elected, Refusal>) -> Answer
    ensures { result ≡ exported_answer (answer_of a) }
{
    let (number, e) = answers::told(a);
    let address = e.address;
    Answer {
        number,
        family: e.family,
        address,
        algorithm: e.algorithm,
        n: e.n,
        candidates: e.candidates,
    }
}

// The address of four words, IPv6 or not.
pub fn handed_in(v6: bool, w0: u32, w1: u32, w2: u32, w3: u32) -> Address
    ensures { result ≡ handed_in v6 w0 w1 w2 w3 }
{
    if v6 {
        return Address {
            family: Family::V6,
            w0: w0,
            w1: w1,
            w2: w2,
            w3: w3,
        };
    }
    Address {
        family: Family::V4,
        w0: w0,
        w1: w1,
        w2: w2,
        w3: w3,
    }
}
