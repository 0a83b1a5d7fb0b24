// What an election answers once its candidates are known: the digest of the tag or of a multicast flow, the place that is elected for a tag, and the whole answer
// that names the router there, or a refusal.
#![tactic(auto)]

ghost use Rattle.std.specs.Prelude.{◌≡◌, ◌++◌, ◌%◌, ◌^◌, ◌<◌, length, get_or, Ok};
ghost use Rattle.std.specs.Int.Count.{ones};
ghost use Rattle.layout.specs.Table.{no_entry};
ghost use Rattle.layout.specs.Words.{table_in, Valid};
ghost use Rattle.places.specs.Places.{places};
ghost use Rattle.hrw.specs.Weight.{digest_of};
ghost use Rattle.answers.specs.Answers.{told_answer, answer_of, named_answer};
ghost use Rattle.answers.specs.Steps.{digest_under, ElectedAt};

use refusals::Refusal;

// Who is elected: the address, its family (4 or 6) and sixteen octets in four words, an IPv4 address in the first, then zeros; the algorithm in use, the number N of candidates and their set.
#[derive(Clone, Copy, Debug, PartialEq, Eq)]
pub struct Elected {
    pub family: u8,
    pub address: [u32; 4],
    pub algorithm: u8,
    pub n: u32,
    pub candidates: u64,
}

// An answer as numbers: 0 and who is elected, or a refusal number and zeros.
pub fn told(answer: Result<Elected, Refusal>) -> (u8, Elected)
    ensures { told_answer result.0 result.1 ≡ answer_of answer }
{
    match answer {
        Ok(elected) => (0, elected),
        Err(refusal) => {
            let number = refusal.number();
            let nobody = Elected {
                family: 0,
                address: [0; 4],
                algorithm: 0,
                n: 0,
                candidates: 0,
            };
            (number, nobody)
        }
    }
}

// The digest that algorithm 1 asks for, taken over S and G of a multicast flow, which are whole words of four octets, or nothing, then over the tag and the table's identifier; 0 under the other algorithms.
#[tactic(auto, unfolding(crate::specs::Steps::digest_under))]
pub fn digest_under(t: &[u32], algorithm: u8, source: &[u8], group: &[u8], tag: u32) -> u32
    requires { Valid t.now × (length source.now % 4 ≡ 0) × (length group.now % 4 ≡ 0) }
    ensures { result ≡ digest_under algorithm (source.now ++ group.now) tag (table_in t.now).esi }
{
    if algorithm != 1 {
        return 0;
    }
    let esi = owner::identifier(t);
    hrw::flow_digest(source, group, tag, esi)
}

// Of a set of n places in use, which is not empty, the one that is elected for a tag.
#[tactic(auto, using(crate::proofs::Laws::at_tag))]
pub fn place_by_tag(t: &[u32], algorithm: u8, set: u64, n: u32, tag: u32) -> usize
    requires { Valid t.now × (set ≡ 0 → ⊥) × (set < 2 ^ length (table_in t.now).entries) × (n ≡ length (places set)) }
    ensures { ElectedAt (table_in t.now).entries algorithm (digest_of tag (table_in t.now).esi) set tag result }
{
    let none: [u8; 0] = [0; 0];
    let digest = digest_under(t, algorithm, &none, &none, tag);
    winner::elected_place(t, set, n, algorithm, tag, digest)
}

// Who is elected where it is the router at a place, and the candidate set has n places. N is the number of the ones of the set.
#[tactic(auto, using(crate::proofs::Laws::counted_places))]
pub fn named(t: &[u32], algorithm: u8, set: u64, n: u32, at: usize) -> Elected
    requires { Valid t.now × (at < length (table_in t.now).entries) × (n ≡ length (places set)) }
    ensures answer { answer_of (Ok result) ≡ named_answer (get_or (table_in t.now).entries at no_entry).address algorithm (length (places set)) set }
    ensures counted { result.n ≡ ones result.candidates }
{
    let family = layout::family_at(t, at);
    let address = layout::words_at(t, at);
    Elected {
        family,
        address,
        algorithm,
        n,
        candidates: set,
    }
}
