// The Designated Forwarder election for one Ethernet Tag, with what the operator has set: the algorithm in use (`agreement`), the candidates (`ready`), and the
// answer (`answers`). A query is plain, or for a multicast flow; those for a flow are asked in `flow_election`.
#![tactic(auto)]

ghost use Rattle.std.specs.Prelude.{◌≡◌, true, false, cond, [], ◌++◌, ◌%◌, length};
ghost use Rattle.std.specs.Int.Count.{ones};
ghost use Rattle.tags.specs.Tags.{reserved_tag};
ghost use Rattle.layout.specs.Words.{table_in, Valid};
ghost use Rattle.settings.specs.Settings.{settings_in, ValidSettings};
ghost use Rattle.ready.specs.Ready.{ready_in};
ghost use Rattle.hrw.specs.Weight.{flow_digest_of};
ghost use Rattle.answers.specs.Answers.{answer_of, Forwarder};
ghost use Rattle.answers.specs.Steps.{digest_under};
ghost use Rattle.election.specs.Queries.{plain, agreed_on, plain_algorithm, method_of, candidates_of, elect_with, NoneNamed};
ghost use Rattle.election.specs.Steps.{ElectedFor};

use address::WIDTH;
use answers::Elected;
use refusals::Refusal;

// The most rows that a ready list may have.
const MAX_READY: usize = 64;

// The algorithm of a plain query for a tag: the one in use, but algorithm 1 where the routes agree on a number that is set, and for 2 and 3 the one that the tag's range names.
#[tactic(auto, unfolding(crate::specs::Queries::plain_algorithm))]
pub fn plain_algorithm(settings: &[u32], tag: u32, in_use: u8) -> u8
    requires { ValidSettings settings.now × (reserved_tag tag ≡ false) }
    ensures { result ≡ plain_algorithm (settings_in settings.now) tag in_use }
{
    if in_use < 2 {
        return in_use;
    }
    if 3 < in_use {
        return 1;
    }
    settings::algorithm_for(settings, tag, in_use)
}

// Whether the algorithm in use is a number that is set; 0 is none.
#[tactic(auto, unfolding(crate::specs::Queries::agreed_on))]
fn agreed_on(in_use: u8, number: u8) -> bool
    ensures { result ≡ agreed_on in_use number }
{
    number != 0 && in_use == number
}

// The octets of S or of G that a digest is taken over: all of them by flow, and otherwise none.
fn octets_if(by_flow: bool, s: &[u8]) -> &[u8]
    ensures { result.now ≡ cond by_flow s.now [] }
{
    if by_flow {
        return s;
    }
    &s[0..0]
}

// How a query is answered: the algorithm and the digest by which a router is elected, and the algorithm that the answer tells.
#[derive(Clone, Copy)]
struct Means {
    algorithm: u8,
    digest: u32,
    told: u8,
}

// How a query is answered, whose kind has the number `number`, or 0: where the routes agree on that number, by the weights of its flow, S and G being whole words of four octets, and the number is told; else as
// the plain query for its tag.
#[tactic(auto, unfolding(answers::specs::Steps::digest_under))]
fn method(
    t: &[u32],
    settings: &[u32],
    number: u8,
    source: &[u8],
    group: &[u8],
    tag: u32,
    in_use: u8,
) -> Means
    requires { Valid t.now × ValidSettings settings.now × (reserved_tag tag ≡ false) × (length source.now % 4 ≡ 0) × (length group.now % 4 ≡ 0) }
    ensures by_flow { agreed_on in_use number ≡ true → (result.algorithm ≡ 1) × (result.digest ≡ flow_digest_of (source.now ++ group.now) tag (table_in t.now).esi) × (result.told ≡ in_use) }
    ensures by_tag { agreed_on in_use number ≡ false → (result.algorithm ≡ plain_algorithm (settings_in settings.now) tag in_use) × (result.digest ≡ digest_under result.algorithm [] tag (table_in t.now).esi) × (result.told ≡ result.algorithm) }
{
    let by_flow = agreed_on(in_use, number);
    let mut algorithm = 1;
    let mut told = in_use;
    if !by_flow {
        algorithm = plain_algorithm(settings, tag, in_use);
        told = algorithm;
    }
    let s = octets_if(by_flow, source);
    let g = octets_if(by_flow, group);
    let digest = answers::digest_under(t, algorithm, s, g, tag);
    Means {
        algorithm: algorithm,
        digest: digest,
        told: told,
    }
}

// Elects for a query of any kind: `number` is the one that is set for its kind, or 0; `right` tells whether the addresses of its flow, S and G, have right
// lengths, which are whole words of four octets. Of a plain query both are empty, as S is for a flow (*,G). 10 for a reserved tag, 11 for a ready list over 64 rows of five words, 18 for a wrong
// length, 12 where no route is eligible.
#[tactic(auto, using(crate::proofs::Laws::too_long, answers::proofs::Laws::ones_none))]
pub fn elect_query(
    t: &[u32],
    settings: &[u32],
    number: u8,
    right: bool,
    source: &[u8],
    group: &[u8],
    tag: u32,
    ready: &[u32],
) -> Result<Elected, Refusal>
    requires { Valid t.now × ValidSettings settings.now × (right ≡ true → (length source.now % 4 ≡ 0) × (length group.now % 4 ≡ 0)) }
    ensures { ElectedFor (settings_in settings.now) number right (source.now ++ group.now) (table_in t.now).esi (table_in t.now).entries tag (ready_in ready.now) (answer_of result) }
{
    if tags::is_reserved(tag) {
        return Err(Refusal::TagReserved);
    }
    if MAX_READY < ready.len() / WIDTH {
        return Err(Refusal::ReadyTooLong);
    }
    if !right {
        return Err(Refusal::FlowLength);
    }
    let u = agreement::in_use(t, settings);
    let set = ready::candidate_set(t, u.ac_df, ready);
    if set == 0 {
        return Err(Refusal::NoneEligible);
    }
    let n = places::count(set);
    let m = method(t, settings, number, source, group, tag, u.algorithm);
    let at = winner::elected_place(t, set, n, m.algorithm, tag, m.digest);
    Ok(answers::named(t, m.told, set, n, at))
}

// Elects the Designated Forwarder for a tag: 10 for tag 0 or 4,294,967,295, 11 for a ready list over 64 rows of five words, 12 where no route is eligible.
// N is the number of the ones of the candidate set. An address that is named is that of a candidate; under algorithms 1 to 3 no candidate is better, and it is
// the only such.
pub fn elect(t: &[u32], settings: &[u32], tag: u32, ready: &[u32]) -> Result<Elected, Refusal>
    requires { Valid t.now × ValidSettings settings.now }
    ensures answer { answer_of result ≡ elect_with (settings_in settings.now) plain (table_in t.now).esi (table_in t.now).entries tag (ready_in ready.now) }
    ensures counted { (answer_of result).n ≡ ones (answer_of result).candidates }
    ensures none_named { NoneNamed (settings_in settings.now) plain (table_in t.now).entries tag (ready_in ready.now) (answer_of result) }
    ensures forwarder { (answer_of result).number ≡ 0 → Forwarder (method_of (settings_in settings.now) plain (table_in t.now).esi (table_in t.now).entries tag) (candidates_of (settings_in settings.now) (table_in t.now).entries (ready_in ready.now)) tag (answer_of result) }
{
    let none: [u8; 0] = [0; 0];
    elect_query(t, settings, 0, true, &none, &none, tag, ready)
}
