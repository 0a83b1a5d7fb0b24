// The election for a multicast flow (document 02, M-106): for (S,G), by the octets of the source S and of the group G, and for (*,G), by those of the group. They are
// not looked into.
#![tactic(auto)]

ghost use Rattle.std.specs.Prelude.{◌≡◌, ◌&&◌, eqb};
ghost use Rattle.layout.specs.Words.{table_in, Valid};
ghost use Rattle.settings.specs.Settings.{settings_in, ValidSettings};
ghost use Rattle.ready.specs.Ready.{ready_in};
ghost use Rattle.answers.specs.Answers.{answer_of};
ghost use Rattle.election.specs.Queries.{by_source_group, by_any_source, is_address_length};
ghost use Rattle.election.specs.Steps as steps;

use answers::Elected;
use refusals::Refusal;

// Whether an address of a flow may have so many octets.
fn is_address_length(n: usize) -> bool
    ensures { result ≡ is_address_length n }
{
    n == 4 || n == 16
}

// Whether S and G may have so many octets: both 4 or both 16.
fn are_lengths(source: usize, group: usize) -> bool
    ensures { result ≡ (is_address_length source && eqb source group) }
{
    is_address_length(source) && source == group
}

// Elects the Designated Forwarder for the flow (S,G) in a tag: 10 for a reserved tag, 11 for a ready list over 64 rows of five words, 18 unless S and G are both of 4 or
// both of 16 octets, 12 where no route is eligible. Where the routes agree on the number that is set for (S,G), it is told as the algorithm in use; otherwise the
// answer is that of the plain query.
#[tactic(auto, using(crate::proofs::Laws::right_words))]
pub fn elect_source_group(
    t: &[u32],
    settings: &[u32],
    source: &[u8],
    group: &[u8],
    tag: u32,
    ready: &[u32],
) -> Result<Elected, Refusal>
    requires { Valid t.now × ValidSettings settings.now }
    ensures { steps.Elected (settings_in settings.now) (by_source_group source.now group.now) (table_in t.now).esi (table_in t.now).entries tag (ready_in ready.now) (answer_of result) }
{
    let number = settings::source_group(settings);
    let right = are_lengths(source.len(), group.len());
    election::elect_query(t, settings, number, right, source, group, tag, ready)
}

// The same for the flow (*,G): 18 unless G is of 4 or of 16 octets; the number is the one that is set for (*,G).
#[tactic(auto, using(crate::proofs::Laws::whole_words))]
pub fn elect_any_source(
    t: &[u32],
    settings: &[u32],
    group: &[u8],
    tag: u32,
    ready: &[u32],
) -> Result<Elected, Refusal>
    requires { Valid t.now × ValidSettings settings.now }
    ensures { steps.Elected (settings_in settings.now) (by_any_source group.now) (table_in t.now).esi (table_in t.now).entries tag (ready_in ready.now) (answer_of result) }
{
    let number = settings::any_source(settings);
    let right = is_address_length(group.len());
    let none: [u8; 0] = [0; 0];
    election::elect_query(t, settings, number, right, &none, group, tag, ready)
}
