// The election over both tables: its candidates come from the A-D routes of a second table (`circuit_ready`), and not from a ready list.
#![tactic(auto)]

ghost use Rattle.std.specs.Prelude.{◌≡◌};
ghost use Rattle.std.specs.Int.Count.{ones};
ghost use Rattle.layout.specs.Words.{table_in, Valid};
ghost use Rattle.settings.specs.Settings.{settings_in, ValidSettings};
ghost use Rattle.circuit_layout.specs.Circuits.{circuits_in, ValidCircuits};
ghost use Rattle.circuit_ready.specs.Routers.{ready_routers};
ghost use Rattle.refusals.specs.Refusals.{ready_too_long};
ghost use Rattle.answers.specs.Answers.{answer_of, Forwarder};
ghost use Rattle.election.specs.Queries.{plain, method_of, candidates_of, NoneNamed};
ghost use Rattle.circuit_election.specs.Over.{elect_over};

use answers::Elected;
use refusals::Refusal;

// Elects over both tables: as the plain election does with the list of those routers of the route table that are ready for the tag by their A-D routes. This list is
// never too long, so 11 is not answered.
#[tactic(auto, using(crate::proofs::Laws::over_none, crate::proofs::Laws::nobody, answers::proofs::Laws::ones_none))]
pub fn elect_by_circuits(
    t: &[u32],
    settings: &[u32],
    circuits: &[u32],
    tag: u32,
) -> Result<Elected, Refusal>
    requires { Valid t.now × ValidSettings settings.now × ValidCircuits circuits.now }
    ensures answer { answer_of result ≡ elect_over (settings_in settings.now) (table_in t.now).esi (table_in t.now).entries (circuits_in circuits.now) tag }
    ensures counted { (answer_of result).n ≡ ones (answer_of result).candidates }
    ensures none_named { NoneNamed (settings_in settings.now) plain (table_in t.now).entries tag (ready_routers (circuits_in circuits.now) tag (table_in t.now).entries) (answer_of result) }
    ensures forwarder { (answer_of result).number ≡ 0 → Forwarder (method_of (settings_in settings.now) plain (table_in t.now).esi (table_in t.now).entries tag) (candidates_of (settings_in settings.now) (table_in t.now).entries (ready_routers (circuits_in circuits.now) tag (table_in t.now).entries)) tag (answer_of result) }
    ensures never_long { (answer_of result).number ≡ ready_too_long → ⊥ }
{
    if tags::is_reserved(tag) {
        return Err(Refusal::TagReserved);
    }
    let u = agreement::in_use(t, settings);
    let set = circuit_ready::circuit_candidates(t, u.ac_df, circuits, tag);
    if set == 0 {
        return Err(Refusal::NoneEligible);
    }
    let n = places::count(set);
    let algorithm = election::plain_algorithm(settings, tag, u.algorithm);
    let at = answers::place_by_tag(t, algorithm, set, n, tag);
    Ok(answers::named(t, algorithm, set, n, at))
}
