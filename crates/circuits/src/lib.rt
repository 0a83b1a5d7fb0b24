// The table of Ethernet A-D routes: at most 256 of both kinds together, announced and withdrawn. It lies in words that the caller lends (`circuit_layout`).
// A refused call leaves them as they were.
#![tactic(auto)]

ghost use Rattle.std.specs.Prelude.{◌≡◌, []};
ghost use Rattle.address.specs.Address.{address_row};
ghost use Rattle.circuit_layout.specs.Circuits.{reserved_scope, circuits_in, ValidCircuits};
ghost use Rattle.circuits.specs.Changes.{ad_announced, ad_withdrawn, AdTold};
ghost use Rattle.circuits.specs.Steps.{ad_refused};
ghost use Rattle.refusals.specs.Numbers.{number_of};

use address::Address;
use circuit_layout::CAPACITY;
pub use circuit_layout::{Scope, WORDS};
use refusals::Refusal;

// A fresh table, which holds no route.
pub fn fresh() -> [u32; WORDS]
    ensures answer { circuits_in result ≡ [] }
    ensures kept { ValidCircuits result }
{
    [0u32; WORDS]
}

// Whether a route is for a reserved tag; one for a whole segment has none.
fn is_reserved(scope: Scope) -> bool
    ensures { result ≡ reserved_scope scope }
{
    match scope {
        Scope::Segment => false,
        Scope::Instance(tag) => tags::is_reserved(tag),
    }
}

// Whether a route is refused whatever the table holds: 6 for address zero, 10 for a reserved tag.
#[tactic(auto, unfolding(lists::specs::Checks::first_refusal, crate::specs::Steps::ad_refused))]
fn refused(scope: Scope, address: Address) -> Result<(), Refusal>
    ensures { number_of result ≡ ad_refused scope (address_row address) }
{
    let zero = address::is_zero(address);
    let reserved = is_reserved(scope);
    if zero {
        return Err(Refusal::AddressZero);
    }
    if reserved {
        return Err(Refusal::TagReserved);
    }
    Ok(())
}

// Announces a route: 6 for address zero, 10 for a reserved tag, 8 for a new route where 256 are present. One that is present is accepted again.
pub fn announce(t: &mut [u32], scope: Scope, address: Address) -> Result<(), Refusal>
    requires { ValidCircuits t.old }
    ensures answer { AdTold (ad_announced (circuits_in t.old) scope (address_row address)) (number_of result) t.new }
    ensures kept { ValidCircuits t.new }
{
    refused(scope, address)?;
    let row = circuit_layout::row(scope, address);
    let found = circuit_layout::look(t, CAPACITY, &row);
    let Err(at) = found else {
        return Ok(());
    };
    if CAPACITY <= circuit_layout::count(t) {
        return Err(Refusal::TableFull);
    }
    circuit_layout::grow(t, at, &row);
    Ok(())
}

// Withdraws a route: 6 for address zero, 10 for a reserved tag, 9 for one that is not present. Where a per-segment route goes, the per-instance ones of its
// address stay. The freed place is zero and can be filled again.
pub fn withdraw(t: &mut [u32], scope: Scope, address: Address) -> Result<(), Refusal>
    requires { ValidCircuits t.old }
    ensures answer { AdTold (ad_withdrawn (circuits_in t.old) scope (address_row address)) (number_of result) t.new }
    ensures kept { ValidCircuits t.new }
{
    refused(scope, address)?;
    let key = circuit_layout::row(scope, address);
    let found = circuit_layout::look(t, CAPACITY, &key);
    let Ok(at) = found else {
        return Err(Refusal::NotPresent);
    };
    circuit_layout::shrink(t, at);
    Ok(())
}
