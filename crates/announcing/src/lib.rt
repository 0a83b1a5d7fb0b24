// A route announced to the table of its segment (`table`): the route is checked, its communities are read, and its entry is stored.
#![tactic(auto)]

ghost use Rattle.std.specs.Prelude.{◌<◌};
ghost use Rattle.refusals.specs.Numbers.{number_at, number_of, offset_at};
ghost use Rattle.address.specs.Address.{address_row};
ghost use Rattle.route.specs.Route.{Fault, route_number};
ghost use Rattle.layout.specs.Table.{entry_of};
ghost use Rattle.layout.specs.Words.{table_in, Valid};
ghost use Rattle.table.specs.Table.{announced, Told};
ghost use Rattle.table.specs.Steps.{Stored, admitted};

use address::Address;
use community::Election;
use layout::MAX_ROUTES;
use refusals::{Refusal, RefusalAt};

// The entry stands in the table, in place of an older one of its address; 8 where its address is new and 64 are present.
#[tactic(auto, using(crate::proofs::Admitted::admitting))]
fn admit(t: &mut [u32], address: Address, e: Election) -> Result<(), Refusal>
    requires { Valid t.old }
    ensures answer { Stored (admitted (table_in t.old) (entry_of (address_row address) e)) (number_of result) t.new }
    ensures narrow { e.preference < 65536 }
{
    let word = layout::attributes(e);
    let found = entries::find(t, address);
    match found {
        Ok(at) => {
            entries::replace(t, at, word);
            Ok(())
        }
        Err(at) => {
            if MAX_ROUTES <= layout::count(t) {
                return Err(Refusal::TableFull);
            }
            entries::grow(t, at, address, word);
            Ok(())
        }
    }
}

// Announces a route with its communities. The route's own checks come first; then 5 for another identifier, 7 for a list of communities
// over 256 octets or not a multiple of 8, 8 for a new address where 64 are present. An address that is present has its entry replaced. The
// offset that the route's own checks give is passed on.
pub fn announce(t: &mut [u32], route: &[u8], communities: &[u8]) -> Result<(), RefusalAt>
    requires { Valid t.old }
    ensures answer { Told (announced (table_in t.old) route.now communities.now) (number_at result) (offset_at result) t.new }
    ensures kept { Valid t.new }
    ensures fault { Fault route.now (route_number route.now) (offset_at result) }
{
    let checked = route::check(route);
    let Ok(address) = checked else {
        return Err(checked.unwrap_err());
    };
    if !owner::same_identifier(t, &route[10..20]) {
        return Err(RefusalAt::from(Refusal::OtherSegment));
    }
    let election = community::read_list(communities)?;
    admit(t, address, election)?;
    Ok(())
}
