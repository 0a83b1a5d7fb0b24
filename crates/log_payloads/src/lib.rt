// The payload of an announcement of an entry (document 02, M-112): its route, with a distinguisher of zeros, and one community.
#![tactic(auto)]

ghost use Rattle.std.specs.Prelude.{◌≡◌, false, ◌≤◌, ◌<◌, length, get_or, take};
ghost use Rattle.address.specs.Address.{address_row};
ghost use Rattle.esi.specs.Reserved.{reserved};
ghost use Rattle.community.specs.Community.{community_octets};
ghost use Rattle.layout.specs.Table.{no_entry};
ghost use Rattle.layout.specs.Words.{table_in, Valid};
ghost use Rattle.log_payloads.specs.Payload.{election_of, payload_of};

use address::{Address, Family};

// How long an election community is,
const COMMUNITY_LENGTH: usize = 8;

// and at most the payload of an announcement: an IPv6 router's route, and a community.
const MOST_PAYLOAD: usize = 45;

// The payload of an announcement: its octets, and how many of them count.
#[derive(Clone, Copy)]
pub struct Payload {
    pub octets: [u8; MOST_PAYLOAD],
    pub length: usize,
}

// The address at a place.
fn address_at(t: &[u32], at: usize) -> Address
    requires { Valid t.now × (at < length (table_in t.now).entries) }
    ensures { address_row result ≡ (get_or (table_in t.now).entries at no_entry).address }
{
    let family = layout::family_at(t, at);
    let w = layout::words_at(t, at);
    if family == 6 {
        return Address {
            family: Family::V6,
            w0: w[0],
            w1: w[1],
            w2: w[2],
            w3: w[3],
        };
    }
    Address {
        family: Family::V4,
        w0: w[0],
        w1: w[1],
        w2: w[2],
        w3: w[3],
    }
}

// The election community of the entry at a place.
fn community_at(t: &[u32], at: usize) -> [u8; COMMUNITY_LENGTH]
    requires { Valid t.now × (at < length (table_in t.now).entries) }
    ensures { result ≡ community_octets (election_of (get_or (table_in t.now).entries at no_entry)) }
{
    let kind = layout::kind_at(t, at);
    let standing = layout::standing_at(t, at);
    let algorithm = (kind / 2) as u8;
    let preference = (standing / 2) as u16;
    let ac_df = kind % 2 == 1;
    let dp = standing % 2 == 1;
    let mut octets = [0u8; COMMUNITY_LENGTH];
    let _ = community::write(&mut octets, algorithm, ac_df, dp, preference);
    octets
}

// The payload of an announcement of the entry at a place.
pub fn payload_at(t: &[u32], esi: [u8; 10], at: usize) -> Payload
    requires { Valid t.now × (at < length (table_in t.now).entries) × (esi ≡ (table_in t.now).esi) × (reserved esi ≡ false) }
    ensures { (take result.length result.octets ≡ payload_of esi (get_or (table_in t.now).entries at no_entry)) × (result.length ≡ length (payload_of esi (get_or (table_in t.now).entries at no_entry))) × (result.length ≤ 45) }
{
    let address = address_at(t, at);
    let community = community_at(t, at);
    let zeros = [0u8; 8];
    let mut octets = [0u8; MOST_PAYLOAD];
    let _ = route_fields::write(&mut octets, &zeros, &esi, address);
    let total = route::total(octets[20]);
    octets::store(&mut octets, total, &community);
    let length = total + COMMUNITY_LENGTH;
    Payload { octets, length }
}
