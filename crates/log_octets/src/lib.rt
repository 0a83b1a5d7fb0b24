// A table written out as a run of bench records into a lent buffer (document 02, M-112): the text of the identifier, then an announcement for each entry.
#![tactic(auto)]

ghost use Rattle.std.specs.Prelude.{◌≡◌, false, ◌+◌, ◌≤◌, length};
ghost use Rattle.octets.specs.Octets.{stored};
ghost use Rattle.esi.specs.Reserved.{reserved};
ghost use Rattle.layout.specs.Words.{table_in, Valid};
ghost use Rattle.frames.specs.Frames.{record_of};
ghost use Rattle.log_octets.specs.Log.{entry_records, log_of, log_number, log_length, log_written, logged_of};
ghost use Rattle.log_octets.specs.Steps.{record_length};

use frames::{HEAD_LENGTH, MARK_FIRST, MARK_SECOND};
use refusals::Refusal;

// The kind of the first record, the text of an identifier,
const TEXT: u8 = 0;

// and of an announcement.
const ANNOUNCEMENT: u8 = 1;

// How long the text of an identifier is,
const TEXT_LENGTH: usize = 29;

// and its record.
const TEXT_RECORD: usize = 33;

// Puts a record at a position, where there is room for it.
fn put_record(out: &mut [u8], at: usize, kind: u8, payload: &[u8])
    requires { (at + (4 + length payload.now) ≤ length out.old) × (length payload.now ≤ 255) }
    ensures { out.new ≡ stored out.old at (record_of kind payload.now) }
{
    let n = payload.len() as u8;
    let head = [MARK_FIRST, MARK_SECOND, kind, n];
    octets::store(out, at, &head);
    let after = at + HEAD_LENGTH;
    octets::store(out, after, payload);
}

// How long the record of an announcement is, by the family of its address.
fn record_length(family: u8) -> usize
    ensures { result ≡ record_length family }
{
    if family == 6 {
        return 49;
    }
    37
}

// How many octets the run of a table has.
fn log_length(t: &[u32]) -> usize
    requires { Valid t.now }
    ensures { result ≡ length (log_of (table_in t.now)) }
{
    let n = layout::count(t);
    let mut length = TEXT_RECORD;
    for i in 0..n {
        length += record_length(layout::family_at(t, i));
    }
    length
}

// Puts the records of all entries behind the first record, where there is room for them.
fn put_entries(t: &[u32], esi: [u8; 10], out: &mut [u8])
    requires { Valid t.now × (esi ≡ (table_in t.now).esi) × (reserved esi ≡ false) × (length (log_of (table_in t.now)) ≤ length out.old) }
    ensures { out.new ≡ stored out.old 33 (entry_records esi (table_in t.now).entries) }
{
    let n = layout::count(t);
    let mut at = TEXT_RECORD;
    for i in 0..n {
        let p = log_payloads::payload_at(t, esi, i);
        let octets = p.octets;
        let length = p.length;
        put_record(out, at, ANNOUNCEMENT, &octets[..length]);
        at += HEAD_LENGTH + length;
    }
}

// Writes a table out as a run of bench records, and answers how many octets that is. It is refused with 4 for the table of a reserved identifier, 14 for a buffer that the run does not fit into; these
// leave the buffer as it is. Only the octets of the run change.
pub fn write_log(t: &[u32], out: &mut [u8]) -> Result<usize, Refusal>
    requires { Valid t.now }
    ensures answer { ((logged_of result).number ≡ log_number (table_in t.now) (length out.old)) × ((logged_of result).length ≡ log_length (table_in t.now) (length out.old)) }
    ensures written { out.new ≡ log_written out.old (table_in t.now) }
{
    let esi = owner::identifier(t);
    if esi::is_reserved(&esi) {
        return Err(Refusal::EsiReserved);
    }
    let length = log_length(t);
    if out.len() < length {
        return Err(Refusal::BufferShort);
    }
    let mut text = [0u8; TEXT_LENGTH];
    let _ = esi::write_text(&mut text, &esi);
    put_record(out, 0, TEXT, &text);
    put_entries(t, esi, out);
    Ok(length)
}
