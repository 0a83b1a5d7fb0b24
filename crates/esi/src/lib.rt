// The Ethernet Segment Identifier (ESI) of RFC 7432: which ones are reserved, and the text of one (document 01's plate).
#![tactic(auto)]

ghost use Rattle.std.specs.Prelude.{◌≡◌, ◌<◌, true, length, take};
ghost use Rattle.esi.specs.Reserved.{reserved};
ghost use Rattle.esi.specs.Text.{
  FirstFault,
  accepted,
  value_of_digit,
  esi_in,
  first_wrong,
  lower_case,
  octet_at,
  read_text,
  right_at,
  character_at,
  text_of,
  text_written,
  told_text,
  well_formed,
  write_text_number,
};
ghost use Rattle.refusals.specs.Numbers.{number_of};

use refusals::{Refusal, RefusalAt};

// How many octets an identifier has.
const ESI_LENGTH: usize = 10;

// How many characters its text has.
const TEXT_LENGTH: usize = 29;

// The character between two pairs of digits.
const COLON: u8 = b':';

// Whether an identifier is reserved: ten octets 00, ten octets FF, or not ten octets at all.
#[tactic(auto, using(crate::proofs::Laws::reserving))]
pub fn is_reserved(esi: &[u8]) -> bool
    ensures { result ≡ reserved esi.now }
{
    if esi.len() != ESI_LENGTH {
        return true;
    }
    if octets::all_are(esi, 0) {
        return true;
    }
    octets::all_are(esi, 255)
}

// The number of a digit; 16 for a character that is none. The letters O and l are none.
#[tactic(auto, unfolding(crate::specs::Text::value_of_digit))]
fn digit_value(c: u8) -> u8
    ensures { result ≡ value_of_digit c }
{
    match c {
        b'0'..=b'9' => c - 48,
        b'a'..=b'f' => c - 87,
        b'A'..=b'F' => c - 55,
        _ => 16,
    }
}

// Whether the character c may stand at offset i of a text: a colon at every third offset, a digit elsewhere.
#[tactic(auto, unfolding(crate::specs::Text::right_at))]
fn right_at(i: usize, c: u8) -> bool
    ensures { result ≡ right_at i c }
{
    if i % 3 == 2 {
        return c == COLON;
    }
    digit_value(c) < 16
}

// The offset of the first wrong character among the first 29; else the text's length if that is under 29, else 29.
#[tactic(auto, using(crate::proofs::Places::first_of_29))]
fn first_wrong(text: &[u8]) -> usize
    ensures { result ≡ first_wrong text.now }
{
    for i in 0..TEXT_LENGTH {
        if text.len() <= i || !right_at(i, text[i]) {
            return i;
        }
    }
    TEXT_LENGTH
}

// Octet k of the identifier that a text says.
#[tactic(auto, using(crate::proofs::Laws::octet_digits), unfolding(crate::specs::Text::octet_at))]
fn octet_at(text: &[u8], k: usize) -> u8
    requires { (well_formed text.now ≡ true) × (k < 10) }
    ensures { result ≡ octet_at text.now k }
{
    digit_value(text[3 * k]) * 16 + digit_value(text[3 * k + 1])
}

// The identifier that a text says.
fn esi_in(text: &[u8]) -> [u8; 10]
    requires { well_formed text.now ≡ true }
    ensures { result ≡ esi_in text.now }
{
    let mut esi = [0; 10];
    for k in 0..ESI_LENGTH {
        esi[k] = octet_at(text, k);
    }
    esi
}

// Reads the text of an identifier: 13 unless it is 29 characters, ten pairs of digits with a colon between pairs; then 4 for a
// reserved identifier; else the identifier. With 13 comes the offset of the first fault: every character before it is right, and the one at
// it is wrong, or missing, or one too many; else the offset is 0. The text of what was read is the text itself, in lower case.
#[tactic(auto, using(crate::proofs::Laws::reading), unfolding(crate::specs::Text::read_text, crate::specs::Text::well_formed))]
pub fn read_text(text: &[u8]) -> Result<[u8; 10], RefusalAt>
    ensures answer { told_text result ≡ read_text text.now }
    ensures fault { (told_text result).number ≡ 13 → FirstFault text.now (told_text result).offset }
    ensures round_trip { (told_text result).number ≡ 0 → text_of (told_text result).esi ≡ lower_case text.now }
{
    let wrong = first_wrong(text);
    if text.len() != TEXT_LENGTH || wrong != TEXT_LENGTH {
        return Err(RefusalAt {
            refusal: Refusal::EsiText,
            offset: wrong,
        });
    }
    let esi = esi_in(text);
    if is_reserved(&esi) {
        return Err(RefusalAt {
            refusal: Refusal::EsiReserved,
            offset: 0,
        });
    }
    Ok(esi)
}

// The character at offset i of the text of an identifier.
#[tactic(auto, using(crate::proofs::Places::character_kinds))]
fn text_at(esi: &[u8], i: usize) -> u8
    requires { (length esi.now ≡ 10) × (i < 29) }
    ensures { result ≡ character_at esi.now i }
{
    if i % 3 == 2 {
        return COLON;
    }
    let octet = esi[i / 3];
    if i % 3 == 0 {
        return octets::hex_digit(octet / 16);
    }
    octets::hex_digit(octet % 16)
}

// Writes the text of an identifier, in lower case, into the first 29 characters of a buffer. A reserved identifier is
// refused with 4, then a buffer under 29 with 14; a refusal changes nothing. Reading what was written gives the identifier back.
#[tactic(auto, using(crate::proofs::Laws::writing))]
pub fn write_text(buf: &mut [u8], esi: &[u8]) -> Result<(), Refusal>
    ensures number { number_of result ≡ write_text_number (length buf.old) esi.now }
    ensures buffer { buf.new ≡ text_written buf.old esi.now }
    ensures round_trip { number_of result ≡ 0 → read_text (take 29 buf.new) ≡ accepted esi.now }
{
    if is_reserved(esi) {
        return Err(Refusal::EsiReserved);
    }
    if buf.len() < TEXT_LENGTH {
        return Err(Refusal::BufferShort);
    }
    for offset in 0..TEXT_LENGTH {
        buf[offset] = text_at(esi, offset);
    }
    Ok(())
}
