// The last announcement of an address in two dumps of bench records, and the digest of a tag, exported as the calls in `exports` are, and not for a daemon. No exported function returns a part of what it is
// lent, so the part is put where `part` points: C sees a pointer and a count there, and so which dump the part lies in, and where.
#![tactic(auto)]

ghost use Rattle.std.specs.Prelude.{◌≡◌};
ghost use Rattle.address.specs.Address.{address_row};
ghost use Rattle.hrw.specs.Weight.{digest_of};
ghost use Rattle.export_forms.specs.Forms.{handed_in};
ghost use Rattle.dumps.specs.Answers.{Answered};

// `dumps::last_announcement`.
#[unsafe(no_mangle)]
pub extern "C" fn dumps_last_announcement<'a>(
    first: &'a [u8],
    second: &'a [u8],
    v6: bool,
    w0: u32,
    w1: u32,
    w2: u32,
    w3: u32,
    part: &mut &'a [u8],
) -> u8
    ensures { Answered (address_row (handed_in v6 w0 w1 w2 w3)) first.entry second.entry result part.new }
{
    let address = export_forms::handed_in(v6, w0, w1, w2, w3);
    match dumps::last_announcement(first, second, address) {
        Ok(octets) => {
            *part = octets;
            0
        }
        Err(refusal) => {
            *part = &first[0..0];
            refusal.number()
        }
    }
}

// `hrw::digest`. It is here, where no election is: an election takes the digest in as its only caller.
#[unsafe(no_mangle)]
pub extern "C" fn segment_digest(tag: u32, esi: &[u8; 10]) -> u32
    ensures { result ≡ digest_of tag esi.now }
{
    hrw::digest(tag, *esi)
}
