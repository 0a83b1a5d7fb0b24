// One call to a function, as in `exports`: the call that writes a segment's table out as records. It is an archive of its own, as it links what the bench program is made of.
#![tactic(auto)]

ghost use Rattle.std.specs.Prelude.{◌≡◌, length};
ghost use Rattle.segment_state.specs.State.{segment_in, ValidSegment};
ghost use Rattle.log_octets.specs.Log.{log_number, log_length, log_written};

// The writer's answer, laid out as C lays it out.
#[repr(C)]
#[derive(Clone, Copy)]
pub struct Logged {
    pub number: u8,
    pub length: usize,
}

// `compaction::write_segment`.
#[unsafe(no_mangle)]
pub extern "C" fn segment_write_log(s: &[u32], out: &mut [u8]) -> Logged
    requires { ValidSegment s.now }
    ensures answer { (result.number ≡ log_number (segment_in s.now).table (length out.old)) × (result.length ≡ log_length (segment_in s.now).table (length out.old)) }
    ensures written { out.new ≡ log_written out.old (segment_in s.now).table }
{
    match compaction::write_segment(s, out) {
        Ok(length) => Logged { number: 0, length },
        Err(refusal) => Logged {
            number: refusal.number(),
            length: 0,
        },
    }
}
