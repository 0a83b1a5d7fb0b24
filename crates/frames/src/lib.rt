// Cutting a run of octets into records: the mark D5 4F, a kind octet, a length octet, and that many octets (document 01, "The bench
// program"). Only the frame is judged here; which kinds and lengths are good is for those who read the payload.
#![tactic(auto)]

ghost use Rattle.std.specs.Prelude.{◌≡◌, ◌+◌, ◌<◌, length};
ghost use Rattle.frames.specs.Frames.{frame_at};

// The first octet of the mark,
pub const MARK_FIRST: u8 = 0xD5;

// and the second.
pub const MARK_SECOND: u8 = 0x4F;

// Both as one number, the second octet the high one, as the machine loads two octets at once.
const MARK: u16 = 0x4FD5;

// How many octets stand before the payload: the mark, the kind and the length.
pub const HEAD_LENGTH: usize = 4;

// What stands at a position of a run of octets.
#[derive(Clone, Copy)]
pub enum Frame {
    // No octet at all.
    Nothing,
    // An octet of the mark is wrong: no octets that follow can mend it.
    Bad,
    // The octets end before the record does.
    Cut,
    // A whole record: its kind, the position of its payload, and the payload's length. The next record stands at start + len.
    Whole { kind: u8, start: usize, len: usize },
}

// What stands at a position of s behind which there are fewer octets than a head has: nothing, or an octet of the mark that is there and wrong, which makes the record bad, or else a record that is cut.
fn part_at(s: &[u8], from: usize) -> Frame
    requires { length s.now < from + 4 }
    ensures { result ≡ frame_at s.now from }
{
    if s.len() <= from {
        return Frame::Nothing;
    }
    if s[from] != MARK_FIRST {
        return Frame::Bad;
    }
    if s.len() - from < 2 {
        return Frame::Cut;
    }
    if s[from + 1] != MARK_SECOND {
        return Frame::Bad;
    }
    Frame::Cut
}

// What stands at position `at` of s; a position past the end counts as the end. An octet of the mark that is there and wrong makes the record bad,
// however few octets there are; a record whose mark is right as far as it goes, and which is not all there, is cut.
pub fn frame_at(s: &[u8], at: usize) -> Frame
    ensures { result ≡ frame_at s.now at }
{
    if s.len() < HEAD_LENGTH {
        return part_at(s, at);
    }
    let last = s.len() - HEAD_LENGTH;
    if last < at {
        return part_at(s, at);
    }
    if u16::from_le_bytes([s[at], s[at + 1]]) != MARK {
        return Frame::Bad;
    }
    let len = s[at + 3] as usize;
    if last - at < len {
        return Frame::Cut;
    }
    let kind = s[at + 2];
    let start = at + HEAD_LENGTH;
    Frame::Whole { kind, start, len }
}
