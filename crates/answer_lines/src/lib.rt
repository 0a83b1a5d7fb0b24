// The answer lines of the bench program (document 01, "The bench program"): one for each record, put into a lent buffer. A line has at most 48 octets. That of
// a query is put by `query_lines`.
#![tactic(auto)]

ghost use Rattle.std.specs.Prelude.{◌≡◌, ◌+◌, ◌≤◌, length};
ghost use Rattle.lines.specs.Lines.{Put};
ghost use Rattle.answer_lines.specs.AnswerLines.{bad_line, line, offset_line, has_offset, read_line, Written};

// The room that any line finds enough.
pub const LINE_ROOM: usize = 48;

// Puts the line of a letter and a number.
pub fn put_line(out: &mut [u8], at: usize, letter: u8, number: u8) -> usize
    requires { at + 48 ≤ length out.old }
    ensures { Written out.old at (line letter number) result out.new }
{
    let mut next = lines::put_octet(out, at, letter);
    next = lines::put_octet(out, next, b' ');
    next = numerals::put_decimal(out, next, number as u64);
    lines::put_octet(out, next, b'\n')
}

// Puts the line of a letter, a number and an offset.
fn put_offset(out: &mut [u8], at: usize, letter: u8, number: u8, offset: usize) -> usize
    requires { at + 48 ≤ length out.old }
    ensures { Written out.old at (offset_line letter number offset) result out.new }
{
    let mut end = lines::put_octet(out, at, letter);
    end = lines::put_octet(out, end, b' ');
    end = numerals::put_decimal(out, end, number as u64);
    end = lines::put_octet(out, end, b' ');
    end = numerals::put_decimal(out, end, offset as u64);
    lines::put_octet(out, end, b'\n')
}

// Whether an offset is printed after a number: after 1 to 4, 6 and 13.
#[tactic(auto, unfolding(crate::specs::AnswerLines::has_offset))]
fn has_offset(number: u8) -> bool
    ensures { result ≡ has_offset number }
{
    match number {
        1..=4 => true,
        6 => true,
        13 => true,
        _ => false,
    }
}

// Puts the line for what was read: its number, and its offset where one is printed.
pub fn put_read(out: &mut [u8], at: usize, letter: u8, number: u8, offset: usize) -> usize
    requires { at + 48 ≤ length out.old }
    ensures { Written out.old at (read_line letter number offset) result out.new }
{
    if has_offset(number) {
        return put_offset(out, at, letter, number, offset);
    }
    put_line(out, at, letter, number)
}

// Puts the line of a bad record, `x 16`, from position `at` on and answers the position after it; where it does not fit, the buffer stays as it is
// and the answer is `at`.
pub fn put_bad(out: &mut [u8], at: usize) -> usize
    ensures { Put out.old at bad_line result out.new }
{
    lines::put_run(out, at, b"x 16\n")
}
