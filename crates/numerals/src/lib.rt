// Numbers and addresses as pieces of an answer line (document 01, "The bench program"), put into a lent buffer by the rule of `lines`: a number in decimal, an
// address of either family.
#![tactic(auto)]

ghost use Rattle.std.specs.Prelude.{◌≡◌, [], ◌∷◌, ◌≤◌, length, drop};
ghost use Rattle.lines.specs.Lines.{decimal, dotted, hex, Put};

// The character `0`; the other digits follow it.
const ZERO: u8 = b'0';

// The character between two numbers of a dotted address.
const DOT: u8 = b'.';

// How many digits a u64 has at most,
const LONGEST_DECIMAL: usize = 20;

// and how many octets a dotted address has at most.
const LONGEST_DOTTED: usize = 15;

// Spells the digits of a number at the end of a text of 20 octets, and answers the position of the first.
fn spell(text: &mut [u8], n: u64) -> usize
    requires { length text.old ≡ 20 }
    ensures { (result ≤ 20) × (drop result text.new ≡ decimal n) }
{
    let mut i = LONGEST_DECIMAL;
    let mut rest = n;
    while 9 < rest {
        i -= 1;
        text[i] = ZERO + (rest % 10) as u8;
        rest /= 10;
    }
    i -= 1;
    text[i] = ZERO + rest as u8;
    i
}

// Puts the decimal digits of a number below 256, by the same rule.
fn put_small(buf: &mut [u8], at: usize, x: u8) -> usize
    ensures { Put buf.old at (decimal x) result buf.new }
{
    let units = ZERO + x % 10;
    if x < 10 {
        return lines::put_octet(buf, at, units);
    }
    let tens = ZERO + x / 10 % 10;
    if x < 100 {
        let pair = [tens, units];
        return lines::put_run(buf, at, &pair);
    }
    let hundreds = ZERO + x / 100;
    let triple = [hundreds, tens, units];
    lines::put_run(buf, at, &triple)
}

// Puts the decimal digits of a number, highest first and without leading zeros, from position `at` on and answers the position after them; where
// they do not fit, the buffer stays as it is and the answer is `at`.
pub fn put_decimal(buf: &mut [u8], at: usize, n: u64) -> usize
    ensures { Put buf.old at (decimal n) result buf.new }
{
    if n < 256 {
        return put_small(buf, at, n as u8);
    }
    let mut text = [0u8; LONGEST_DECIMAL];
    let first = spell(&mut text, n);
    lines::put_run(buf, at, &text[first..])
}

// Spells the dotted form of an IPv4 address at the front of a text that has room for it, and answers its length.
fn spell_dotted(text: &mut [u8], a: u8, b: u8, c: u8, d: u8) -> usize
    requires { 15 ≤ length text.old }
    ensures { Put text.old 0 (dotted (a ∷ b ∷ c ∷ d ∷ [])) result text.new }
{
    let mut end = put_small(text, 0, a);
    end = lines::put_octet(text, end, DOT);
    end = put_small(text, end, b);
    end = lines::put_octet(text, end, DOT);
    end = put_small(text, end, c);
    end = lines::put_octet(text, end, DOT);
    put_small(text, end, d)
}

// Puts the dotted form of an IPv4 address, its four octets in decimal with dots between, from position `at` on and answers the position after it; where it does
// not fit, the buffer stays as it is and the answer is `at`.
pub fn put_dotted(buf: &mut [u8], at: usize, a: u8, b: u8, c: u8, d: u8) -> usize
    ensures { Put buf.old at (dotted (a ∷ b ∷ c ∷ d ∷ [])) result buf.new }
{
    let mut text = [0u8; LONGEST_DOTTED];
    let end = spell_dotted(&mut text, a, b, c, d);
    lines::put_run(buf, at, &text[..end])
}

// Puts sixteen octets in hexadecimal, two digits each, from position `at` on and answers the position after them; where they do not fit, the buffer stays as it
// is and the answer is `at`.
pub fn put_hex(buf: &mut [u8], at: usize, s: [u8; 16]) -> usize
    ensures { Put buf.old at (hex s) result buf.new }
{
    let mut text = [0u8; 32];
    for (i, octet) in s.iter().enumerate() {
        text[2 * i] = octets::hex_digit(*octet / 16);
        text[2 * i + 1] = octets::hex_digit(*octet);
    }
    lines::put_run(buf, at, &text)
}
