//! The header of a literal at the end of a part of a line: `{`, digits and `}` (RFC 9051, section 4.3).

ghost use Rattle.std.specs.Prelude.{◌≡◌, ℕ, ◌+◌, ◌*◌, ◌-◌, ◌<◌, ◌≤◌, ◌++◌, ◌^◌, List, length, take, drop, min, IfSome, IfNone, slice_index};
ghost use Rattle.std.specs.Char.{IsAsciiDigit};
ghost use Rattle.std.specs.Str.Parse.{IsNumeral, AllDigits, digits_value};
ghost use Rattle.mail_base.specs.Frames.{header};
ghost use Rattle.mail_base.specs.LiteralHeaders.{EndsIn};

/// Where the `{` stands in the part, and how many octets are announced. A number above 2^64 - 1 is told as 2^64 - 1.
#[derive(Clone, Copy, Debug, PartialEq, Eq)]
pub struct LiteralHeader {
    pub at: usize,
    pub octets: u64,
}

/// The header at the end of a part, which stands there without its CRLF. The first digits may be 0, and `{}` is none.
pub fn literal_at_end(part: &[u8]) -> Option<LiteralHeader>
    ensures found { IfSome result (λ header. (front : List ℕ) × (digits : List ℕ) × EndsIn part.now front digits header) }
    ensures none { IfNone result ((front digits : List ℕ) → IsNumeral 10 digits → part.now ≡ front ++ header digits → ⊥) }
{
    let (close, text) = part.split_last()?;
    if *close != b'}' {
        return None;
    }
    let from = digits_from(text);
    if from == 0 || from == text.len() || text[from - 1] != b'{' {
        return None;
    }
    Some(LiteralHeader {
        at: from - 1,
        octets: number_of(&text[from..]),
    })
}

// Where the digits begin that stand at the end of the text.
fn digits_from(text: &[u8]) -> usize
    ensures within { result ≤ length text.now }
    ensures digits { AllDigits 10 (drop result text.now) }
    ensures other { 0 < result → IsAsciiDigit (slice_index text.now (result - 1)) → ⊥ }
{
    let mut from = text.len();
    while from > 0 && text[from - 1].is_ascii_digit() {
        from -= 1;
    }
    from
}

// The number that the digits write, or 2^64 - 1 for more.
fn number_of(digits: &[u8]) -> u64
    requires { AllDigits 10 digits.now }
    ensures { result ≡ min (digits_value 10 digits.now) (2 ^ 64 - 1) }
{
    let mut number = 0;
    for at in 0..digits.len() {
        let byte = digits[at];
        number = with_digit(number, u64::from(byte - b'0'));
    }
    number
}

// The number with one digit more, or 2^64 - 1 where it is more.
fn with_digit(number: u64, digit: u64) -> u64
    requires { digit < 10 }
    ensures { result ≡ min (number * 10 + digit) (2 ^ 64 - 1) }
{
    if number > (u64::MAX - digit) / 10 {
        u64::MAX
    } else {
        number * 10 + digit
    }
}
