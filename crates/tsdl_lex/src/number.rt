//! Numbers.
ghost use Rattle.std.specs.Prelude.{◌≡◌, ◌≤◌, not, position};
ghost use Rattle.std.specs.List.{list_all};
ghost use Rattle.std.specs.Char.{is_digit};
ghost use Rattle.std.specs.Str.Parse.{AllDigits};
ghost use Rattle.tsdl_lex.specs.Numbers.{digits_of, is_suffix, is_suffix_letter, spelled_by, in_base, number_of};

/// The number that a whole text spells.
pub fn number_of(text: &[u8]) -> Option<u64>
    ensures { result ≡ number_of text.now }
{
    match text {
        [b'0', b'x', digits @ ..] => in_base(16, digits),
        [b'0', ..] => in_base(8, text),
        _ => in_base(10, text),
    }
}

// The number that digits of a base spell, after which a suffix may stand.
fn in_base(base: u32, text: &[u8]) -> Option<u64>
    requires { (2 ≤ base) × (base ≤ 16) }
    ensures { result ≡ in_base base text.now }
{
    let (digits, suffix) = text.split_at(digits_len(base, text));
    if is_suffix(suffix) {
        spelled_by(base, digits)
    } else {
        None
    }
}

// How many digits of a base a text begins with.
fn digits_len(base: u32, text: &[u8]) -> usize
    requires { (2 ≤ base) × (base ≤ 16) }
    ensures { result ≡ digits_of base text.now }
{
    first_other(base, text).unwrap_or(text.len())
}

// Where the first byte stands that is no digit of a base.
fn first_other(base: u32, text: &[u8]) -> Option<usize>
    requires { (2 ≤ base) × (base ≤ 16) }
    ensures { result ≡ position (λ c. not (is_digit c base)) text.now }
{
    text.iter()
        .position(|byte| !char::from(*byte).is_digit(base))
}

// Whether a text is a suffix of a number.
fn is_suffix(text: &[u8]) -> bool
    ensures { result ≡ is_suffix text.now }
{
    text.len() <= 3 && are_suffix_letters(text)
}

fn are_suffix_letters(text: &[u8]) -> bool
    ensures { result ≡ list_all is_suffix_letter text.now }
{
    text.iter().all(|byte| is_suffix_letter(*byte))
}

fn is_suffix_letter(byte: u8) -> bool
    ensures { result ≡ is_suffix_letter byte }
{
    matches!(byte, b'u' | b'U' | b'l' | b'L')
}

// The number that digits spell, where there is one digit at least and the number has 64 bits.
fn spelled_by(base: u32, digits: &[u8]) -> Option<u64>
    requires base { (2 ≤ base) × (base ≤ 16) }
    requires digits { AllDigits base digits.now }
    ensures { result ≡ spelled_by base digits.now }
{
    u64::from_str_radix(str::from_utf8(digits).ok()?, base).ok()
}
