//! Classes of bytes.
ghost use Rattle.std.specs.Prelude.{◌≡◌, position};
ghost use Rattle.std.specs.List.{position_or_len};
ghost use Rattle.tsdl_lex.specs.Bytes.{is_letter, is_word_byte, is_other, is_space};

/// Whether a word may begin with the byte.
pub fn is_letter(byte: u8) -> bool
    ensures { result ≡ is_letter byte }
{
    byte.is_ascii_alphabetic() || byte == b'_'
}

/// Whether a word may go on with the byte.
pub fn is_word_byte(byte: u8) -> bool
    ensures { result ≡ is_word_byte byte }
{
    is_letter(byte) || byte.is_ascii_digit()
}

/// Whether the byte is one of C's spaces.
pub fn is_space(byte: u8) -> bool
    ensures { result ≡ is_space byte }
{
    matches!(byte, 9..=13) || byte == b' '
}

/// How many bytes of a word a text begins with.
pub fn word_len(text: &[u8]) -> usize
    ensures { result ≡ position_or_len is_other text.now }
{
    first_other(text).unwrap_or(text.len())
}

// Where the first byte stands with which no word goes on.
fn first_other(text: &[u8]) -> Option<usize>
    ensures { result ≡ position is_other text.now }
{
    text.iter().position(|byte| !is_word_byte(*byte))
}
