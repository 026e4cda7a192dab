//! Comments.
ghost use Rattle.std.specs.Prelude.{◌≡◌, ◌≤◌, not, length, drop, position, Some, None, IfSome, MatchOption};
ghost use Rattle.std.specs.List.{position_or_len};
ghost use Rattle.tsdl_lex.specs.Longest.{IsLongest, IsNowhere};
ghost use Rattle.tsdl_lex.specs.Marks.{after_close, is_in_line, comment_of};

/// The length of the comment that a text after its first slash begins with.
pub fn comment_len(text: &[u8]) -> Option<usize>
    ensures { MatchOption result (IsNowhere comment_of text.now) (λ len. IsLongest comment_of text.now len tt) }
{
    match text.first()? {
        b'*' => Some(1 + closed_len(&text[1..])?),
        b'/' => Some(1 + line_len(&text[1..])),
        _ => None,
    }
}

// How many bytes there are up to after the next `*/`.
fn closed_len(body: &[u8]) -> Option<usize>
    ensures within { IfSome result (λ len. len ≤ length body.now) }
    ensures len { MatchOption result (after_close body.now ≡ None) (λ len. after_close body.now ≡ Some (drop len body.now)) }
{
    let mut at = 0;
    while at < body.len() {
        if body[at..].starts_with(b"*/") {
            return Some(at + 2);
        }
        at += 1;
    }
    None
}

// How many bytes a line has.
fn line_len(body: &[u8]) -> usize
    ensures len { result ≡ position_or_len (λ c. not (is_in_line c)) body.now }
    ensures within { result ≤ length body.now }
{
    line_end(body).unwrap_or(body.len())
}

// Where the first line feed stands.
fn line_end(body: &[u8]) -> Option<usize>
    ensures { result ≡ position (λ c. not (is_in_line c)) body.now }
{
    body.iter().position(|byte| !is_in_line(*byte))
}

fn is_in_line(byte: u8) -> bool
    ensures { result ≡ is_in_line byte }
{
    byte != b'\n'
}
