//! Cutting a text at a byte.
ghost use Rattle.std.specs.Prelude.{◌≡◌, ◌==◌, ◌≢◌, ◌++◌, ◌∷◌, IfSome, IfNone, position};
ghost use Rattle.std.specs.List.{AllByRecursion};

/// What stands before the first of these bytes, and what follows it. `None` comes exactly where
/// the text has no such byte.
pub fn cut_at(text: &[u8], end: u8) -> Option<(&[u8], &[u8])>
    ensures found { IfSome result (λ r. (text.now ≡ r.0.now ++ end ∷ r.1.now) × AllByRecursion (λ b. b ≢ end) r.0.now) }
    ensures none { IfNone result (AllByRecursion (λ b. b ≢ end) text.now) }
{
    let place = place_of(text, end)?;
    Some((&text[..place], &text[place + 1..]))
}

// Where the first of these bytes stands.
fn place_of(text: &[u8], end: u8) -> Option<usize>
    ensures { result ≡ position (λ b. b == end) text.now }
{
    text.iter().position(|byte| *byte == end)
}
