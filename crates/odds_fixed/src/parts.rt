//! The parts of a text round a point, and words.
ghost use Rattle.std.specs.Prelude.{◌≡◌, [], ◌∷◌, ◌==◌, MatchOption};
ghost use Rattle.std.specs.List.{slice_split, position};
ghost use Rattle.std.specs.Str.{bytes_eq};

/// The index of the first of these bytes.
fn find(text: &[u8], wanted: u8) -> Option<usize>
    ensures { result ≡ position (λ byte. byte == wanted) text.now }
{
    text.iter().position(|byte| *byte == wanted)
}

/// What stands before the first of these bytes, and what follows it. `None` if the byte is not in the text.
pub fn cut(text: &[u8], separator: u8) -> Option<(&[u8], &[u8])>
    ensures { MatchOption result
        (slice_split (λ byte. byte == separator) text.now ≡ text.now ∷ [])
        (λ parts. slice_split (λ byte. byte == separator) text.now
        ≡ parts.0.now ∷ slice_split (λ byte. byte == separator) parts.1.now) }
{
    find(text, separator).map(|at| (&text[..at], &text[at + 1..]))
}

/// Whether the text is this word.
pub fn is_word(text: &[u8], word: &str) -> bool
    ensures { result ≡ bytes_eq text.now word.now }
{
    text == word.as_bytes()
}
