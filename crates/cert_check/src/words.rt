//! Texts cut at a byte, and lines cut into words.

ghost use Rattle.std.specs.Prelude.{◌≡◌, ◌≢◌, ◌↔◌, IsTrue, ℕ, List as Items, ◌++◌, [], ◌∷◌, All, MatchOption};
ghost use Rattle.cert_check.specs.Reading.{words};

/// Whether the bytes are the same.
pub(crate) fn is_same(text: &[u8], word: &[u8]) -> bool
    ensures { IsTrue result ↔ text.now ≡ word.now }
{
    text == word
}

/// What stands before the first such byte, and what stands behind it.
pub(crate) fn cut(text: &[u8], mark: u8) -> Option<(&[u8], &[u8])>
    ensures { MatchOption result (All (λ b. b ≢ mark) text.now)
        (λ parts. (text.now ≡ parts.0.now ++ mark ∷ parts.1.now) × All (λ b. b ≢ mark) parts.0.now) }
{
    let at = text.iter().position(|byte| *byte == mark)?;
    Some((&text[..at], &text[at + 1..]))
}

/// The first word of a line with more than one, and what follows it.
pub(crate) fn first_word(line: &[u8]) -> Option<(&[u8], &[u8])>
    ensures { MatchOption result (words line.now ≡ line.now ∷ [])
        (λ parts. words line.now ≡ parts.0.now ∷ words parts.1.now) }
{
    cut(line, b' ')
}

/// The two words of a line.
pub(crate) fn two_words(line: &[u8]) -> Option<(&[u8], &[u8])>
    ensures { MatchOption result ((a b : Items ℕ) → words line.now ≢ a ∷ b ∷ [])
        (λ parts. words line.now ≡ parts.0.now ∷ parts.1.now ∷ []) }
{
    let (first, rest) = first_word(line)?;
    if first_word(rest).is_some() {
        return None;
    }
    Some((first, rest))
}

/// The three words of a line.
pub(crate) fn three_words(line: &[u8]) -> Option<(&[u8], &[u8], &[u8])>
    ensures { MatchOption result ((a b c : Items ℕ) → words line.now ≢ a ∷ b ∷ c ∷ [])
        (λ parts. words line.now ≡ parts.0.now ∷ parts.1.now ∷ parts.2.now ∷ []) }
{
    let (first, rest) = first_word(line)?;
    let (second, third) = two_words(rest)?;
    Some((first, second, third))
}

/// The five words of a line.
pub(crate) fn five_words(line: &[u8]) -> Option<(&[u8], &[u8], &[u8], &[u8], &[u8])>
    ensures { MatchOption result ((a b c d e : Items ℕ) → words line.now ≢ a ∷ b ∷ c ∷ d ∷ e ∷ [])
        (λ parts. words line.now ≡ parts.0.now ∷ parts.1.now ∷ parts.2.now ∷ parts.3.now ∷ parts.4.now ∷ []) }
{
    let (first, rest) = first_word(line)?;
    let (second, rest) = first_word(rest)?;
    let (third, fourth, fifth) = three_words(rest)?;
    Some((first, second, third, fourth, fifth))
}
