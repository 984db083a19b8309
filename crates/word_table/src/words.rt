//! Tables of words.
ghost use Rattle.std.specs.Prelude.{◌≡◌, ℕ, ◌<◌, ◌≤◌, ◌↔◌, IfSome, SomeIff, Some, length, map, position, slice_get};
ghost use Rattle.std.specs.Str.{bytes_eq};
ghost use Rattle.word_table.specs.Words.{find_word, AreApart};

use std::marker::Model;

/// Words of which no two are equal, each at its place. Places count from 0.
#[derive(Drop)]
pub struct Words<'a, const N: usize> {
    words: &'a [&'a str],
}

impl<'a, const N: usize> Model for Words<'a, N> {
    ghost use Rattle.std.specs.Prelude.{◌≡◌, ◌≤◌, ℕ, List, length, map};
    ghost use Rattle.word_table.specs.Words.{AreApart};

    ghost Value = { List (List ℕ) };

    ghost view = { λ table. map (λ word. word.now) table.words.now };

    ghost invariant = { λ table.
        (N ≤ 64) × (length table.words.now ≡ N) × AreApart (map (λ word. word.now) table.words.now) };
}

impl<'a, const N: usize> Words<'a, N> {
    /// The table of these words, where no two of them are equal.
    pub fn check(words: &'a [&'a str]) -> Option<Words<'a, N>>
        requires most { N ≤ 64 }
        requires each { length words.now ≡ N }
        ensures { SomeIff result (AreApart (map (λ word. word.now) words.now)) (map (λ word. word.now) words.now) }
    {
        for (place, word) in words.iter().enumerate() {
            if place_of(&words[..place], word.as_bytes()).is_some() {
                return None;
            }
        }
        Some(Words { words })
    }

    // The table of words of which no two are equal: nothing is compared.
    pub(crate) fn of_apart(words: &'a [&'a str]) -> Words<'a, N>
        requires most { N ≤ 64 }
        requires each { length words.now ≡ N }
        requires apart { AreApart (map (λ word. word.now) words.now) }
        ensures { result ≡ map (λ word. word.now) words.now }
    {
        Words { words }
    }

    /// The place of the word with these bytes.
    pub fn find(&self, bytes: &[u8]) -> Option<usize>
        ensures place { result ≡ find_word self.now bytes.now }
        ensures exact { (place : ℕ) → (result ≡ Some place) ↔ (slice_get self.now place ≡ Some bytes.now) }
        ensures within { IfSome result (λ place. place < N) }
    {
        place_of(self.words, bytes)
    }

    /// The word at a place.
    pub fn word(&self, place: usize) -> &'a str
        requires { place < N }
        ensures word { slice_get self.now place ≡ Some result.now }
        ensures found { find_word self.now result.now ≡ Some place }
    {
        // The facts that a table keeps are told where its field is read.
        let words = self.words;
        words[place]
    }
}

fn place_of(words: &[&str], bytes: &[u8]) -> Option<usize>
    ensures place { result ≡ position (λ word. bytes_eq bytes.now word.now) words.now }
    ensures within { IfSome result (λ place. place < length words.now) }
{
    words.iter().position(|word| bytes == word.as_bytes())
}
