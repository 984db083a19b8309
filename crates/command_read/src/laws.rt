//! What the definitions of readings amount to: functions that do nothing, whose contracts are the laws.
ghost use Rattle.std.specs.Prelude.{◌≡◌, ◌≤◌, ◌↔◌, ◌⊎◌, ◌∷◌, [], ℕ, List, Some, true, MatchOption};
ghost use Rattle.std.specs.List.{AllByRecursion};
ghost use Rattle.std.specs.Option.{option_map_or};
ghost use Rattle.std.specs.Str.{is_utf8};
ghost use Rattle.command_read.specs.Words.{first_word, words};
ghost use Rattle.command_read.specs.Verbs.{verb_of, verb_words};
ghost use Rattle.command_read.specs.Reading.{is_comment, command_of, IsBlockWord, takes_block};
ghost use Rattle.command_read.specs.declared.block.Held.{Held};
ghost use Rattle.command_read.specs.declared.command.Parsed.TheVariants as parsed;

/// States that a line asks for nothing exactly where it is a comment or has no words, and that a refusal has a number from 2
/// to 7. That a line and its block have one reading needs no law: it is a function of them. It does nothing.
pub fn readings()
    ensures nothing { (line : List ℕ) (held : Held) → (command_of line held ≡ parsed.Nothing)
        ↔ ((is_comment line ≡ true) ⊎ (words line ≡ [])) }
    ensures refused { (line : List ℕ) (held : Held) (number : ℕ)
        → command_of line held ≡ parsed.Refused number → (2 ≤ number) × (number ≤ 7) }
{}

/// States which lines take a block: those of UTF-8 whose first word is `load`, `import` or `verify`. It does nothing.
pub fn lines_with_blocks()
    ensures { (line : List ℕ) → (takes_block line ≡ true)
        ↔ ((is_utf8 line ≡ true) × MatchOption (first_word line) ⊥ (λ word. IsBlockWord word.0)) }
{}

/// States that the words of a line are its first word and the words of what follows it. It does nothing.
pub fn words_in_order()
    ensures { (line : List ℕ)
        → words line ≡ option_map_or (λ word. word.0 ∷ words word.1) (first_word line) [] }
{}

/// States which command each word stands for. It does nothing.
pub fn words_of_verbs()
    ensures { AllByRecursion (λ entry. verb_of entry.0 ≡ Some entry.1) verb_words }
{}
