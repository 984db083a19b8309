//! What the tables of this program say: functions that do nothing, whose contracts are the laws.
ghost use Rattle.std.specs.Prelude.{◌≡◌, map};
ghost use Rattle.std.specs.List.{enumerate_from};
ghost use Rattle.word_table.specs.Texts.{command_words, words_by_category, texts_by_number};
ghost use Rattle.word_table.specs.declared.tables.TheConstants.{COMMANDS, CATEGORIES, REFUSALS};

/// States which words the commands have, and in which order. It does nothing.
pub fn words_of_commands()
    ensures { map (λ word. word.now) COMMANDS ≡ command_words }
{}

/// States which word each category has, from `no`, which is 0, to `extreme`, which is 6. It does nothing.
pub fn words_of_categories()
    ensures { enumerate_from 0 (map (λ word. word.now) CATEGORIES) ≡ words_by_category }
{}

/// States which text the refusal of each number has, from 1 to 33. It does nothing.
pub fn texts_of_refusals()
    ensures { enumerate_from 1 (map (λ word. word.now) REFUSALS) ≡ texts_by_number }
{}
