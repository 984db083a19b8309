//! The tables of this program.
ghost use Rattle.std.specs.Prelude.{◌≡◌, map};

use crate::words::Words;

/// The first word of each command.
pub const COMMANDS: [&str; 41] = [
    "load",
    "option",
    "drop-option",
    "criterion",
    "drop-criterion",
    "refs",
    "judge",
    "unjudge",
    "perform",
    "weigh-order",
    "weigh",
    "unweigh",
    "reach",
    "import",
    "undo",
    "matrix",
    "rows",
    "fits",
    "scale",
    "cert",
    "verify",
    "repairs",
    "anchored",
    "slack",
    "weights",
    "wcert",
    "wrepairs",
    "scores",
    "dominance",
    "dcert",
    "dominances",
    "export",
    "dump",
    "stats",
    "quit",
    "group",
    "drop-group",
    "place",
    "unplace",
    "groups",
    "subtotals",
];

/// The categories of difference, from none to the greatest.
pub const CATEGORIES: [&str; 7] = [
    "no",
    "very-weak",
    "weak",
    "moderate",
    "strong",
    "very-strong",
    "extreme",
];

/// The texts of the refusals, from number 1 on.
pub const REFUSALS: [&str; 33] = [
    "line too long",
    "not UTF-8",
    "unknown command",
    "wrong number of words",
    "bad name",
    "bad number",
    "bad category",
    "unknown option",
    "unknown criterion",
    "unknown element",
    "name taken",
    "limit reached",
    "against the listed order",
    "not a permutation",
    "block cut by the end of input",
    "block too large",
    "bad JSON",
    "bad model or table",
    "bad certificate text",
    "nothing to undo",
    "performance missing",
    "inconsistent",
    "flat",
    "reach too small",
    "too far",
    "too long",
    "too wide",
    "unknown group",
    "levels not in order",
    "no levels",
    "outside the levels",
    "unknown judge",
    "joins are closed",
];

/// The words of the commands.
pub fn commands() -> Words<'static, 41>
    ensures { result ≡ map (λ word. word.now) COMMANDS }
{
    Words::of_apart(&COMMANDS)
}

/// The words of the categories: category c at place c.
pub fn categories() -> Words<'static, 7>
    ensures { result ≡ map (λ word. word.now) CATEGORIES }
{
    Words::of_apart(&CATEGORIES)
}

/// The texts of the refusals: refusal k at place k - 1.
pub fn refusals() -> Words<'static, 33>
    ensures { result ≡ map (λ word. word.now) REFUSALS }
{
    Words::of_apart(&REFUSALS)
}
