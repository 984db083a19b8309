//! Which refusal each number is: functions that do nothing, whose contracts are the laws.
ghost use Rattle.std.specs.Prelude.{◌≡◌, codes};
ghost use Rattle.report_text.specs.Refusals.{refusal_words};
ghost use Rattle.session_edits.specs.declared.refusal.TheConstants.{LINE_TOO_LONG, UNKNOWN_COMMAND, WRONG_COUNT, UNKNOWN_OPTION, UNKNOWN_CRITERION, UNKNOWN_ELEMENT, NAME_TAKEN, LIMIT_REACHED, AGAINST_THE_ORDER, NO_PERMUTATION, BLOCK_CUT, BLOCK_TOO_LARGE, BAD_JSON, BAD_MODEL, BAD_CERTIFICATE, NOTHING_TO_UNDO, PERFORMANCE_MISSING, INCONSISTENT, FLAT, TOO_WIDE, UNKNOWN_GROUP};

/// States what the refusals of a line and of its block say. It does nothing.
pub fn refusals_of_lines()
    ensures line_too_long { refusal_words LINE_TOO_LONG ≡ codes "line too long" }
    ensures unknown_command { refusal_words UNKNOWN_COMMAND ≡ codes "unknown command" }
    ensures wrong_count { refusal_words WRONG_COUNT ≡ codes "wrong number of words" }
    ensures block_cut { refusal_words BLOCK_CUT ≡ codes "block cut by the end of input" }
    ensures block_too_large { refusal_words BLOCK_TOO_LARGE ≡ codes "block too large" }
    ensures bad_json { refusal_words BAD_JSON ≡ codes "bad JSON" }
    ensures bad_model { refusal_words BAD_MODEL ≡ codes "bad model or table" }
    ensures bad_certificate { refusal_words BAD_CERTIFICATE ≡ codes "bad certificate text" }
{}

/// States what the refusals of an edit say. It does nothing.
pub fn refusals_of_edits()
    ensures unknown_option { refusal_words UNKNOWN_OPTION ≡ codes "unknown option" }
    ensures unknown_criterion { refusal_words UNKNOWN_CRITERION ≡ codes "unknown criterion" }
    ensures unknown_element { refusal_words UNKNOWN_ELEMENT ≡ codes "unknown element" }
    ensures unknown_group { refusal_words UNKNOWN_GROUP ≡ codes "unknown group" }
    ensures name_taken { refusal_words NAME_TAKEN ≡ codes "name taken" }
    ensures limit_reached { refusal_words LIMIT_REACHED ≡ codes "limit reached" }
    ensures against_the_order { refusal_words AGAINST_THE_ORDER ≡ codes "against the listed order" }
    ensures no_permutation { refusal_words NO_PERMUTATION ≡ codes "not a permutation" }
    ensures nothing_to_undo { refusal_words NOTHING_TO_UNDO ≡ codes "nothing to undo" }
{}

/// States what the refusals of what is worked say. It does nothing.
pub fn refusals_of_work()
    ensures performance_missing { refusal_words PERFORMANCE_MISSING ≡ codes "performance missing" }
    ensures inconsistent { refusal_words INCONSISTENT ≡ codes "inconsistent" }
    ensures flat { refusal_words FLAT ≡ codes "flat" }
    ensures too_wide { refusal_words TOO_WIDE ≡ codes "too wide" }
{}
