//! The words of a line.
ghost use Rattle.std.specs.Prelude.{◌≡◌, ◌<◌, ◌≤◌, ◌∷◌, [], IfSome, MatchOption, not, length, position};
ghost use Rattle.std.specs.List.{prefix_len};
ghost use Rattle.std.specs.Option.{option_map};
ghost use Rattle.command_read.specs.Words.{is_blank, is_quote, first_word, words};

/// The first word of a line, and what follows it. Words stand between spaces and tabs; one that begins with a quotation mark
/// goes up to the next one, where there is one. It takes no memory.
pub fn split_word(line: &[u8]) -> Option<(&[u8], &[u8])>
    ensures first { option_map (λ word. (word.0.now, word.1.now)) result ≡ first_word line.now }
    ensures words { MatchOption result (words line.now ≡ [])
        (λ word. words line.now ≡ word.0.now ∷ words word.1.now) }
    ensures shorter { IfSome result (λ word. length word.1.now < length line.now) }
{
    first_word(line)
}

fn first_word(line: &[u8]) -> Option<(&[u8], &[u8])>
    ensures first { option_map (λ word. (word.0.now, word.1.now)) result ≡ first_word line.now }
    ensures shorter { IfSome result (λ word. length word.1.now < length line.now) }
{
    let (_, text) = line.split_at(blank_len(line));
    let (first, behind) = text.split_first()?;
    if is_quote(*first)
        && let Some(end) = quote_in(behind)
    {
        return Some((&behind[..end], &behind[end + 1..]));
    }
    Some(text.split_at(plain_len(text)))
}

fn is_blank(byte: u8) -> bool
    ensures { result ≡ is_blank byte }
{
    byte == b' ' || byte == b'\t'
}

fn is_quote(byte: u8) -> bool
    ensures { result ≡ is_quote byte }
{
    byte == b'"'
}

fn blank_len(line: &[u8]) -> usize
    ensures len { result ≡ prefix_len is_blank line.now }
    ensures within { result ≤ length line.now }
{
    line.iter().take_while(|byte| is_blank(**byte)).count()
}

fn plain_len(text: &[u8]) -> usize
    ensures len { result ≡ prefix_len (λ byte. not (is_blank byte)) text.now }
    ensures within { result ≤ length text.now }
{
    text.iter().take_while(|byte| !is_blank(**byte)).count()
}

fn quote_in(text: &[u8]) -> Option<usize>
    ensures place { result ≡ position is_quote text.now }
    ensures within { IfSome result (λ place. place < length text.now) }
{
    text.iter().position(|byte| is_quote(*byte))
}
