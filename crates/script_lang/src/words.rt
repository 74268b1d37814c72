// The words of a line, from its front.
ghost use Rattle.std.specs.Prelude.{◌≡◌, ◌≤◌, ◌<◌, [], ◌∷◌, length, drop, MatchOption, IfSome};
ghost use Rattle.std.specs.List.{prefix_len};
ghost use Rattle.map_model.specs.Words.{words, is_blank, is_word_byte};

/// The first word of the text, and what stands behind it: `None` where it has only spaces and tabs.
pub fn split_word(text: &[u8]) -> Option<(&[u8], &[u8])>
    ensures first { MatchOption result (words text.now ≡ []) (λ found. words text.now ≡ found.0.now ∷ words found.1.now) }
    ensures shorter { IfSome result (λ found. length found.1.now < length text.now) }
{
    let word = skip_blanks(text);
    if word.is_empty() {
        return None;
    }
    Some(word.split_at(word_len(word)))
}

/// How many words it has.
pub fn count_words(text: &[u8]) -> usize
    ensures { result ≡ length (words text.now) }
{
    let mut count = 0;
    let mut rest = text;
    while let Some((_, behind)) = split_word(rest) {
        count += 1;
        rest = behind;
    }
    count
}

fn skip_blanks(text: &[u8]) -> &[u8]
    ensures { result.now ≡ drop (prefix_len is_blank text.now) text.now }
{
    &text[blank_len(text)..]
}

fn blank_len(text: &[u8]) -> usize
    ensures blanks { result ≡ prefix_len is_blank text.now }
    ensures fits { result ≤ length text.now }
{
    text.iter().take_while(|byte| is_blank(**byte)).count()
}

fn word_len(text: &[u8]) -> usize
    ensures bytes { result ≡ prefix_len is_word_byte text.now }
    ensures fits { result ≤ length text.now }
{
    text.iter().take_while(|byte| !is_blank(**byte)).count()
}

fn is_blank(byte: u8) -> bool
    ensures { result ≡ is_blank byte }
{
    byte == b' ' || byte == b'\t'
}
