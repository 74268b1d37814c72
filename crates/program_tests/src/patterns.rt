//! Answers beside patterns, in which `A..B` stands for a number from A to B.

/// Whether a number, or another word, is as a pattern has it.
fn is_word(word: &str, pattern: &str) -> bool {
    let Some((low, high)) = pattern.split_once("..") else {
        return word == pattern;
    };
    match (word.parse::<u64>(), low.parse::<u64>(), high.parse::<u64>()) {
        (Ok(number), Ok(low), Ok(high)) => low <= number && number <= high,
        _ => false,
    }
}

/// Whether answers are a text, or else as a pattern has them, word by word.
pub fn are_answers(answers: &[u8], pattern: &str) -> bool {
    if !pattern.contains("..") {
        return answers == pattern.as_bytes();
    }
    let answers = str::from_utf8(answers).unwrap_or("");
    let gaps = [' ', '/', '\n'];
    answers.split(gaps).count() == pattern.split(gaps).count()
        && answers
            .split(gaps)
            .zip(pattern.split(gaps))
            .all(|(word, pattern)| is_word(word, pattern))
}
