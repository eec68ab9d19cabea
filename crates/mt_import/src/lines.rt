//! Lines of a text, and words of a line.
ghost use Rattle.std.specs.Prelude.{◌≡◌, ◌≢◌, ◌<◌, [], ◌∷◌, true, false, length, take, drop, slice_index, All, MatchOption, IfSome};
ghost use Rattle.mt_import.specs.Lines.{line_feed, is_blank, lines_of, words_of, without_return, from_word, to_word, trimmed};

/// Whether the byte is a space or a tab.
pub fn is_blank(byte: u8) -> bool
    ensures { result ≡ is_blank byte }
{
    byte == b' ' || byte == b'\t'
}

/// The first line, and the text behind it. `None` where there is no line.
pub fn split_line(text: &[u8]) -> Option<(&[u8], &[u8])>
    ensures lines { MatchOption result (lines_of text.now ≡ [])
        (λ r. lines_of text.now ≡ r.0.now ∷ lines_of r.1.now) }
    ensures shorter { IfSome result (λ r. length r.1.now < length text.now) }
{
    if text.is_empty() {
        return None;
    }
    match line_end(text) {
        Some(end) => Some((trim_return(&text[..end]), &text[end + 1..])),
        None => Some((trim_return(text), &[])),
    }
}

// The place of the first line feed.
fn line_end(text: &[u8]) -> Option<usize>
    ensures { MatchOption result
        (All (λ b. b ≢ line_feed) text.now)
        (λ i. (i < length text.now) × (slice_index text.now i ≡ line_feed)
        × All (λ b. b ≢ line_feed) (take i text.now)) }
{
    text.iter().position(|byte| *byte == b'\n')
}

// The line without a carriage return at its end.
fn trim_return(line: &[u8]) -> &[u8]
    ensures { result.now ≡ without_return line.now }
{
    let Some((last, prefix)) = line.split_last() else {
        return line;
    };
    if *last == b'\r' { prefix } else { line }
}

/// The first word, and the line behind it. `None` where there is no word.
pub fn split_word(line: &[u8]) -> Option<(&[u8], &[u8])>
    ensures { MatchOption result (words_of line.now ≡ [])
        (λ r. words_of line.now ≡ r.0.now ∷ words_of r.1.now) }
{
    let line = &line[word_start(line)?..];
    match word_end(line) {
        Some(end) => Some((&line[..end], &line[end..])),
        None => Some((line, &[])),
    }
}

// The place of the first byte that is no blank.
fn word_start(line: &[u8]) -> Option<usize>
    ensures { MatchOption result
        (All (λ b. is_blank b ≡ true) line.now)
        (λ i. (i < length line.now) × (is_blank (slice_index line.now i) ≡ false)
        × All (λ b. is_blank b ≡ true) (take i line.now)) }
{
    line.iter().position(|byte| !is_blank(*byte))
}

// The place of the first blank.
fn word_end(line: &[u8]) -> Option<usize>
    ensures { MatchOption result
        (All (λ b. is_blank b ≡ false) line.now)
        (λ i. (i < length line.now) × (is_blank (slice_index line.now i) ≡ true)
        × All (λ b. is_blank b ≡ false) (take i line.now)) }
{
    line.iter().position(|byte| is_blank(*byte))
}

/// The line without the blanks at its ends.
pub fn trimmed(line: &[u8]) -> &[u8]
    ensures { result.now ≡ trimmed line.now }
{
    to_word(from_word(line))
}

/// The line from its first byte on that is no blank.
pub fn from_word(line: &[u8]) -> &[u8]
    ensures { result.now ≡ from_word line.now }
{
    match word_start(line) {
        Some(start) => &line[start..],
        None => &[],
    }
}

// The line up to its last byte that is no blank.
fn to_word(line: &[u8]) -> &[u8]
    ensures { result.now ≡ to_word line.now }
{
    let mut kept = line;
    while let Some((last, prefix)) = kept.split_last() {
        if !is_blank(*last) {
            return kept;
        }
        kept = prefix;
    }
    kept
}
