ghost use Rattle.std.specs.Prelude.{◌≡◌, ◌∷◌, ◌<◌, ◌≤◌, [], length, MatchOption, IfSome};
ghost use Rattle.do_grammar.specs.Words.{text_view};
ghost use Rattle.do_script.specs.Quoted.{quoted_size};
ghost use Rattle.do_script.specs.Words.{gap_size, plain_size, word_size, first_word, words};

use do_base::LONGEST_TEXT;
use do_grammar::skip_quoted;

/// How many bytes the text in quotes has that begins the bytes, or 0.
#[tactic(auto, unfolding(crate::specs::Quoted::quoted_size))]
fn quoted_len(bytes: &[u8]) -> usize
    ensures value { result ≡ quoted_size bytes.now }
    ensures within { result ≤ length bytes.now }
{
    match skip_quoted(bytes, LONGEST_TEXT) {
        Some(rest) => bytes.len().saturating_sub(rest.len()),
        None => 0,
    }
}

/// How many spaces stand in front.
fn gap_len(bytes: &[u8]) -> usize
    ensures value { result ≡ gap_size bytes.now }
    ensures within { result ≤ length bytes.now }
{
    bytes.iter().take_while(|b| **b == b' ').count()
}

/// How many bytes stand before the first space.
fn plain_len(bytes: &[u8]) -> usize
    ensures value { result ≡ plain_size bytes.now }
    ensures within { result ≤ length bytes.now }
{
    bytes.iter().take_while(|b| **b != b' ').count()
}

/// How many bytes the word has with which the bytes begin.
fn word_len(bytes: &[u8]) -> usize
    ensures value { result ≡ word_size bytes.now }
    ensures within { result ≤ length bytes.now }
{
    let quoted = quoted_len(bytes);
    quoted + plain_len(&bytes[quoted..])
}

/// The first word of a line and the bytes behind it; none where only spaces are left.
#[tactic(auto, using(crate::proofs::FirstWord::splits), unfolding(crate::specs::Words::first_word))]
pub(crate) fn split_word(line: &[u8]) -> Option<(&[u8], &[u8])>
    ensures first { text_view result ≡ first_word line.now }
    ensures words { MatchOption result (words line.now ≡ [])
        (λ w. words line.now ≡ w.0.now ∷ words w.1.now) }
    ensures shorter { IfSome result (λ w. length w.1.now < length line.now) }
{
    let bytes = &line[gap_len(line)..];
    if bytes.is_empty() {
        return None;
    }
    let len = word_len(bytes);
    Some((&bytes[..len], &bytes[len..]))
}

/// How many words a line has.
pub(crate) fn count_words(line: &[u8]) -> usize
    ensures { result ≡ length (words line.now) }
{
    let mut count = 0;
    let mut rest = line;
    while let Some((_, more)) = split_word(rest) {
        count += 1;
        rest = more;
    }
    count
}
