ghost use Rattle.std.specs.Prelude.{◌≡◌, ◌<◌, [], ◌∷◌, ◌++◌, length, MatchOption, IfSome};
ghost use Rattle.std.specs.Str.{bytes_eq};
ghost use Rattle.do_grammar.specs.{Words.{Without, EndsBefore}, Lines.cut};

/// The bytes before the first byte `end`, and those after it; none where `end` stands nowhere.
///
/// The form is this project's own. Bytes of any length are read, and no memory is taken.
#[tactic(auto, using(crate::proofs::loops::WordLoop::word_facts))]
pub fn word_of(bytes: &[u8], end: u8) -> Option<(&[u8], &[u8])>
    ensures parts { MatchOption result (Without end bytes.now)
        (λ w. bytes.now ≡ w.0.now ++ end ∷ w.1.now) }
    ensures first { IfSome result (λ w. Without end w.0.now) }
{
    for n in 0..bytes.len() {
        if bytes[n] == end {
            return Some((&bytes[..n], &bytes[n + 1..]));
        }
    }
    None
}

/// The bytes before the first byte `end`, and those from it on; where `end` stands nowhere all
/// the bytes and none.
///
/// The form is this project's own. Bytes of any length are read, and no memory is taken.
#[tactic(auto, using(crate::proofs::loops::WordLoop::word_facts))]
pub fn part_of(bytes: &[u8], end: u8) -> (&[u8], &[u8])
    ensures parts { bytes.now ≡ result.0.now ++ result.1.now }
    ensures before { Without end result.0.now }
    ensures after { EndsBefore end result.1.now }
{
    for n in 0..bytes.len() {
        if bytes[n] == end {
            return (&bytes[..n], &bytes[n..]);
        }
    }
    (bytes, &[])
}

/// The first line of a text without its line feed, whether it has one, and the bytes after it;
/// none where the text is empty.
///
/// A line feed is the byte 10, and only a text's last line may have none. The form is this
/// project's own. A line of any length is read, and no memory is taken.
#[tactic(auto, using(crate::proofs::texts::FirstLine::first_line_facts))]
pub fn line_of(bytes: &[u8]) -> Option<(&[u8], bool, &[u8])>
    ensures line { MatchOption result (cut bytes.now ≡ [])
        (λ l. cut bytes.now ≡ record { text = l.0.now; fed = l.1 } ∷ cut l.2.now) }
    ensures shorter { IfSome result (λ l. length l.2.now < length bytes.now) }
{
    if bytes.is_empty() {
        return None;
    }
    match word_of(bytes, b'\n') {
        Some((text, rest)) => Some((text, true, rest)),
        None => Some((bytes, false, &[])),
    }
}

/// Whether two texts are equal, byte by byte.
pub fn is_text(a: &[u8], b: &[u8]) -> bool
    ensures { result ≡ bytes_eq a.now b.now }
{
    a == b
}
