ghost use Rattle.std.specs.{Prelude.◌≡◌, List.list_all, Io.BufRead.ends_with_byte};
ghost use Rattle.do_grammar.specs.Names.{begins_name, goes_in_name, goes_in_selector, colons};
ghost use Rattle.do_grammar.specs.Names.{is_name, is_selector};

/// Whether the bytes are a name: a letter or `_`, then letters, digits and `_`, at most 64 bytes.
///
/// Letters are those of ASCII. The form is this project's own.
#[tactic(auto, unfolding(crate::specs::Names::is_name))]
pub fn is_name(bytes: &[u8]) -> bool
    ensures { result ≡ is_name bytes.now }
{
    begins(bytes) && has_name_bytes(bytes) && bytes.len() <= 64
}

/// Whether the bytes are a selector: they begin as a name does, have letters, digits, `_` and
/// `:`, at most 255 bytes and 8 colons, and end with a colon if they have one.
///
/// The form follows "Working with Selectors" in Apple's Objective-C documentation; the limits are
/// this project's own.
#[tactic(auto, unfolding(crate::specs::Names::is_selector))]
pub fn is_selector(bytes: &[u8]) -> bool
    ensures { result ≡ is_selector bytes.now }
{
    let colons = colons_in(bytes);
    begins(bytes)
        && has_selector_bytes(bytes)
        && bytes.len() <= 255
        && colons <= 8
        && (colons == 0 || ends_in_colon(bytes))
}

fn begins(bytes: &[u8]) -> bool
    ensures { result ≡ begins_name bytes.now }
{
    match bytes {
        [first, ..] => first.is_ascii_alphabetic() || *first == b'_',
        [] => false,
    }
}

fn goes_in_name(byte: u8) -> bool
    ensures { result ≡ goes_in_name byte }
{
    byte.is_ascii_alphanumeric() || byte == b'_'
}

fn goes_in_selector(byte: u8) -> bool
    ensures { result ≡ goes_in_selector byte }
{
    goes_in_name(byte) || byte == b':'
}

fn has_name_bytes(bytes: &[u8]) -> bool
    ensures { result ≡ list_all goes_in_name bytes.now }
{
    bytes.iter().all(|b| goes_in_name(*b))
}

fn has_selector_bytes(bytes: &[u8]) -> bool
    ensures { result ≡ list_all goes_in_selector bytes.now }
{
    bytes.iter().all(|b| goes_in_selector(*b))
}

fn ends_in_colon(bytes: &[u8]) -> bool
    ensures { result ≡ ends_with_byte 58 bytes.now }
{
    match bytes {
        [.., last] => *last == b':',
        [] => false,
    }
}

/// The number of colons, which is the number of a selector's arguments.
///
/// The form of selectors is that of `is_selector`; here any bytes are counted.
pub fn colons_in(bytes: &[u8]) -> usize
    ensures { result ≡ colons bytes.now }
{
    bytes.iter().filter(|b| **b == b':').count()
}
