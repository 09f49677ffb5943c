//! The letters of types and of qualifiers.

ghost use Rattle.do_sig.specs.Letters as letters;
ghost use Rattle.std.specs.Prelude.{◌≡◌, ◌||◌, MatchOption, false};

use crate::value_type::Scalar;

/// The type of a letter.
pub(crate) fn scalar_of(b: u8) -> Option<Scalar>
    ensures { MatchOption result (letters.is_letter b ≡ false) (letters.IsLetterOf b) }
{
    match b {
        b'c' => Some(Scalar::SignedChar),
        b's' => Some(Scalar::Short),
        b'i' => Some(Scalar::Int),
        b'l' => Some(Scalar::Long),
        b'q' => Some(Scalar::LongLong),
        b'C' => Some(Scalar::UnsignedChar),
        b'S' => Some(Scalar::UnsignedShort),
        b'I' => Some(Scalar::UnsignedInt),
        b'L' => Some(Scalar::UnsignedLong),
        b'Q' => Some(Scalar::UnsignedLongLong),
        b'B' => Some(Scalar::Boolean),
        b'*' => Some(Scalar::CString),
        b'@' => Some(Scalar::Object),
        b'#' => Some(Scalar::Class),
        b':' => Some(Scalar::Selector),
        _ => None,
    }
}

/// The letter of a type.
pub(crate) fn letter_of(scalar: Scalar) -> u8
    ensures { result ≡ letters.letter_of scalar }
{
    match scalar {
        Scalar::SignedChar => b'c',
        Scalar::Short => b's',
        Scalar::Int => b'i',
        Scalar::Long => b'l',
        Scalar::LongLong => b'q',
        Scalar::UnsignedChar => b'C',
        Scalar::UnsignedShort => b'S',
        Scalar::UnsignedInt => b'I',
        Scalar::UnsignedLong => b'L',
        Scalar::UnsignedLongLong => b'Q',
        Scalar::Boolean => b'B',
        Scalar::CString => b'*',
        Scalar::Object => b'@',
        Scalar::Class => b'#',
        Scalar::Selector => b':',
    }
}

/// Whether runtimes know a type that begins with a byte, which no other type may hold here.
pub(crate) fn is_unsupported(b: u8) -> bool
    ensures { result ≡ letters.is_unsupported b }
{
    matches!(
        b,
        b'f' | b'd' | b'D' | b'b' | b'(' | b'?' | b'j' | b'A' | b'v' | b'^'
    )
}

/// Whether a byte is the letter of a qualifier.
pub(crate) fn is_qualifier(b: u8) -> bool
    ensures { result ≡ letters.is_qualifier b }
{
    matches!(b, b'V' | b'r' | b'n' | b'N' | b'o' | b'O' | b'R')
}
