use do_base::{Items, Text};
use sqlite_items::Boxed;

/// A type that is made of no other types.
///
/// Letters are those of Apple's "Type Encodings". The width of `l` and `L`, and that values of `L`
/// and `Q` end at 2^63 - 1, are this project's own.
#[derive(Clone, Copy, Debug)]
pub enum Scalar {
    /// `c`, 8 bits.
    SignedChar,
    /// `s`, 16 bits.
    Short,
    /// `i`, 32 bits.
    Int,
    /// `l`, 64 bits.
    Long,
    /// `q`, 64 bits.
    LongLong,
    /// `C`, 8 bits.
    UnsignedChar,
    /// `S`, 16 bits.
    UnsignedShort,
    /// `I`, 32 bits.
    UnsignedInt,
    /// `L`, 64 bits, of which values use 63.
    UnsignedLong,
    /// `Q`, 64 bits, of which values use 63.
    UnsignedLongLong,
    /// `B`, 0 or 1.
    Boolean,
    /// `*`, a text without a zero byte.
    CString,
    /// `@`, any value.
    Object,
    /// `#`, the name of a class.
    Class,
    /// `:`, a selector.
    Selector,
}

/// A type, which may hold others.
///
/// In what is read at most eight types are open at once, the pointer around them included. Nothing
/// limits a type that is made by hand, and calls go as deep as it nests.
#[derive(Debug, Drop)]
pub enum ValueType {
    /// A type by itself.
    Simple(Scalar),
    /// `[count type]`: a list of that many values of one type.
    Array(u16, Boxed<ValueType>),
    /// `{name=types}`: a list of one value for each type.
    Structure(Text, Items<ValueType>),
}

/// A type as it may stand outermost.
///
/// Apple's runtimes have `v` and `^` within other types too; this profile has not.
#[derive(Debug, Drop)]
pub enum OutermostType {
    /// `v`, which a result alone may have.
    Void,
    /// `^` and the type that is pointed to.
    Pointer(ValueType),
    /// Any other type.
    Plain(ValueType),
}
