//! Outermost types with their qualifiers: reading, printing, and which values fit.
pub(crate) mod fitting;
pub(crate) mod marks;
pub(crate) mod offset;
pub(crate) mod place;
pub(crate) mod spelling;
pub(crate) mod whole;
