//! Types that may stand within others: reading, printing, and which values fit.
pub(crate) mod count;
pub(crate) mod fitting;
pub(crate) mod name;
pub(crate) mod nested;
pub(crate) mod spelling;
