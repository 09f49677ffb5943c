//! Values: what objects keep and messages carry.
pub mod kinds;
pub mod text;
pub mod value;
