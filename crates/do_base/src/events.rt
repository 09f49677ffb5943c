//! Exceptions, the steps of a schedule, and what a step shows.
pub mod event;
pub mod exception;
pub mod shown;
