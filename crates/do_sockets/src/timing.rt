//! Times that end.
use std::time::{Clock, Duration, Instant};

/// A moment after which a wait is given up.
#[derive(Clone, Copy)]
pub struct Deadline {
    /// When the time began. None where the system told no time.
    began: Option<Instant>,
    most: Duration,
}

impl Deadline {
    /// The moment this many microseconds from now.
    pub fn after(clock: &impl Clock, micros: u64) -> Deadline {
        Deadline {
            began: Instant::now(clock).ok(),
            most: Duration::from_micros(micros),
        }
    }

    /// Whether the moment has passed. Where the system tells no time it has.
    pub fn has_passed(&self, clock: &impl Clock) -> bool {
        match self.began.map(|began| began.elapsed(clock)) {
            Some(Ok(time)) => time >= self.most,
            _ => true,
        }
    }
}
