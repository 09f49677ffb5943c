//! When a poll reads on for a while before it sleeps.
//!
//! A poll that finds nothing waits for a socket for a bounded time, so that a node with nothing
//! to do takes no processor. A count of turns is then a clock too: a million turns of silence
//! last some minutes.
//!
//! A poll that finds nothing reads the peer that was heard or sent to last, for 50 µs, before
//! it waits for all sockets. A waiter that is woken costs 10 to 20 µs, more than a call's
//! answer takes. It does so only after a wait that ended within 50 µs with something; where it
//! read on for nothing, after 2, 4 .. 1,024 such waits. So a node to which nothing comes
//! sleeps, and nodes that share a processor lose little (0.4 to 2.8 µs of 45 in a model in C).
//! Every eighth time it looks at all sockets first, so that two that call each other keep no
//! third out.
ghost use Rattle.std.specs.Prelude.{◌≡◌, ◌<◌, ◌≤◌, false, true};

/// How many quick waits a poll may ask for before it reads on again.
const MOST_ASKED: u32 = 1_024;

/// How often in a row a poll reads on before it looks at all sockets again.
const MOST_IN_A_ROW: u32 = 8;

/// After how many times in a row that something came a poll asks for fewer quick waits.
const TRUSTED: u32 = 64;

/// Whether a poll that finds nothing reads on for a while before it sleeps.
///
/// It does once a wait was quick, which shows that an answer comes sooner than a sleeper wakes.
/// Each time that it read on for nothing it asks for twice as many quick waits first. So a node
/// whose peers are slow, or have no processor of their own, sleeps.
#[derive(Clone, Copy)]
pub struct Spinning {
    /// How many quick waits it asks for after it read on for nothing.
    asked: u32,
    /// How many it still asks for.
    left: u32,
    /// How often something came since it last read on for nothing, or asked for fewer.
    trusted: u32,
    /// How often something came since all sockets were looked at.
    row: u32,
}

impl Spinning {
    /// Before the first poll: it sleeps.
    pub fn new() -> Self
        ensures { 0 < result.left }
    {
        Spinning {
            asked: 1,
            left: 1,
            trusted: 0,
            row: 0,
        }
    }

    /// Whether to read on before the next sleep.
    pub fn is_due(&self) -> bool
        ensures { 0 < self.now.left → result ≡ false }
    {
        self.left == 0
    }

    /// Whether to look at all sockets before it reads on.
    pub fn is_to_look(&self) -> bool
        ensures { 8 ≤ self.now.row → result ≡ true }
    {
        self.row >= MOST_IN_A_ROW
    }

    /// All sockets were looked at.
    pub fn looked(&mut self) {
        self.row = 0;
    }

    /// It read on, and something came, or nothing; then it sleeps next.
    pub fn read_on(&mut self, came: bool)
        ensures missed { came ≡ false → 0 < self.new.left }
    {
        if came {
            self.row = self.row.saturating_add(1);
            self.trusted = self.trusted.saturating_add(1);
            if self.trusted >= TRUSTED {
                self.trusted = 0;
                self.asked /= 2;
            }
        } else {
            self.trusted = 0;
            self.asked = self.asked.saturating_mul(2).clamp(2, MOST_ASKED);
            self.left = self.asked;
        }
    }

    /// A sleep ended; it was quick where something came soon. After another it sleeps again.
    pub fn slept(&mut self, is_quick: bool)
        ensures slow { is_quick ≡ false → 0 < self.new.left }
    {
        if is_quick {
            self.left = self.left.saturating_sub(1);
        } else {
            self.left = self.left.max(1);
        }
    }
}
