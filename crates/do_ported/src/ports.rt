//! Ports in a list.
ghost use Rattle.std.specs.Prelude.{◌≡◌, ◌==◌, ◌<◌, IfSome, IsTrue, length, position};
ghost use Rattle.std.specs.List.{list_any, remove, Sorted.IsNonDecreasing};

use crate::rising::place_of;
use do_base::{NodeId, Peers};
use std::marker::Model;

/// Ports in the order in which they were given, with whether they rise.
///
/// Contracts see the list of the ports. Where it rises a port is found in steps as the logarithm of
/// how many there are; any other list is walked.
#[derive(Drop)]
pub struct Ports {
    listed: Peers,
    rise: bool,
}

impl Model for Ports {
    ghost use Rattle.std.specs.{Prelude.{◌≡◌, List, true, ℕ}, List.Sorted.IsNonDecreasing};

    ghost Value = { List ℕ };

    ghost view = { λ p. p.listed };

    ghost invariant = { λ p. p.rise ≡ true → IsNonDecreasing p.listed };
}

/// Whether ports rise.
fn do_rise(ports: &[NodeId]) -> bool
    ensures { IsTrue result → IsNonDecreasing ports.now }
{
    ports.is_sorted()
}

impl Ports {
    /// These ports.
    pub fn new(listed: Peers) -> Ports
        ensures { result ≡ listed }
    {
        let rise = do_rise(listed.as_slice());
        Ports { listed, rise }
    }

    /// The ports, to be read.
    pub fn list(&self) -> &Peers
        ensures { result.now ≡ self.now }
    {
        &self.listed
    }

    /// Where a port stands first. None exactly where it is none of them.
    pub fn place(&self, port: NodeId) -> Option<usize>
        ensures index { result ≡ position (λ p. port == p) self.now }
        ensures within { IfSome result (λ at. at < length self.now) }
    {
        if self.rise {
            place_of(&self.listed, port)
        } else {
            self.listed
                .as_slice()
                .iter()
                .position(|other| port == *other)
        }
    }

    /// Whether a port is one of them.
    pub fn has(&self, port: NodeId) -> bool
        ensures { result ≡ list_any (λ p. p == port) self.now }
    {
        self.place(port).is_some()
    }

    /// Takes out the port at a place.
    pub fn remove(&mut self, at: usize)
        requires { at < length self.old }
        ensures { self.new ≡ remove self.old at }
    {
        self.listed.remove(at);
    }
}
