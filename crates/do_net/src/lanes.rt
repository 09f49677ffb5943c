//! The lanes of a site.
ghost use Rattle.std.specs.{Prelude.{◌≡◌, ◌==◌, IfOk, OnOk, find, length}, Option.option_copied};
ghost use Rattle.std.specs.List.{list_all, Sorted.IsNonDecreasingBy};
ghost use Rattle.do_network.specs.Net.{change_channel};
ghost use Rattle.do_net.specs.Lanes.{ChannelsAdvance, ChannelsLose, laden};

use crate::lane::{Kept, Lane};
use do_base::{Items, NodeId};
use do_network::Wire;
use do_ported::place_of;
use std::alloc::{AllocError, Global};
use std::marker::Model;

/// Lanes by rising peer, which contracts see as channels.
#[derive(Drop)]
pub struct Lanes {
    lanes: Items<Lane>,
}

impl Model for Lanes {
    ghost use Rattle.std.specs.{Prelude.List, List.Sorted.IsNonDecreasingBy};
    ghost use Rattle.do_network.specs.Net.{Channel};

    ghost Value = { List Channel };

    ghost view = { λ l. l.lanes };

    ghost invariant = { λ l. IsNonDecreasingBy (λ c. c.to) l.lanes };
}

impl Lanes {
    /// Lanes that stand by rising peer.
    pub fn new(lanes: Items<Lane>) -> Lanes
        requires { IsNonDecreasingBy (λ c. c.to) lanes }
        ensures { result ≡ lanes }
    {
        Lanes { lanes }
    }

    /// The allocator that the list was made with.
    pub fn allocator(&self) -> Global {
        self.lanes.allocator()
    }

    /// Puts what was sent into the lane to its peer; where there is none it is dropped.
    #[tactic(auto, using(do_machine::proofs::FirstPlace::first_set))]
    pub fn carry(&mut self, wire: &Wire) -> Result<(), AllocError>
        ensures { OnOk result
            (self.new ≡ change_channel wire.now.to (laden wire.now.bytes) self.old) }
    {
        let Some(at) = place_of(&self.lanes, wire.to) else {
            return Ok(());
        };
        self.lanes.at_mut(at).carry(&wire.bytes)
    }

    /// Takes out the oldest of what stands in the lane to a peer. None exactly where nothing does,
    /// or there is no lane.
    pub fn advance(&mut self, to: NodeId) -> Option<Kept>
        ensures { ChannelsAdvance self.old self.new to result }
    {
        match place_of(&self.lanes, to) {
            Some(at) => self.lanes.at_mut(at).advance(),
            None => None,
        }
    }

    /// Puts the mark of a loss behind so many of what stands in the lane to a peer. False exactly
    /// where fewer stand in it, or there is no lane.
    pub fn lose(&mut self, to: NodeId, after: u64) -> Result<bool, AllocError>
        ensures { IfOk result (λ told. ChannelsLose self.old self.new to after told) }
    {
        match place_of(&self.lanes, to) {
            Some(at) => self.lanes.at_mut(at).lose(after),
            None => Ok(false),
        }
    }

    /// The lane to a peer. None exactly where there is none.
    pub fn to(&self, to: NodeId) -> Option<&Lane>
        ensures { option_copied result ≡ find (λ c. to == c.to) self.now }
    {
        match place_of(&self.lanes, to) {
            Some(at) => self.lanes.get(at),
            None => None,
        }
    }

    /// Whether nothing stands in them.
    pub(crate) fn are_empty(&self) -> bool
        ensures { result ≡ list_all (λ c. length c.waiting == 0) self.now }
    {
        self.lanes.as_slice().iter().all(|lane| lane.is_empty())
    }
}
