//! A site of a network with what is under way from it.
ghost use Rattle.std.specs.Prelude.{◌≡◌, ◌++◌, ◌==◌, [], IfOk, OnOk, find, length, map, ℕ};
ghost use Rattle.std.specs.{Option.option_copied, List.{list_all, AllByRecursion}};
ghost use Rattle.do_machine.specs.{State.is_open, take.Take.can_take};
ghost use Rattle.do_network.specs.{Site.Handled, Snapshot.part_line, Spelled.SentSpelled};
ghost use Rattle.do_network.specs.Step.{wire_of};
ghost use Rattle.do_net.specs.{Seen.{FetchesSpelled, IsSpelledBy, site_handled}, Hosts.FetchesWire};
ghost use Rattle.do_net.specs.Hosts.{HasFetched, HostAdvances, HostLoses, forwarded, hosting};
ghost use Rattle.do_net.specs.{Hosts.{hosting_after, outcome_of, was_enabled}, Lanes.IsSent};

use crate::hosted::Hosted;
use crate::lane::{Kept, Lane};
use crate::lanes::Lanes;
use do_base::{NodeId, Reserved, ShownList, Text};
use do_machine::{NodeLine, Outcome};
use do_network::{Done, Input, Wire};
use do_ported::Ported;
use std::alloc::AllocError;

/// A site, with its lanes by rising peer.
#[derive(Drop)]
pub struct Host<S> {
    port: NodeId,
    site: S,
    lanes: Lanes,
}

/// Whether an input that came to this was enabled.
fn was_enabled(done: Done) -> bool
    ensures { result ≡ was_enabled done }
{
    match done {
        Done::Skipped => false,
        Done::Moved => true,
        Done::Closed(_, _) => true,
    }
}

/// Fetches what a site showed, the oldest first, behind what was shown before.
fn fetch_shown<S: Hosted>(site: &mut S, shown: &mut ShownList) -> Result<(), AllocError>
    ensures site { OnOk result (S.seen site.new ≡ record (S.seen site.old) { shown = [] }) }
    ensures shown { OnOk result (shown.new ≡ shown.old ++ (S.seen site.old).shown) }
{
    while let Some(line) = site.next_shown() {
        shown.push(line)?;
    }
    Ok(())
}

impl<S: Hosted> Host<S> {
    /// A site with its lanes.
    pub fn new(port: NodeId, site: S, lanes: Lanes) -> Host<S>
        ensures { result ≡ record { port = port; site = site; lanes = lanes } }
    {
        Host { port, site, lanes }
    }

    /// Fetches the oldest that the site sent, as what goes over the wire. None exactly where all
    /// was fetched.
    fn fetch_sent(&mut self) -> Result<Option<Wire>, AllocError>
        ensures wire { IfOk result (λ wire.
            FetchesWire (hosting S.seen self.old) (hosting S.seen self.new) wire) }
        ensures spelled { IfOk result (λ wire.
            FetchesSpelled (S.seen self.old.site) (S.seen self.new.site) wire) }
        ensures port { self.new.port ≡ self.old.port }
    {
        let mut bytes = Text::new(self.lanes.allocator());
        let Some(to) = self.site.next_frame(&mut bytes)? else {
            return Ok(None);
        };
        let from = self.port;
        Ok(Some(Wire { from, to, bytes }))
    }

    /// Fetches all that the site sent: each goes into its lane, and behind the wires.
    fn forward(&mut self, wires: &mut Reserved<Wire>) -> Result<(), AllocError>
        requires { AllByRecursion IsSent (S.seen self.old.site).frames }
        ensures host { OnOk result
            (hosting S.seen self.new ≡ forwarded (hosting S.seen self.old)) }
        ensures wires { OnOk result (wires.new.items ≡ wires.old.items
            ++ map (wire_of self.old.port) (S.seen self.old.site).frames) }
        ensures spelled { OnOk result
            (AllByRecursion (IsSpelledBy (S.seen self.old.site)) (S.seen self.old.site).frames) }
        ensures port { self.new.port ≡ self.old.port }
    {
        while let Some(wire) = self.fetch_sent()? {
            self.lanes.carry(&wire)?;
            wires.reserve(1)?;
            wires.post(wire);
        }
        Ok(())
    }

    /// Hands the site an input, and fetches what it then shows and sends. What is sent goes into
    /// its lanes and behind the wires.
    #[inline(always)]
    pub fn hand(&mut self, input: &Input, wires: &mut Reserved<Wire>) -> Result<Outcome, AllocError>
        requires { HasFetched (hosting S.seen self.old) }
        ensures outcome { IfOk result (λ outcome.
            outcome ≡ outcome_of (site_handled (S.seen self.old.site) input.now)) }
        ensures host { OnOk result (hosting S.seen self.new ≡ hosting_after
            (hosting S.seen self.old) (site_handled (S.seen self.old.site) input.now)) }
        ensures wires { OnOk result (wires.new.items ≡ wires.old.items
            ++ map (wire_of self.old.port) (site_handled (S.seen self.old.site) input.now).sent) }
        ensures spelled { OnOk result (SentSpelled (S.seen self.old.site).table
            (site_handled (S.seen self.old.site) input.now)) }
        ensures port { self.new.port ≡ self.old.port }
    {
        let done = self.site.handle(input)?;
        let mut shown = ShownList::new(self.lanes.allocator());
        fetch_shown(&mut self.site, &mut shown)?;
        self.forward(wires)?;
        let enabled = was_enabled(done);
        Ok(Outcome { enabled, shown })
    }

    /// The site.
    pub fn site(&self) -> &S
        ensures { result.now ≡ self.now.site }
    {
        &self.site
    }

    /// The lane to a peer. None exactly where there is none.
    pub fn lane(&self, to: NodeId) -> Option<&Lane>
        ensures { option_copied result ≡ find (λ c. to == c.to) self.now.lanes }
    {
        self.lanes.to(to)
    }

    /// Whether the site can take a frame of a peer.
    pub fn can_take(&self, from: NodeId) -> bool
        ensures { result ≡ can_take from (S.seen self.now.site).part.own.node }
    {
        self.site.can_take(from)
    }

    /// Whether the end of the site towards a peer is open.
    pub fn is_open(&self, peer: NodeId) -> bool
        ensures { result ≡ is_open (S.seen self.now.site).part.own.node peer }
    {
        self.site.is_open(peer)
    }

    /// The site, as a check lists it.
    pub fn snapshot(&self) -> Result<NodeLine, AllocError>
        ensures { IfOk result (λ line. line ≡ part_line (S.seen self.now.site).part) }
    {
        self.site.snapshot()
    }

    /// Takes out the oldest of what stands in the lane to a peer. None exactly where nothing does,
    /// or there is no lane.
    pub fn advance(&mut self, to: NodeId) -> Option<Kept>
        ensures kept { HostAdvances (hosting S.seen self.old) (hosting S.seen self.new) to result }
        ensures port { self.new.port ≡ self.old.port }
    {
        self.lanes.advance(to)
    }

    /// Puts the mark of a loss behind so many of what stands in the lane to a peer. False exactly
    /// where fewer stand in it, or there is no lane.
    pub fn lose(&mut self, to: NodeId, after: u64) -> Result<bool, AllocError>
        ensures told { IfOk result (λ told.
            HostLoses (hosting S.seen self.old) (hosting S.seen self.new) to after told) }
        ensures port { self.new.port ≡ self.old.port }
    {
        self.lanes.lose(to, after)
    }

    /// Whether nothing stands in its lanes.
    pub fn is_quiet(&self) -> bool
        ensures { result ≡ list_all (λ c. length c.waiting == 0) self.now.lanes }
    {
        self.lanes.are_empty()
    }
}

impl<S> Ported for Host<S> {
    ghost port = { λ h. h.port };

    fn port(&self) -> NodeId {
        self.port
    }
}
