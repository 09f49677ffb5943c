//! What a part tells.
ghost use Rattle.std.specs.FinMap as map;
ghost use Rattle.std.specs.Prelude.{◌≡◌, ◌-◌, ◌^◌, ◌<◌, ◌≤◌, ℕ, nat_lt, true, None, Some};
ghost use Rattle.std.specs.Prelude.{MatchOption, length, slice_get, IsSome, IfOk, map as each};
ghost use Rattle.std.specs.Option.{option_copied};
ghost use Rattle.do_export.specs.Counts.{count_of};
ghost use Rattle.do_machine.specs.{Lists.IsIn, declared.node.Stored.Stored, State.is_known};
ghost use Rattle.do_machine.specs.{State.{is_open, own, stored}, take.Take.{can_serve, can_take}};
ghost use Rattle.do_part.specs.Names.{heap_of, stack_of, AreStored};

use super::Part;
use do_base::{NodeId, Oid, Oids, Peers, Values};
use do_behave::{InvState, Invocation};
use do_class::ClassId;
use std::alloc::{AllocError, Global};

impl Part {
    /// Where what is read of the part takes its memory.
    pub fn allocator(&self) -> Global {
        self.ends.list().allocator()
    }

    /// The node's port.
    pub fn port(&self) -> NodeId
        ensures { result ≡ self.now.own.node.port }
    {
        self.holders.node
    }

    /// The peers to which the ends are open.
    pub fn ends(&self) -> &Peers
        ensures { result.now ≡ self.now.own.node.open_to }
    {
        self.ends.list()
    }

    /// No more than 64 ends are open.
    pub fn ends_are_few(&self)
        ensures { length self.now.own.node.open_to ≤ 64 }
    {
        let _node = self.holders.node;
    }

    /// Whether the end towards a peer is open.
    pub fn is_open(&self, peer: NodeId) -> bool
        ensures { result ≡ is_open self.now.own.node peer }
    {
        self.ends.has(peer)
    }

    /// The serial of the root.
    pub fn root(&self) -> Option<u64>
        ensures { result ≡ self.now.own.node.root }
    {
        self.root
    }

    /// How many invocations there are, 256 at most.
    pub fn depth(&self) -> usize
        ensures value { result ≡ length self.now.own.node.stack }
        ensures most { result ≤ 256 }
    {
        self.stack.depth()
    }

    /// The top invocation. None exactly where there is none.
    pub fn top(&self) -> Option<&Invocation>
        ensures { option_copied result ≡ slice_get self.now.own.node.stack 0 }
    {
        self.stack.top()
    }

    /// The k-th invocation from the bottom, counted from 0. None exactly where k is the depth or
    /// more.
    pub fn at(&self, k: usize) -> Option<&Invocation>
        ensures within { k < length self.now.own.node.stack → option_copied result
            ≡ slice_get self.now.own.node.stack (length self.now.own.node.stack - 1 - k) }
        ensures none { length self.now.own.node.stack ≤ k → result ≡ None }
    {
        self.stack.at(k)
    }

    /// The class and the slots of an own object. None exactly where it is not stored.
    pub fn object(&self, serial: u64) -> Option<(ClassId, &Values)>
        ensures { MatchOption result (stored serial self.now.own.node.heap ≡ None)
            (λ p. stored serial self.now.own.node.heap
            ≡ Some (record { serial = serial; class = p.0; slots = p.1.now })) }
    {
        let node = self.holders.node;
        self.holders.store.get(Oid { node, serial })
    }

    /// The class of a foreign object that was received or asked for. None exactly where it was
    /// neither.
    pub fn class_of(&self, oid: Oid) -> Option<ClassId>
        ensures { result ≡ map.get self.now.own.classes (oid.node, oid.serial) }
    {
        self.holders.imports.class_of(oid)
    }

    /// Whether the node may use a foreign object: it holds it, or has asked for it. Then its class
    /// is kept.
    pub fn is_known(&self, oid: &Oid) -> bool
        ensures known { result ≡ is_known self.now.own.node oid.now }
        ensures class { result
            ≡ map.contains_key self.now.own.classes (oid.now.node, oid.now.serial) }
    {
        let _asks = self.holders.imports.asks(*oid);
        self.holders.imports.class_of(*oid).is_some()
    }

    /// An upper bound of how many objects are stored, which is about twice as many at most.
    pub fn objects(&self) -> u64
        ensures { length self.now.own.node.heap ≤ result }
    {
        self.holders.store.bound()
    }

    /// How many foreign objects the node holds.
    pub fn holdings(&self) -> u64
        ensures { result ≡ length self.now.own.node.held }
    {
        self.holders.imports.len()
    }

    /// The names of the stored objects, by rising serial.
    pub fn stored(&self) -> Result<Oids, AllocError>
        ensures { IfOk result (λ oids. oids
            ≡ each (λ x. own self.now.own.node x.serial) self.now.own.node.heap) }
    {
        self.holders.store.stored()
    }

    /// Whether a peer has an entry of an own object. Each entry counts something.
    pub fn has_entry(&self, peer: NodeId, serial: u64) -> bool
        ensures which { result ≡ map.contains_key self.now.own.counts (peer, serial) }
        ensures counts { (peer serial : ℕ) → map.contains_key self.now.own.counts (peer, serial)
            ≡ nat_lt 0 (count_of self.now.own.counts peer serial) }
    {
        let _many = self.exports.len();
        self.exports.has(peer, serial)
    }

    /// How many names of an own object a peer was sent and has not given back.
    pub fn count(&self, peer: NodeId, serial: u64) -> u64
        ensures { result ≡ count_of self.now.own.counts peer serial }
    {
        self.exports.count(peer, serial)
    }

    /// How many names of a foreign object were received and not given back.
    pub fn received(&self, oid: Oid) -> u64
        ensures { result ≡ count_of self.now.own.received oid.node oid.serial }
    {
        self.holders.imports.received(oid)
    }

    /// The serial that the next object gets. No object is stored under it, or a later one, and no
    /// more objects fit than there are serials.
    pub fn next_serial(&self) -> u64
        ensures next { result ≡ self.now.own.node.next_serial }
        ensures free { (serial : ℕ) → self.now.own.node.next_serial ≤ serial
            → stored serial self.now.own.node.heap ≡ None }
        ensures room { self.now.room.objects ≤ 2 ^ 63 - self.now.own.node.next_serial }
    {
        self.holders.store.next_serial()
    }

    /// The number that the next call gets.
    pub fn next_call(&self) -> u64
        ensures { result ≡ self.now.own.node.next_call }
    {
        self.next_call
    }

    /// The number that the next lend gets.
    pub fn next_token(&self) -> u64
        ensures { result ≡ self.now.own.node.next_token }
    {
        self.holders.imports.next_token()
    }

    /// Each own object that slots or invocations name is stored, and so are the root and the
    /// objects of the entries of peers to which the end is open.
    pub(crate) fn names_are_stored(&self)
        ensures slots { AreStored self.now.own.node (heap_of self.now.own.node.heap) }
        ensures stack { AreStored self.now.own.node (stack_of self.now.own.node.stack) }
        ensures root { (serial : ℕ) → self.now.own.node.root ≡ Some serial
            → IsSome (stored serial self.now.own.node.heap) }
        ensures entries { (peer serial : ℕ) → is_open self.now.own.node peer ≡ true
            → 0 < count_of self.now.own.counts peer serial
            → IsSome (stored serial self.now.own.node.heap) }
    {
        let _node = self.holders.node;
    }

    /// Each stored object is the one that is stored under its serial.
    pub fn serials_are_apart(&self)
        ensures { (x : Stored) → IsIn self.now.own.node.heap x
            → stored x.serial self.now.own.node.heap ≡ Some x }
    {
        let _node = self.holders.node;
    }

    /// Whether the node can take what peers send: it has no invocation, or the top one waits.
    pub fn can_serve(&self) -> bool
        ensures { result ≡ can_serve self.now.own.node.stack }
    {
        match self.stack.top() {
            None => true,
            Some(top) => matches!(&top.state, InvState::Waits { .. }),
        }
    }

    /// Whether the node can take what a peer sent.
    pub fn can_take(&self, peer: NodeId) -> bool
        ensures { result ≡ can_take peer self.now.own.node }
    {
        self.is_open(peer) && self.can_serve()
    }
}
