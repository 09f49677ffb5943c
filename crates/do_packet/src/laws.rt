ghost use Rattle.std.specs.Prelude.{◌≡◌, ◌<◌, ◌≤◌, ℕ, Bool, List, Ok, length, map};
ghost use Rattle.std.specs.List.{IsDistinct};
ghost use Rattle.do_base.specs.names.Names.{ObjectName};
ghost use Rattle.do_base.specs.declared.values.value.Value.TheVariants.{Obj};
ghost use Rattle.do_class.specs.declared.packet.Packet.{Packet};
ghost use Rattle.do_packet.specs.Copies.{Placed, IsCopies, copies_of, grown, most_copies};
ghost use Rattle.do_packet.specs.{Copies.names_with, Met.same_object, Naming.object_named};
ghost use Rattle.do_packet.specs.{Packing.{names_to, packed}, RoundTrip.{AllTrue, ArePlaced}};
ghost use Rattle.do_packet.specs.{RoundTrip.{meant, renamed_message}, Seen.Sender};
ghost use Rattle.do_packet.specs.{Unpacking.unpacked, declared.receipt.Receipt.Receipt};

/// The copies of a message are the shortest list that is its own list of copied objects; where they
/// are too many, each list that is its own is too long.
pub fn copies_are_least()
    ensures least { (s : Sender) (values : List Placed) →
        length (copies_of s values) ≤ most_copies → IsCopies s values (copies_of s values) }
    ensures many { (s : Sender) (values : List Placed) →
        most_copies < length (copies_of s values) →
        (other : List ObjectName) → grown s values other ≡ other → most_copies < length other }
{}

/// An object is listed once at most among those that a message copies, and once among those that it
/// names.
pub fn objects_stand_once()
    ensures copied { (s : Sender) (values : List Placed) (copies : List ObjectName) →
        IsDistinct same_object (grown s values copies) }
    ensures named { (s : Sender) (values : List Placed) (copies : List ObjectName) →
        IsDistinct same_object (names_with s values copies) }
{}

/// The names of a message name the objects that they were made for, in order.
pub fn names_name_their_objects()
    ensures { (s : Sender) (to token : ℕ) (os : List ObjectName) →
        map (object_named s.node to) (names_to s to token os) ≡ os }
{}

/// What is unpacked from what was packed is what was sent, with each copy renamed.
///
/// An object has one new name wherever it stands, and no two copies have the same, so that sharing
/// and cycles are kept. Where the receiver has an entry for each of its objects that is named, and
/// the end towards each other home is open, a name stays the object that it names. Where it has
/// not, that name becomes nil, and all else is the same.
pub fn values_return()
    ensures same { (s : Sender) (token : ℕ) (values : List Placed) (p : Packet) (r : Receipt)
        (entries open_home : List Bool) →
        packed s r.to token values ≡ Ok p → r.from ≡ s.node → r.copies ≡ length p.copies →
        length entries ≡ length p.names → length open_home ≡ length p.names →
        AllTrue entries → AllTrue open_home →
        unpacked r entries open_home p
        ≡ renamed_message s r values (copies_of s values) (λ o. Obj o) }
    ensures closed { (s : Sender) (token : ℕ) (values : List Placed) (p : Packet) (r : Receipt)
        (entries open_home : List Bool) →
        packed s r.to token values ≡ Ok p → r.from ≡ s.node → r.copies ≡ length p.copies →
        length entries ≡ length p.names → length open_home ≡ length p.names →
        unpacked r entries open_home p
        ≡ renamed_message s r values (copies_of s values)
        (meant s r (names_with s values (copies_of s values)) entries open_home) }
    ensures apart { (s : Sender) (values : List Placed) → ArePlaced (copies_of s values) }
{}
