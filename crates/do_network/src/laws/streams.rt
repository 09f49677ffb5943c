ghost use Rattle.std.specs.Prelude.{◌≡◌, ◌∷◌, [], ℕ, Some, false, length, nat_lt, take, true};
ghost use Rattle.do_network.specs.{Frames.Posted, Links.{Link, sendings}, Net.Channel};
ghost use Rattle.do_network.specs.{Step.with_loss, laws.Streams.{framed_to, greeting_to}};

/// A greeting goes before the first frame that is sent to a peer, and before no other.
pub fn streams_begin_with_the_greeting()
    ensures first { (x : Posted) (l : Link) → l.greeted ≡ false →
        sendings x (Some l) ≡ greeting_to x.to ∷ framed_to x l ∷ [] }
    ensures later { (x : Posted) (l : Link) → l.greeted ≡ true →
        sendings x (Some l) ≡ framed_to x l ∷ [] }
{}

/// A loss leaves what stands before it.
pub fn losses_keep_what_is_before()
    ensures { (after : ℕ) (c : Channel) → nat_lt (length c.waiting) after ≡ false →
        take after (with_loss after c).waiting ≡ take after c.waiting }
{}
