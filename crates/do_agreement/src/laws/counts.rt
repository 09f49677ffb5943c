ghost use Rattle.std.specs.Prelude.{◌≡◌, ◌==◌, ◌++◌, ◌∷◌, ℕ, Bool, List, false, nat_lt, true};
ghost use Rattle.do_base.specs.declared.events.event.Event.{Event};
ghost use Rattle.do_class.specs.Class.{Class};
ghost use Rattle.do_export.specs.Counts.{count_of};
ghost use Rattle.do_machine.specs.declared.{item.Item.Item, node.Node.Node, state.Effect.Effect};
ghost use Rattle.do_machine.specs.{declared.state.State.State, Context.Context, Items.exported};
ghost use Rattle.do_machine.specs.{Objects.object_at, State.{holds, is_open}, held.Leaving.leaving};
ghost use Rattle.do_machine.specs.{run.Run.Acting, take.Take.{holding, take_effect}};
ghost use Rattle.do_facts.specs.{links.{Links.links_of, Sound.IsSound}, steps.IsStep.IsRuleOf};
ghost use Rattle.do_network.specs.{Counting.counted, Own.Own, fits.Counted.Counted};
ghost use Rattle.do_network.specs.fits.Notes.{Note, tells_of, total};
ghost use Rattle.do_agreement.specs.{Accounted.AccountsFor, InHand.in_hand, NotesSent.notes_to};

/// By each of its effects a node accounts for what it held: each object is still held, or given
/// back by one release, or told by the end that closes.
///
/// A node that takes an item accounts for what the item exports to it too.
pub fn effects_account()
    ensures rules { (table : List Class) (act : Acting) (S : State) (event : Event) (n : Node)
        (e : Effect) → IsSound (links_of n) → IsRuleOf table act S event n e → (home : ℕ) →
        AccountsFor home n e }
    ensures takes { (c : Context) (from : ℕ) (item : Item) → is_open c.node from ≡ true →
        IsSound (links_of c.node) → (home : ℕ) →
        AccountsFor home (holding (exported from c.node.port item) c.node)
        (take_effect c from item) }
    ensures leaving { (n : Node) (entry : ℕ → ℕ → Bool) → IsSound (links_of n) → (home : ℕ) →
        AccountsFor home n (leaving entry n) }
{}

/// What a home counts for a peer stays right when the peer moves: the counts of what it gives back
/// are on their way to the home.
pub fn homes_counts_stay_right()
    ensures { (p q : Own) (e : Effect) → AccountsFor q.node.port p.node e →
        e.node.port ≡ p.node.port → (there back : List Note) → Counted q p there back →
        ((s : ℕ) → nat_lt 0 (count_of p.received q.node.port s)
        ≡ holds p.node (object_at q.node.port s)) →
        (is_open p.node q.node.port ≡ true → (s : ℕ) → total (tells_of s) back ≡ 0) →
        Counted q (counted p e) there (back ++ notes_to p.received q.node.port e.sent) }
{}

/// What a node counts for a peer stays right when the node moves: each name that it sends is
/// counted.
pub fn senders_counts_stay_right()
    ensures { (p q : Own) (e : Effect) → e.node.port ≡ p.node.port →
        (is_open e.node q.node.port ≡ true → is_open p.node q.node.port ≡ true) →
        (there back : List Note) →
        (is_open e.node q.node.port ≡ true → Counted p q there back) →
        ((s : ℕ) → is_open e.node q.node.port ≡ false →
        holds e.node (object_at q.node.port s) ≡ false) →
        (is_open e.node q.node.port ≡ true → (s : ℕ) →
        total (tells_of s) (there ++ notes_to p.received q.node.port e.sent) ≡ 0) →
        Counted (counted p e) q (there ++ notes_to p.received q.node.port e.sent) back }
{}

/// Counts stay right when a node takes an item in hand: what the item exports is received once
/// more, and what it gives back is taken off.
pub fn items_in_hand_are_counted()
    ensures sender { (p q : Own) (x : Note) (there back : List Note) →
        is_open p.node q.node.port ≡ true → Counted q p (x ∷ there) back →
        Counted q (in_hand q.node.port x p) there back }
    ensures taker { (p q : Own) (x : Note) (there back : List Note) →
        is_open p.node q.node.port ≡ true → ((s : ℕ) → tells_of s x ≡ 0) →
        Counted p q there (x ∷ back) → Counted (in_hand q.node.port x p) q there back }
    ensures thirds { (p q : Own) (from : ℕ) (x : Note) → (q.node.port == from) ≡ false →
        (there back : List Note) → Counted q p there back →
        Counted q (in_hand from x p) there back }
    ensures for_thirds { (p q : Own) (from : ℕ) (x : Note) → (q.node.port == from) ≡ false →
        (there back : List Note) → Counted p q there back →
        Counted (in_hand from x p) q there back }
{}
