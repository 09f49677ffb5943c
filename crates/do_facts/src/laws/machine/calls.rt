ghost use Rattle.std.specs.Prelude.{[], ◌≡◌, ◌==◌, ◌++◌, ◌∷◌, ℕ, List, All, Some, false, true};
ghost use Rattle.std.specs.Prelude.{IfSome};
ghost use Rattle.do_base.specs.names.Names.{CallName, ObjectName};
ghost use Rattle.do_base.specs.declared.events.exception.Exc.TheVariants.{ConnectionDied, TimedOut};
ghost use Rattle.do_behave.specs.declared.invocation.Answer.{Answer, TheVariants.Raised};
ghost use Rattle.do_behave.specs.declared.invocation.Invocation.{Invocation};
ghost use Rattle.do_behave.specs.declared.invocation.InvState.TheVariants.{Answered, Waits};
ghost use Rattle.do_behave.specs.declared.invocation.Waited.{Waited};
ghost use Rattle.do_machine.specs.{declared.node.{Node.Node, Wanted.Wanted}, Lists.IsIn};
ghost use Rattle.do_machine.specs.{State.is_open, ends.{Closing.closing, TimeOut.time_out}};
ghost use Rattle.do_facts.specs.laws.Calls.{IsGivenUp, IsParted, is_settled};
ghost use Rattle.do_machine.specs.lend.Asking.{ask_over, asking, same_wanted};
ghost use Rattle.do_machine.specs.{run.Changes.answered, take.Awaiting.{AnsweredCall, answering}};
ghost use Rattle.do_machine.specs.take.Awaiting.{awaits, is_answered, with_answer};

/// An answer goes to the first invocation from the top that waits for it, wherever it stands, and
/// to no other. A late call that it answers is over.
pub fn answers_find_their_callers()
    ensures caller { (k : AnsweredCall) (answer : Waited → Answer) (n : Node)
        (above : List Invocation) (i : Invocation) (below : List Invocation) →
        n.stack ≡ above ++ i ∷ below → All (λ j. awaits k j.state ≡ false) above →
        awaits k i.state ≡ true →
        (answering k answer n).node.stack ≡ above ++ with_answer answer i ∷ below }
    ensures others { (k : AnsweredCall) (answer : Waited → Answer) (n : Node) →
        All (λ j. awaits k j.state ≡ false) n.stack →
        (answering k answer n).node.stack ≡ n.stack }
    ensures late { (k : AnsweredCall) (answer : Waited → Answer) (n : Node) →
        All (λ c. is_answered k c.peer c.number c.what ≡ false) (answering k answer n).node.late }
{}

/// A node that closes its end towards a peer has nothing more with it, and each invocation that
/// waits for the peer is answered by an exception.
pub fn closing_ends_all()
    ensures parted { (peer : ℕ) (n : Node) → IsParted peer (closing peer n).node }
    ensures calls { (peer : ℕ) (n : Node) (i : Invocation) (call : CallName) (what : Waited) →
        IsIn n.stack i → i.state ≡ Waits call peer what →
        IsIn (closing peer n).node.stack (answered (Raised ConnectionDied) i) }
{}

/// A call that is given up ends with an exception, and is late from then on.
pub fn given_up_calls_are_late()
    ensures { (n : Node) (i : Invocation) (below : List Invocation) (call : CallName) (peer : ℕ)
        (what : Waited) → n.stack ≡ i ∷ below → i.state ≡ Waits call peer what →
        IfSome (time_out n) (IsGivenUp i below call peer what) }
{}

/// A lend is not settled while the borrower can still ask the home for the object, and once it is
/// settled nothing is asked for under it.
pub fn lends_last_while_asked()
    ensures asking { (w : Wanted) (n : Node) → is_open n w.object.node ≡ true →
        All (λ p. is_settled p.item ≡ false) (asking w n).sent }
    ensures settled { (w : Wanted) (n : Node) →
        All (λ v. same_wanted w v ≡ false) (ask_over w n).node.asked }
{}
