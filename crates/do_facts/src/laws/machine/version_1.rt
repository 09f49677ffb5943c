ghost use Rattle.std.specs.Prelude.{[], ◌≡◌, ℕ};
ghost use Rattle.do_behave.specs.declared.invocation.{Answer.Answer, Waited.Waited};
ghost use Rattle.do_machine.specs.{declared.node.Node.Node, ends.Closing.closing};
ghost use Rattle.do_facts.specs.laws.Version1.{answering_1, closing_1};
ghost use Rattle.do_machine.specs.take.Awaiting.{AnsweredCall, answering};

/// Where no call is late, answers and closes are those of version 1.
pub fn as_in_version_1()
    ensures answers { (k : AnsweredCall) (answer : Waited → Answer) (n : Node) → n.late ≡ [] →
        answering k answer n ≡ answering_1 k answer n }
    ensures closes { (peer : ℕ) (n : Node) → n.late ≡ [] → closing peer n ≡ closing_1 peer n }
{}
