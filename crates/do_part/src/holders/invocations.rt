//! The names in invocations, counted or taken off.
ghost use Rattle.do_machine.specs.held.Refers.{answer_values, state_values};
ghost use Rattle.do_stack.specs.Uses.{invocation_values};
ghost use Rattle.do_part.specs.{Names.{values_of, sizes_of}, Holding.{CanTally, Tallied}};

use crate::holders::Holders;
use crate::tally::Tally;
use do_behave::{Answer, Frame, InvState, Invocation};

impl Holders {
    /// Counts the names in the locals of an invocation, or takes them off.
    pub(super) fn tally_frame(&mut self, by: Tally, locals: &Frame)
        requires { CanTally by self.old (values_of locals.now) (sizes_of locals.now) }
        ensures { Tallied by self.old self.new (values_of locals.now) (sizes_of locals.now) }
    {
        for held in locals.as_slice() {
            self.tally_value(by, held.value(), true);
        }
    }

    /// Counts the names in an answer, or takes them off.
    pub(crate) fn tally_answer(&mut self, by: Tally, answer: &Answer)
        requires { CanTally by self.old (values_of (answer_values answer.now))
            (sizes_of (answer_values answer.now)) }
        ensures { Tallied by self.old self.new (values_of (answer_values answer.now))
            (sizes_of (answer_values answer.now)) }
    {
        if let Answer::Given { result, outs } = answer {
            self.tally_value(by, result, true);
            self.tally_values(by, outs, true);
        }
    }

    /// Counts the names in the answer that an invocation has, or takes them off.
    pub(crate) fn tally_state(&mut self, by: Tally, state: &InvState)
        requires { CanTally by self.old (values_of (state_values state.now))
            (sizes_of (state_values state.now)) }
        ensures { Tallied by self.old self.new (values_of (state_values state.now))
            (sizes_of (state_values state.now)) }
    {
        if let InvState::Answered(answer) = state {
            self.tally_answer(by, answer);
        }
    }

    /// Counts the names in an invocation, or takes them off: of its object, in its locals and in
    /// its answer.
    pub(crate) fn tally_invocation(&mut self, by: Tally, inv: &Invocation)
        requires { CanTally by self.old (values_of (invocation_values inv.now))
            (sizes_of (invocation_values inv.now)) }
        ensures { Tallied by self.old self.new (values_of (invocation_values inv.now))
            (sizes_of (invocation_values inv.now)) }
    {
        self.tally(by, inv.object, true);
        self.tally_frame(by, &inv.locals);
        self.tally_state(by, &inv.state);
    }
}
