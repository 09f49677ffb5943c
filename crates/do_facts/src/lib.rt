//! What holds of every state of the machine, as facts of what is on its way between nodes.
//!
//! It stands on the definitions of the machine and has no code of its own: each of its functions
//! is a law, of every behaviour. It promises that every step is a list of small moves, each of one
//! node, and that each lend, each ask and each call is in one place.
//!
//! A step as moves of one node. A fact of all states needs a walk over all rules of a step. The
//! rules are walked once for each of two views of a state: what nodes have of foreign objects,
//! and their calls. They are never walked as whole messages: a message is a list of atoms, each
//! of which a move takes or posts. Facts are then kept move by move. Two small views cost less
//! than one large one, since each proof reads the parts that it needs alone.
//!
//! Laws of one effect stay beside laws of steps. The laws of do_machine that speak of one
//! effect are exact for what they say and are used by other proofs. The laws of whole steps
//! stand in do_facts, where the moves are, and docs/PROMISES.md says which is to be read for
//! what.
//!
//! A token is of one object by a fact, not by the form of a list. Lends are a list in the
//! definitions, so that two lends might have one token; that none do is one of the facts that
//! every move keeps.
//!
//! Must-fail edits change the rules of moves. A law has no body that could be wrong. What may
//! be wrong is a rule of the moves of which a step is said to be a list. Each edit turns one,
//! and the bridge from the machine's step to the moves refuses it. do_quiet has no rules of its
//! own; its edits turn the facts that it adds.
//!
//! The rules of an act and the ways of an answer are walked once. What a law says of each
//! verdict or effect is a parameter of the walk (RulesOfActs, Deliveries). So is what it says
//! of a node after a step (NodeSteps, NodeRuns). The laws of stored objects and of checkers
//! give their own predicate, and read no rule of an act themselves.
//!
//! When a lend ends is a law of one step. A step ends a lend only by taking the borrower's
//! notice or by closing the end towards the borrower. That the object is kept so long needs
//! that no end closed, and is a law of runs (do_quiet).
//!
//! The machine's laws stand where its moves are. do_machine is the definitions that programs
//! are proved against, with the two laws that programs cite. A law more or a proof changed
//! there would prove the sites anew. The laws keep their names and clauses.
//!
//! Laws of every state are proved beside the moves. A step is moves of its node where the node
//! is sound, as each node is that a machine comes to. That numbers never fall, that nothing is
//! held over a closed end, and that entries change by their home's own steps are laws of every
//! state whatever. So what the rules keep is walked once more, for anything that holds of nodes
//! and of what is sent (proofs/walk). The laws of stored objects use the same walk.
#![tactic(auto)]

mod laws;

pub use laws::{
    answers_find_their_callers, as_in_version_1, calls_are_in_one_place, classes_stay,
    closing_ends_all, entered_objects_are_stored, entries_change_at_both_ends,
    entries_change_by_own_steps, entries_of_others_stay, first_schedules_as_in_version_1,
    given_up_calls_are_late, held_is_referred_to, held_objects_are_referred_to,
    held_over_open_ends, late_stays_empty, lends_and_asks_are_in_one_place,
    lends_last_until_settled, lends_last_while_asked, named_objects_were_made,
    no_entry_over_a_closed_end, nodes_rise_by_port, numbers_never_fall, others_stay,
    queues_change_at_their_ends, queues_grow_behind, steps_are_moves, steps_are_moves_of_calls,
    steps_are_of_one_node, time_outs_give_calls_up,
};
