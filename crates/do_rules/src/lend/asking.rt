//! What a node that was lent an object does until it holds it.
ghost use Rattle.std.specs.Prelude.{◌≡◌, OnOk};
ghost use Rattle.do_machine.specs.Effect.{each};
ghost use Rattle.do_machine.specs.lend.Asking.{ask_over, asking, same_wanted, settling};
ghost use Rattle.do_rules.specs.Doing.{and_then};

use crate::effect::{Done, queue};
use crate::lists::{Ordered, Test, has, insert, keep};
use crate::node::is_open;
use do_machine::{Effect, Item, Wanted};

impl Ordered for Wanted {
    ghost use Rattle.do_machine.specs.lend.Asking.{wanted_lt};

    ghost before = { wanted_lt };

    fn is_before(&self, other: &Wanted) -> bool {
        let (first, second) = (self.token.lender.port(), other.token.lender.port());
        if first != second {
            return first < second;
        }
        let (first, second) = (self.token.number, other.token.number);
        if first != second {
            return first < second;
        }
        self.object.is_before(&other.object)
    }
}

/// Whether two asks are one: they are of one object and one token.
fn same_wanted(a: &Wanted, b: &Wanted) -> bool
    ensures { result ≡ same_wanted a.now b.now }
{
    let (a_token, b_token) = (a.token, b.token);
    a.object == b.object && a_token.lender == b_token.lender && a_token.number == b_token.number
}

impl Test<Wanted> for Wanted {
    ghost use Rattle.do_machine.specs.lend.Asking.{same_wanted};

    ghost passes = { same_wanted };

    fn passes(&self, other: &Wanted) -> bool {
        same_wanted(self, other)
    }
}

/// All asks but one.
#[derive(Drop)]
struct BesideAsk<'a>(&'a Wanted);

impl<'a> Test<Wanted> for BesideAsk<'a> {
    ghost use Rattle.std.specs.Prelude.{not};
    ghost use Rattle.do_machine.specs.lend.Asking.{same_wanted};

    ghost passes = { λ besides other. not (same_wanted besides.0.now other) };

    fn passes(&self, other: &Wanted) -> bool {
        !same_wanted(self.0, other)
    }
}

/// The lender is told that the lend is over, if the end towards it is open.
pub(crate) fn settle(effect: &mut Effect, wanted: &Wanted) -> Done
    ensures { OnOk result (effect.new ≡ and_then effect.old (settling wanted.now)) }
{
    let lender = wanted.token.lender;
    if !is_open(&effect.node, lender) {
        return Ok(());
    }
    let number = wanted.token.number;
    queue(effect, lender, Item::Settled { number })
}

/// The lenders are told one after another.
pub(crate) fn settle_all(effect: &mut Effect, wanted: &[Wanted]) -> Done
    ensures { OnOk result (effect.new ≡ and_then effect.old (each settling wanted.now)) }
{
    let [first, rest @ ..] = wanted else {
        return Ok(());
    };
    settle(effect, first)?;
    settle_all(effect, rest)
}

/// A node asks the home for an object that it was lent; where it can't ask, the lend is over.
pub(crate) fn ask(effect: &mut Effect, wanted: &Wanted) -> Done
    ensures { OnOk result (effect.new ≡ and_then effect.old (asking wanted.now)) }
{
    let home = wanted.object.node;
    if !is_open(&effect.node, home) {
        return settle(effect, wanted);
    }
    if has(effect.node.asked.as_slice(), wanted) {
        return Ok(());
    }
    insert(&mut effect.node.asked, wanted.clone()?)?;
    let item = Item::Ask {
        serial: wanted.object.serial,
        token: wanted.token,
    };
    queue(effect, home, item)
}

/// An ask is over, and so is the lend.
pub(crate) fn end_ask(effect: &mut Effect, wanted: &Wanted) -> Done
    ensures { OnOk result (effect.new ≡ and_then effect.old (ask_over wanted.now)) }
{
    keep(&mut effect.node.asked, &BesideAsk(wanted));
    settle(effect, wanted)
}
