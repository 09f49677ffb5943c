//! How the stored objects of a network that nothing can reach any more are written.
ghost use Rattle.std.specs.Prelude.{◌≡◌, ◌++◌, IfOk, OnOk, map};
ghost use Rattle.do_leaks.specs.Leaks.{leaks};
ghost use Rattle.do_lines.specs.Lines.{joined};
ghost use Rattle.do_lost.specs.Text.{leak_line, lost_text};
ghost use Rattle.do_machine.specs.declared.state.State.{State};
ghost use Rattle.do_net.specs.{Net.{Stands, network}, OneMachine.StandsFor};
ghost use Rattle.do_net_lost.specs.Text.{net_lost_text};
ghost use Rattle.do_net_named.specs.{Lost.net_class, Named.net_named};
ghost use Rattle.do_network.specs.Snapshot.{net_snapshot};

use crate::naming::named;
use crate::still::is_still;
use do_base::{Oid, Text};
use do_class::ClassId;
use do_leaks::{LeakList, leaks};
use do_lost::{leaks_head, push_leak};
use do_machine::Snapshot;
use do_net::Net;
use do_traced::Traced;
use std::alloc::AllocError;

/// The class of an object that is stored at its home. None exactly where it is not.
fn class_of<S: Traced>(net: &Net<S>, object: &Oid) -> Option<ClassId>
    ensures { result ≡ net_class (network S.seen net.now) object.now }
{
    let site = net.site(object.node)?;
    site.class_of(object.serial)
}

/// Adds a line for each object that nothing can reach.
fn push_leaks<S: Traced>(out: &mut Text, net: &Net<S>, list: &LeakList) -> Result<(), AllocError>
    ensures { OnOk result (out.new ≡ out.old ++ joined
        (map (leak_line net.now.table (net_class (network S.seen net.now))) list.now)) }
{
    for leak in list.as_slice() {
        let class = class_of(net, &leak.oid);
        let holder = class_of(net, &leak.holder);
        push_leak(out, net.classes(), leak, class, holder)?;
    }
    Ok(())
}

/// The stored objects of a network that nothing can reach any more.
#[tactic(auto, using(do_net_named::proofs::LeaksAlike::leaks_alike))]
fn lost<S: Traced>(net: &Net<S>, listed: &Snapshot) -> Result<LeakList, AllocError>
    requires stands { Stands S.seen (S.Acts.act net.now.acts) net.now }
    requires listed { listed.now ≡ net_snapshot (network S.seen net.now) }
    ensures { IfOk result (λ list. list ≡ leaks (net_snapshot (network S.seen net.now))
        (net_named net.now.table (network S.seen net.now))) }
{
    let names = named(net, listed)?;
    leaks(listed, &names)
}

/// The stored objects of a network that nothing can reach any more, as a text: `leaks 1`, whether
/// nothing is under way, a line for each object with its class and the first slot that names it,
/// and `end`. It is that of the machine's state for which the network stands.
///
/// `listed` is what a check lists of the network. An error means that memory ran out, now or in a
/// step before.
pub fn lost_text<S: Traced>(net: &Net<S>, listed: &Snapshot) -> Result<Text, AllocError>
    requires stands { Stands S.seen (S.Acts.act net.now.acts) net.now }
    requires listed { listed.now ≡ net_snapshot (network S.seen net.now) }
    ensures text { IfOk result (λ text.
        text ≡ net_lost_text net.now.table (network S.seen net.now)) }
    ensures one_machine { (state : State) →
        StandsFor net.now.table (S.Acts.act net.now.acts) (network S.seen net.now) state →
        IfOk result (λ text. text ≡ lost_text net.now.table state) }
{
    let list = lost(net, listed)?;
    let mut text = leaks_head(net.allocator(), is_still(net)?)?;
    push_leaks(&mut text, net, &list)?;
    text.push_bytes(b"end\n")?;
    Ok(text)
}
