//! Writing packets.
ghost use Rattle.std.specs.Prelude.{◌≡◌, ◌++◌, ◌∷◌, [], length, IfOk, OnOk, OnErr};
ghost use Rattle.std.specs.List.{flat_map, fold};
ghost use Rattle.do_coder.specs.Recent.{place_in, after_name};
ghost use Rattle.do_grammar.specs.OneSpelling.{list_spelling, spelling_by};
ghost use Rattle.do_coder.specs.{Names.{name_spelling, names_spelling}, Parts.part_spelling};
ghost use Rattle.do_coder.specs.Packets.{copied_spelling, packet_spelling, after_packet};

use crate::recent::name_log::NameLog;
use crate::recent::pair::Pair;
use crate::recent::table::Recent;
use crate::tags::{COPY, KNOWN, LENT, LIST, NAMED, NEW, NIL, NUMBER, TEXT, YOURS};
use do_base::Text;
use do_class::{Copied, Name, Packet, Part};
use do_grammar::{push_num, push_signed, push_text};
use std::alloc::{AllocError, Global};

/// Adds the spelling of a value.
#[cycle(pushing)]
#[tactic(auto, using(crate::proofs::values::PartFacts::spellings))]
fn push_part(out: &mut Text, part: &Part) -> Result<(), AllocError>
    ensures { OnOk result (out.new ≡ out.old ++ part_spelling part.now) }
{
    match part {
        Part::Nil => out.push(NIL),
        Part::Num(number) => {
            out.push(NUMBER)?;
            push_signed(out, *number)
        }
        Part::Text(text) => {
            out.push(TEXT)?;
            push_text(out, text.as_slice())
        }
        Part::Copy(k) => {
            out.push(COPY)?;
            push_num(out, *k)
        }
        Part::Named(k) => {
            out.push(NAMED)?;
            push_num(out, *k)
        }
        Part::List(parts) => {
            out.push(LIST)?;
            push_list(out, parts.as_slice())
        }
    }
}

/// Adds the spelling of a list of values.
#[cycle(pushing)]
fn push_list(out: &mut Text, parts: &[Part]) -> Result<(), AllocError>
    ensures { OnOk result (out.new ≡ out.old ++ list_spelling (flat_map part_spelling) parts.now) }
{
    push_num(out, parts.len() as u64)?;
    push_parts(out, parts)
}

/// Adds the spellings of values.
#[cycle(pushing)]
fn push_parts(out: &mut Text, parts: &[Part]) -> Result<(), AllocError>
    ensures { OnOk result (out.new ≡ out.old ++ flat_map part_spelling parts.now) }
{
    for part in parts {
        push_part(out, part)?;
    }
    Ok(())
}

/// Adds the spellings of copied objects.
fn push_copies(out: &mut Text, copies: &[Copied]) -> Result<(), AllocError>
    ensures { OnOk result (out.new ≡ out.old ++ flat_map copied_spelling copies.now) }
{
    for copied in copies {
        push_num(out, u64::from(copied.class.0))?;
        push_list(out, copied.slots.as_slice())?;
    }
    Ok(())
}

/// Adds the spelling of a name by the table, which is then the one after the name.
fn push_name(out: &mut Text, name: &Name, recent: &mut NameLog) -> Result<(), AllocError>
    ensures ok { OnOk result (out.new ≡ out.old ++ name_spelling recent.old.now name.now) }
    ensures after { OnOk result (recent.new
        ≡ record { now = after_name recent.old.now name.now; kept = recent.old.kept }) }
    ensures err { OnErr result (recent.new.kept ≡ recent.old.kept) }
{
    match *name {
        Name::Mine { serial, class } => {
            let pair = Pair { serial, class };
            match recent.place(&pair) {
                Some(k) => {
                    out.push(KNOWN)?;
                    push_num(out, k as u64)
                }
                None => {
                    out.push(NEW)?;
                    push_num(out, serial)?;
                    push_num(out, u64::from(class.0))?;
                    recent.add(pair)
                }
            }
        }
        Name::Yours { serial } => {
            out.push(YOURS)?;
            push_num(out, serial)
        }
        Name::Lent { oid, class, token } => {
            out.push(LENT)?;
            push_num(out, u64::from(oid.node.port()))?;
            push_num(out, oid.serial)?;
            push_num(out, u64::from(class.0))?;
            push_num(out, token)
        }
    }
}

/// Adds the spellings of names, each by the table that those before it leave.
fn push_names(out: &mut Text, names: &[Name], recent: &mut NameLog) -> Result<(), AllocError>
    ensures ok { OnOk result (out.new ≡ out.old
        ++ spelling_by name_spelling after_name recent.old.now names.now) }
    ensures after { OnOk result (recent.new
        ≡ record { now = fold after_name recent.old.now names.now; kept = recent.old.kept }) }
    ensures err { OnErr result (recent.new.kept ≡ recent.old.kept) }
{
    for name in names {
        push_name(out, name, recent)?;
    }
    Ok(())
}

/// Adds the spelling of a packet by the table, which is then the one after the packet.
///
/// `AllocError` comes where memory ran out. A part of the spelling may then have been added; what
/// was kept of the table stays.
pub fn push_packet(out: &mut Text, packet: &Packet, recent: &mut NameLog) -> Result<(), AllocError>
    ensures ok { OnOk result (out.new ≡ out.old ++ packet_spelling recent.old.now packet.now) }
    ensures after { OnOk result (recent.new
        ≡ record { now = after_packet recent.old.now packet.now; kept = recent.old.kept }) }
    ensures err { OnErr result (recent.new.kept ≡ recent.old.kept) }
{
    push_num(out, packet.names.len() as u64)?;
    push_names(out, packet.names.as_slice(), recent)?;
    push_num(out, packet.copies.len() as u64)?;
    push_copies(out, packet.copies.as_slice())?;
    push_list(out, packet.values.as_slice())
}

/// The spelling of a packet by the table of recent names, which is then the one after the packet.
///
/// `decode` reads it, whatever follows, where the packet keeps to the limits of the reader's
/// classes and ports and the reader's table is equal. If memory runs out the table is unchanged.
pub fn encode(alloc: Global, packet: &Packet, recent: &mut Recent) -> Result<Text, AllocError>
    ensures text { IfOk result (λ t. t ≡ packet_spelling recent.old packet.now) }
    ensures after { OnOk result (recent.new ≡ after_packet recent.old packet.now) }
    ensures err { OnErr result (recent.new ≡ recent.old) }
{
    let mut out = Text::new(alloc);
    match push_packet(&mut out, packet, &mut recent.log) {
        Ok(()) => {
            recent.log.keep();
            Ok(out)
        }
        Err(e) => {
            recent.log.undo();
            Err(e)
        }
    }
}
