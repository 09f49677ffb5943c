ghost use Rattle.std.specs.Prelude.{◌≡◌, ◌+◌, ◌<◌, ◌^◌, ◌∷◌, [], ℕ, List, OnOk, IfOk};
ghost use Rattle.std.specs.Option.{option_or};
ghost use Rattle.do_script.specs.Labels.{label_in, if_named, AreLabelsOf};
ghost use Rattle.do_script.specs.{Program.{program, label_from, size}, StatementOf.statement_in};

use crate::statement::{Said, said_in};
use do_grammar::line_of;
use std::alloc::{AllocError, Global};
use std::collections::BTreeMap;

/// Where a label is first defined: its line, from 0, and how many instructions stand before it.
#[derive(Clone, Copy, Debug)]
pub(crate) struct Label {
    pub line: usize,
    pub place: usize,
}

/// The labels of a text by name, and how many instructions it has.
#[derive(Drop)]
pub(crate) struct Labels<'a> {
    pub labels: BTreeMap<&'a [u8], Label>,
    pub instructions: usize,
}

/// Where a label is first defined.
pub(crate) fn find_label(found: &Labels<'_>, name: &[u8]) -> Option<Label>
    ensures { result ≡ label_in found.now name.now }
{
    found.labels.get(name).copied()
}

/// Adds a label, unless one of that name is there.
fn add_label<'a>(found: &mut Labels<'a>, name: &'a [u8], label: Label) -> Result<(), AllocError>
    ensures labels { OnOk result ((q : List ℕ) →
        label_in found.new q ≡ option_or (label_in found.old q) (if_named name.now label q)) }
    ensures count { OnOk result (found.new.instructions ≡ found.old.instructions) }
{
    if !found.labels.contains_key(name) {
        found.labels.insert(name, label)?;
    }
    Ok(())
}

/// Adds what a line defines, behind the lines that were added before.
fn add_line<'a>(found: &mut Labels<'a>, said: Said<'a>, line: usize) -> Result<(), AllocError>
    requires { found.old.instructions < 2 ^ 63 }
    ensures labels { OnOk result ((q : List ℕ) →
        label_in found.new q ≡ option_or (label_in found.old q)
        (label_from line found.old.instructions (statement_in said.entry ∷ []) q)) }
    ensures count { OnOk result
        (found.new.instructions ≡ found.old.instructions + size (statement_in said.entry ∷ [])) }
{
    match said {
        Said::Label(name) => {
            let place = found.instructions;
            add_label(found, name, Label { line, place })
        }
        Said::Instruction(_, _) => {
            found.instructions += 1;
            Ok(())
        }
        Said::Nothing | Said::NoLabel => Ok(()),
    }
}

/// The labels of a text and the number of its instructions.
#[tactic(auto, using(crate::proofs::LabelsSoFar::counting))]
pub(crate) fn labels_of(alloc: Global, text: &[u8]) -> Result<Labels<'_>, AllocError>
    ensures { IfOk result (AreLabelsOf (program text.now)) }
{
    let mut found = Labels {
        labels: BTreeMap::new(alloc),
        instructions: 0,
    };
    let mut rest = text;
    let mut number = 0;
    while let Some((line, _, more)) = line_of(rest) {
        add_line(&mut found, said_in(line), number)?;
        number += 1;
        rest = more;
    }
    Ok(found)
}
