ghost use Rattle.std.specs.Prelude.{◌≡◌, ◌++◌, OnOk, OnErr};
ghost use Rattle.do_cli.specs.Help.{form_text, forms_text, form_words, help_text, version_text};
ghost use Rattle.do_cli.specs.Help.{words_text};

use crate::form::{FORMS, Form, Kind};
use do_base::Text;
use std::alloc::AllocError;

/// What stands in front of the forms.
const HEAD: &[u8] = b"Distributed Objects, proved. The forms of the words are:\n\n";

/// What stands behind the forms.
const FOOT: &[u8] =
    b"\nWORLD is :counter, :mesh or the name of a file; SCHEDULE, RECORD, STARTS and PLAN are \
      names\nof files. Up to 64 records may stand there. NUMBER is below 2^64, COUNT is 1 to \
      100000, PORT\nis 1 to 65535, TURNS is 1 to 2^40.\n";

/// The program's name and version.
const VERSION: &[u8] = b"nukwashe 1\n";

/// Adds the words of a form behind its name, a space in front of each.
fn push_words(out: &mut Text, kinds: &[Kind]) -> Result<(), AllocError>
    ensures { OnOk result (out.new ≡ out.old ++ words_text kinds.now) }
{
    for kind in kinds {
        out.push(b' ')?;
        out.push_bytes(kind.placeholder())?;
    }
    Ok(())
}

/// Adds the words of a form behind its name, and two dots where more may follow.
fn push_form_words(out: &mut Text, form: Form) -> Result<(), AllocError>
    ensures { OnOk result (out.new ≡ out.old ++ form_words form) }
{
    push_words(out, form.kinds())?;
    if form.more().is_empty() {
        return Ok(());
    }
    out.push_bytes(b"..")
}

/// Adds the two lines of a form: its words, and what it does.
fn push_form(out: &mut Text, form: Form) -> Result<(), AllocError>
    ensures { OnOk result (out.new ≡ out.old ++ form_text form) }
{
    out.push_bytes(b"  ")?;
    out.push_bytes(form.name())?;
    push_form_words(out, form)?;
    out.push_bytes(b"\n      ")?;
    out.push_bytes(form.deed())?;
    out.push(b'\n')
}

/// Adds the lines of each form.
fn push_forms(out: &mut Text, forms: &[Form]) -> Result<(), AllocError>
    ensures { OnOk result (out.new ≡ out.old ++ forms_text forms.now) }
{
    for form in forms {
        push_form(out, *form)?;
    }
    Ok(())
}

/// Adds the text of `--help`: each form of the table, with what it does.
///
/// If memory runs out, a part of it may have been added.
pub fn push_help(out: &mut Text) -> Result<(), AllocError>
    ensures { OnOk result (out.new ≡ out.old ++ help_text) }
{
    out.push_bytes(HEAD)?;
    push_forms(out, &FORMS)?;
    out.push_bytes(FOOT)
}

/// Adds the text of `--version`: the program's name and version, a line.
///
/// If memory runs out, the text is unchanged.
pub fn push_version(out: &mut Text) -> Result<(), AllocError>
    ensures ok { OnOk result (out.new ≡ out.old ++ version_text) }
    ensures err { OnErr result (out.new ≡ out.old) }
{
    out.push_bytes(VERSION)
}
