ghost use Rattle.std.specs.Prelude.{◌≡◌, ◌≤◌, ◌++◌, ◌↔◌, ℕ, IfOk, IsErrOf, IsSome, None, OnErr};
ghost use Rattle.std.specs.Prelude.{Some, length};
ghost use Rattle.do_cli.specs.Forms.{fitting, going, furthest, follows, command_by, command_among};
ghost use Rattle.do_cli.specs.Forms.{command_in, kinds_of, made, more_of, number_in, records_in};
ghost use Rattle.do_cli.specs.Forms.{served, stuck_at};
ghost use Rattle.do_cli.specs.declared.form.Kind.TheVariants.{Count, Number, Port, Turns};

use crate::command::{Command, Words};
use crate::fault::WordFault;
use crate::form::{FORMS, Form, Kind, node_of};
use do_base::Word;
use std::alloc::{AllocError, Global};

/// How many of the first words are of these kinds, one by one.
fn fitting(kinds: &[Kind], words: &[Word]) -> usize
    ensures value { result ≡ fitting kinds.now words.now }
    ensures kinds { result ≤ length kinds.now }
    ensures words { result ≤ length words.now }
{
    let [kind, kinds @ ..] = kinds else {
        return 0;
    };
    let [word, words @ ..] = words else {
        return 0;
    };
    if !kind.fits(word) {
        return 0;
    }
    1 + fitting(kinds, words)
}

/// How many of the words behind the first are what the form has there, one by one.
fn fitting_of(form: Form, words: &[Word]) -> usize
    ensures value { result ≡ fitting (kinds_of form ++ more_of form) words.now }
    ensures within { result ≤ length words.now }
{
    let needed = fitting(form.kinds(), words);
    if needed < form.kinds().len() {
        return needed;
    }
    needed + fitting(form.more(), &words[needed..])
}

/// With how many of the first words a form goes on.
fn going(form: Form, words: &[Word]) -> usize
    ensures value { result ≡ going form words.now }
    ensures words { result ≤ length words.now }
{
    match words {
        [name, words @ ..] if name.is(form.name()) => 1 + fitting_of(form, words),
        _ => 0,
    }
}

/// Whether the words are of a form.
fn follow(words: &[Word], form: Form) -> bool
    ensures { result ≡ follows form words.now }
{
    words.len() > form.kinds().len() && going(form, words) == words.len()
}

/// A list of the same words.
fn words_of(alloc: Global, words: &[Word]) -> Result<Words, AllocError>
    ensures { IfOk result (λ list. list ≡ words.now) }
{
    let mut list = Words::new(alloc);
    list.extend_from_slice(words)?;
    Ok(list)
}

/// The command that two words of `make` ask for.
fn made(number: &Word, count: &Word) -> Option<Command>
    ensures { result ≡ made (number_in Number number.now) (number_in Count count.now) }
{
    let number = Kind::Number.number(number)?;
    let count = Kind::Count.number(count)?;
    Some(Command::Make { number, count })
}

/// The command that the words of `node` ask for.
fn served(
    port: &Word,
    world: &Word,
    starts: &Word,
    turns: &Word,
) -> Result<Option<Command>, AllocError>
    ensures ok { IfOk result (λ command. command
        ≡ served (number_in Port port.now) world.now starts.now (number_in Turns turns.now)) }
    ensures err { OnErr result (IsSome
        (served (number_in Port port.now) world.now starts.now (number_in Turns turns.now))) }
{
    let (Some(port), Some(turns)) = (node_of(port), Kind::Turns.number(turns)) else {
        return Ok(None);
    };
    Ok(Some(Command::Node {
        port,
        world: world.clone()?,
        starts: starts.clone()?,
        turns,
    }))
}

/// The command of a form whose words these are.
fn command_by(form: Form, words: &[Word]) -> Result<Option<Command>, AllocError>
    ensures ok { IfOk result (λ command. command ≡ command_by form words.now) }
    ensures err { OnErr result (IsSome (command_by form words.now)) }
{
    match (form, words) {
        (Form::Replay, [_, world, schedule]) => Ok(Some(Command::Replay {
            world: world.clone()?,
            schedule: schedule.clone()?,
        })),
        (Form::Leaks, [_, world, schedule]) => Ok(Some(Command::Leaks {
            world: world.clone()?,
            schedule: schedule.clone()?,
        })),
        (Form::Weave, [_, world, files @ ..]) => Ok(Some(Command::Weave {
            world: world.clone()?,
            files: words_of(world.allocator(), files)?,
        })),
        (Form::Upgrade, [_, schedule]) => Ok(Some(Command::Upgrade {
            schedule: schedule.clone()?,
        })),
        (Form::Make, [_, number, count]) => Ok(made(number, count)),
        (Form::Node, [_, port, world, starts, turns]) => served(port, world, starts, turns),
        (Form::Lab, [_, plan]) => Ok(Some(Command::Lab {
            plan: plan.clone()?,
        })),
        (Form::Help, [_]) => Ok(Some(Command::Help)),
        (Form::Version, [_]) => Ok(Some(Command::Version)),
        _ => Ok(None),
    }
}

/// The command of the first form that the words follow.
fn command_among(forms: &[Form], words: &[Word]) -> Result<Option<Command>, AllocError>
    ensures ok { IfOk result (λ command. command ≡ command_among forms.now words.now) }
    ensures err { OnErr result (IsSome (command_among forms.now words.now)) }
{
    for form in forms {
        if follow(words, *form) {
            return command_by(*form, words);
        }
    }
    Ok(None)
}

/// With how many of the first words the form goes on that goes on with most.
fn furthest(forms: &[Form], words: &[Word]) -> usize
    ensures value { result ≡ furthest forms.now words.now }
    ensures words { result ≤ length words.now }
{
    let mut most = 0;
    for form in forms {
        most = most.max(going(*form, words));
    }
    most
}

/// The command that the words of the command line ask for, the program's own name left out.
///
/// The forms are `replay WORLD SCHEDULE`, `leaks WORLD SCHEDULE`, `weave WORLD RECORD..`, `upgrade
/// SCHEDULE`, `make NUMBER COUNT`, `node PORT WORLD STARTS TURNS`, `lab PLAN`, `--help` and
/// `--version`. WORLD is `:counter`, `:mesh` or the name of a file, SCHEDULE, STARTS, PLAN and each
/// of the 1 to 64 RECORDs a file's name: 1 to 4,096 bytes, of which the first is neither `-` nor
/// `:`. NUMBER is below 2^64, COUNT 1 to 100,000, PORT 1 to 65,535 and TURNS 1 to 2^40, each in
/// decimal digits with no zero in front. Words of no form are `Usage`, with the first word, from 1,
/// at which no form goes on; where words are missing, with their count and one. `Memory` comes only
/// where the words are of a form.
#[tactic(auto, unfolding(crate::specs::Forms::command_in, crate::specs::Forms::stuck_at))]
pub fn read_words(words: &[Word]) -> Result<Command, WordFault>
    ensures command { IfOk result (λ command. command_in words.now ≡ Some command) }
    ensures records { IfOk result (λ command. records_in command ≤ 64) }
    ensures usage { (word : ℕ) → IsErrOf result (WordFault.Usage word)
        ↔ ((command_in words.now ≡ None) × (word ≡ stuck_at words.now)) }
{
    match command_among(&FORMS, words)? {
        Some(command) => Ok(command),
        None => Err(WordFault::Usage(1 + furthest(&FORMS, words))),
    }
}
