//! The lists of methods of a class, with the rules of a checker beside them.
ghost use Rattle.std.specs.Prelude.{◌≡◌, ◌≤◌, ◌+◌, ◌++◌, IfSome, IsTrue, OnOk, Some, codes, length};
ghost use Rattle.std.specs.{Prelude.map, Option.option_to_list};
ghost use Rattle.toml.specs.View.{table_view};
ghost use Rattle.do_grammar.specs.Names.{is_selector};
ghost use Rattle.do_check.specs.Rules.{IsRule};
ghost use Rattle.do_document.specs.Checks.{first_among, is_text_with, required};
ghost use Rattle.do_document.specs.ClassFaults.{entry_checks, entry_fault, is_rule, methods_fault};
ghost use Rattle.do_document.specs.{ClassFaults.rule_fault, Classes.rule_for};
ghost use Rattle.do_document.specs.{Document.{tables_at, text_at}, Finding.Finds, Lists.key_of};
ghost use Rattle.do_document.specs.Sound.{AreGood, AreMore, IsNextMethod, IsRuleOf};

use crate::document::{ItemKind, check_list, tables_at, text_required};
use crate::fault::WorldFault;
use crate::lists::MethodList;
use crate::methods::method_at;
use crate::place::Place;
use do_base::Text;
use do_check::{Rule, Rules, Verdict};
use do_class::{Method, Methods};
use std::alloc::{AllocError, Global};
use toml::Table;

/// The most methods of a class.
const MOST_METHODS: usize = 64;

/// The most bytes of a rule.
const MOST_RULE: usize = 255;

/// Methods that were read so far, and the rules of a checker for them.
#[derive(Drop)]
pub(crate) struct Listed {
    pub(crate) methods: Methods,
    pub(crate) rules: Rules,
}

/// A method of a list, and the rule that a checker has for it.
#[derive(Drop)]
struct Entry {
    method: Method,
    rule: Option<Rule>,
}

/// Whether a text can be a rule: it has 1 to 255 bytes.
fn is_rule(text: &Text) -> bool
    ensures { result ≡ is_rule text.now }
{
    1 <= text.len() && text.len() <= MOST_RULE
}

/// The text of the rule of a method that is denied.
fn rule_text(alloc: Global, table: &Table, place: Place) -> Result<Text, WorldFault>
    ensures { let t = table_view table.now in
        Finds (required place (codes "rule") (is_text_with is_rule) t)
        (λ text. (text_at (codes "rule") t ≡ Some text) × (length text ≤ 255)) result }
{
    let text = text_required(alloc, table, place, "rule")?;
    if !is_rule(&text) {
        return Err(place.wrong(alloc, "rule"));
    }
    Ok(text)
}

/// The rule that a checker has for a selector, in a table of a list; none in another class.
fn rule_at(
    alloc: Global,
    table: &Table,
    list: MethodList,
    place: Place,
    selector: &Text,
) -> Result<Option<Rule>, WorldFault>
    requires { IsTrue (is_selector selector.now) }
    ensures { let t = table_view table.now in Finds (rule_fault list place t)
        (λ rule. (rule_for list t selector.now ≡ rule) × IfSome rule IsRule) result }
{
    let verdict = match list {
        MethodList::Own => return Ok(None),
        MethodList::Allowed => Verdict::Forward,
        MethodList::Denied => Verdict::Deny(rule_text(alloc, table, place)?),
    };
    Ok(Some(Rule {
        selector: selector.clone()?,
        verdict,
    }))
}

/// A method of a list and its rule, behind other methods of the class.
fn entry_at(
    alloc: Global,
    table: &Table,
    list: MethodList,
    place: Place,
    methods: &Methods,
) -> Result<Entry, WorldFault>
    ensures { let t = table_view table.now in Finds (entry_checks list place methods.now t)
        (λ entry. IsNextMethod methods.now t entry.method × IsRuleOf list t entry.rule) result }
{
    let method = method_at(alloc, table, place, list.keys(), methods)?;
    let rule = rule_at(alloc, table, list, place, &method.selector)?;
    Ok(Entry { method, rule })
}

/// Adds a rule, if there is one.
fn push_rule(rules: &mut Rules, rule: Option<Rule>) -> Result<(), AllocError>
    ensures { OnOk result (rules.new ≡ rules.old ++ option_to_list rule) }
{
    match rule {
        Some(rule) => rules.push(rule),
        None => Ok(()),
    }
}

/// The methods of tables of a list, in their order, behind methods that the class has already.
fn entries_of(
    alloc: Global,
    tables: &[&Table],
    list: MethodList,
    class: usize,
    earlier: Listed,
) -> Result<Listed, WorldFault>
    requires room { length earlier.methods + length tables.now ≤ 64 }
    requires good { AreGood earlier.methods earlier.rules }
    ensures { let ts = map (λ t. table_view t.now) tables.now in
        Finds (first_among (entry_fault list class earlier.methods) ts)
        (λ now. AreMore list earlier.methods now.methods earlier.rules now.rules ts) result }
{
    let Listed {
        mut methods,
        mut rules,
    } = earlier;
    for (k, table) in tables.iter().enumerate() {
        let place = list.place(class, k);
        let Entry { method, rule } = entry_at(alloc, *table, list, place, &methods)?;
        methods.push(method)?;
        push_rule(&mut rules, rule)?;
    }
    Ok(Listed { methods, rules })
}

/// The methods of a list of a class, by its number, behind methods that the class has already; none
/// more where the list is missing. A class has at most 64 methods in all.
pub(crate) fn entries_at(
    alloc: Global,
    table: &Table,
    list: MethodList,
    class: usize,
    earlier: Listed,
) -> Result<Listed, WorldFault>
    requires { AreGood earlier.methods earlier.rules }
    ensures { let t = table_view table.now in
        Finds (methods_fault list earlier.methods class t)
        (λ now. AreMore list earlier.methods now.methods earlier.rules now.rules
        (tables_at (key_of list) t)) result }
{
    let room = MOST_METHODS - earlier.methods.len();
    check_list(
        alloc,
        table,
        Place::Class(class),
        list.key(),
        0,
        room,
        ItemKind::Table,
    )?;
    let tables = tables_at(alloc, table, list.key())?;
    entries_of(alloc, tables.as_slice(), list, class, earlier)
}
