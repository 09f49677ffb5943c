//! Documents: what stands in them, and their classes.

use crate::worlds::classes::tell;
use crate::worlds::faults::{fault_value, outcome};
use crate::worlds::places::{fault_at, key_of, path};
use crate::worlds::texts::framed;
use call_rows::{Part, call_of, count_at, count_value, text_at, text_value};
use do_base::{Text, Value, Values};
use do_class::ClassTable;
use do_class_kinds::{Kinds, RuleTable};
use do_document::{
    Classes, ItemKind, Place, WorldFault, check_list, classes_of, known_keys, required, tables_at,
    text_of, value_at,
};
use do_grammar::is_text;
use do_native_acts::as_number;
use std::alloc::Global;
use std::test::Fail;
use toml::Table;

/// What a row calls.
#[derive(Clone, Copy)]
enum Call {
    Around,
    Classes,
    Document,
    KnownKeys,
    CheckList,
    Has,
    Text,
    CountTables,
    Path,
    FaultAt,
}

/// The words of the calls.
const CALLS: [(&[u8], Call); 10] = [
    (b"around", Call::Around),
    (b"classes", Call::Classes),
    (b"document", Call::Document),
    (b"known_keys", Call::KnownKeys),
    (b"check_list", Call::CheckList),
    (b"has", Call::Has),
    (b"text", Call::Text),
    (b"count_tables", Call::CountTables),
    (b"path", Call::Path),
    (b"fault_at", Call::FaultAt),
];

/// The last document, the last classes that were read, and what stands around texts.
#[derive(Drop)]
pub(crate) struct DocumentCalls {
    frame: Values,
    document: Table,
    classes: Classes,
    alloc: Global,
}

/// The document of a text.
fn document(alloc: Global, text: &Text) -> Result<Table, Fail> {
    let text = key_of(text)?;
    Ok(toml::table_from_str(alloc, text).map_err(|_| "no TOML")?)
}

/// The classes of a document.
fn read_classes(alloc: Global, document: &Table) -> Result<Classes, WorldFault> {
    let tables = tables_at(alloc, document, "class")?;
    if tables.len() > 256 {
        return Err(WorldFault::Memory);
    }
    classes_of(alloc, tables.as_slice())
}

/// The text at a key that must be there, or the fault.
fn text_there(alloc: Global, document: &Table, key: &str) -> Result<Text, WorldFault> {
    let value = required(alloc, document, Place::Top, key)?;
    let text = text_of(alloc, value, Place::Top, key)?;
    let copy = Text::from_slice(alloc, text.as_bytes())?;
    Ok(copy)
}

/// The kind of members of a list.
fn item_kind(word: &[u8]) -> ItemKind {
    if is_text(word, b"texts") {
        ItemKind::Text
    } else {
        ItemKind::Table
    }
}

/// Adds the keys that these texts are.
fn push_keys<'a>(keys: &mut Vec<&'a str>, texts: &'a Values) -> Result<(), Fail> {
    for at in 0..texts.len() {
        keys.push(key_of(text_at(texts, at)?)?)?;
    }
    Ok(())
}

impl DocumentCalls {
    /// An empty document, no classes, and nothing around texts.
    pub(crate) fn new(alloc: Global) -> Result<DocumentCalls, Fail> {
        let document = document(alloc, &Text::new(alloc))?;
        Ok(DocumentCalls {
            frame: Values::new(alloc),
            document,
            classes: Classes {
                table: ClassTable::new(alloc),
                kinds: Kinds::new(alloc),
                rules: RuleTable::new(alloc),
            },
            alloc,
        })
    }

    /// The text of these pieces, with what stands around them.
    fn framed(&self, pieces: &Values) -> Result<Text, Fail> {
        framed(&self.frame, pieces)
    }

    /// Keeps classes that were read.
    fn keep_classes(&mut self, read: Result<Classes, WorldFault>) -> Result<Value, Fail> {
        match read {
            Ok(classes) => {
                self.classes = classes;
                text_value(self.alloc, b"read")
            }
            Err(fault) => fault_value(self.alloc, &fault),
        }
    }

    /// Reads the classes of the text of these pieces.
    fn classes_in(&self, pieces: &Values) -> Result<Result<Classes, WorldFault>, Fail> {
        let text = self.framed(pieces)?;
        let document = document(self.alloc, &text)?;
        Ok(read_classes(self.alloc, &document))
    }

    /// Reads the classes of the text of these pieces, and keeps them.
    fn classes(&mut self, pieces: &Values) -> Result<Value, Fail> {
        let read = self.classes_in(pieces)?;
        self.keep_classes(read)
    }

    /// Reads the document of the text of these pieces.
    fn document(&mut self, pieces: &Values) -> Result<Value, Fail> {
        let text = self.framed(pieces)?;
        self.document = document(self.alloc, &text)?;
        Ok(Value::Nil)
    }

    /// Keeps what stands around texts.
    fn set_frame(&mut self, pieces: &Values) -> Result<Value, Fail> {
        self.frame = pieces.clone()?;
        Ok(Value::Nil)
    }

    /// Whether all keys of the document are among these.
    fn known_keys(&self, texts: &Values) -> Result<Value, Fail> {
        let mut keys = Vec::new(self.alloc);
        push_keys(&mut keys, texts)?;
        let found = known_keys(self.alloc, &self.document, Place::Top, keys.as_slice());
        outcome(self.alloc, b"known", found)
    }

    /// Whether a list has as many members as told, of a kind.
    fn check_list(&self, args: &Values) -> Result<Value, Fail> {
        let key = key_of(text_at(args, 0)?)?;
        let least = usize::from(count_at(args, 1)?);
        let most = usize::from(count_at(args, 2)?);
        let kind = item_kind(text_at(args, 3)?.as_slice());
        let found = check_list(
            self.alloc,
            &self.document,
            Place::Top,
            key,
            least,
            most,
            kind,
        );
        outcome(self.alloc, b"checked", found)
    }

    /// Whether the document has a key.
    fn has(&self, args: &Values) -> Result<Value, Fail> {
        let key = key_of(text_at(args, 0)?)?;
        Ok(as_number(value_at(&self.document, key).is_some()))
    }

    /// The text at a key of the document, or the fault.
    fn text(&self, args: &Values) -> Result<Value, Fail> {
        let key = key_of(text_at(args, 0)?)?;
        match text_there(self.alloc, &self.document, key) {
            Ok(text) => Ok(Value::Text(text)),
            Err(fault) => fault_value(self.alloc, &fault),
        }
    }

    /// How many tables stand at a key of the document.
    fn count_tables(&self, args: &Values) -> Result<Value, Fail> {
        let key = key_of(text_at(args, 0)?)?;
        count_value(tables_at(self.alloc, &self.document, key)?.len())
    }
}

impl Part for DocumentCalls {
    fn call(&mut self, word: &[u8], args: &Values) -> Result<Value, Fail> {
        match call_of(&CALLS, word) {
            Some(Call::Around) => self.set_frame(args),
            Some(Call::Classes) => self.classes(args),
            Some(Call::Document) => self.document(args),
            Some(Call::KnownKeys) => self.known_keys(args),
            Some(Call::CheckList) => self.check_list(args),
            Some(Call::Has) => self.has(args),
            Some(Call::Text) => self.text(args),
            Some(Call::CountTables) => self.count_tables(args),
            Some(Call::Path) => path(self.alloc, args),
            Some(Call::FaultAt) => fault_at(self.alloc, args),
            None => tell(self.alloc, &self.classes, word, args),
        }
    }
}
