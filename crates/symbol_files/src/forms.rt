//! The forms of symbol files, and the symbol of a line in each.

use crate::fields::field;
use crate::numbers::{address_of, banked_of, hex_of};

/// A form of symbol files.
#[derive(Clone, Copy)]
pub enum Form {
    /// VICE labels, as `ld65 -Ln` writes them: `al 008000 .name`.
    Vice,
    /// The debug file of `ld65 --dbgfile`: `sym` and fields.
    Debug,
    /// The symbol file of WLA-DX, which asar writes, too: `[labels]`, then `00:8000 name`.
    Sections,
    /// A plain list: `008000 name`, `$008000 name` or `name = $008000`.
    Plain,
}

/// A section of a file of WLA-DX.
#[derive(Clone, Copy)]
pub enum Section {
    /// Labels: `BB:AAAA name`.
    Labels,
    /// Values: `XXXXXXXX name`.
    Values,
    /// A section without symbols.
    Other,
}

/// What a line has.
#[derive(Clone, Copy)]
pub enum Item<'a> {
    /// The name of an address.
    Label(&'a str, u32),
    /// The name of a value, which need not be an address.
    Value(&'a str, u32),
    /// The head of a section.
    Head(Section),
    /// Nothing that is read.
    Nothing,
}

/// The first words of the lines of a debug file.
static DEBUG_WORDS: [&str; 12] = [
    "version", "info", "csym", "file", "lib", "line", "mod", "scope", "seg", "span", "sym", "type",
];

impl Form {
    /// What messages call it.
    pub fn name(self) -> &'static str {
        match self {
            Form::Vice => "VICE labels (al 008000 .name)",
            Form::Debug => "a debug file of ld65",
            Form::Sections => "a symbol file of WLA-DX (00:8000 name)",
            Form::Plain => "a list of symbols (008000 name, or name = $008000)",
        }
    }
}

/// Returns two words, if there are no more and no fewer.
fn two_words(text: &str) -> Option<(&str, &str)> {
    let mut words = text.split_whitespace();
    let first = words.next()?;
    let second = words.next()?;
    match words.next() {
        Some(_) => None,
        None => Some((first, second)),
    }
}

/// Reads a line of VICE labels.
fn vice_item(text: &str) -> Option<Item<'_>> {
    let (address, dotted) = two_words(text.strip_prefix("al ")?)?;
    let name = dotted.strip_prefix(".")?;
    if name.is_empty() {
        return None;
    }
    let digits = match address.strip_prefix("C:") {
        Some(digits) => digits,
        None => address,
    };
    Some(Item::Label(name, address_of(digits)?))
}

/// Reads the fields of a symbol of a debug file.
fn debug_symbol(fields: &str) -> Option<Item<'_>> {
    let name = field(fields, "name")?;
    let kind = field(fields, "type")?;
    if kind == "imp" {
        return Some(Item::Nothing);
    }
    let digits = field(fields, "val")?.strip_prefix("0x")?;
    let value = hex_of(digits)?;
    match (kind == "lab", address_of(digits)) {
        (true, Some(address)) => Some(Item::Label(name, address)),
        (true, None) => None,
        (false, _) => Some(Item::Value(name, value)),
    }
}

/// Whether a line of a debug file begins with this word.
fn is_debug_word(word: &str) -> bool {
    for one in &DEBUG_WORDS {
        if *one == word {
            return true;
        }
    }
    false
}

/// Reads a line of a debug file.
fn debug_item(text: &str) -> Option<Item<'_>> {
    let (word, fields) = text.split_once("\t")?;
    if word == "sym" {
        return debug_symbol(fields);
    }
    if word == "version" && field(fields, "major")? != "2" {
        return None;
    }
    if is_debug_word(word) {
        Some(Item::Nothing)
    } else {
        None
    }
}

/// Reads the head of a section.
fn head_item(text: &str) -> Option<Item<'_>> {
    let name = text.strip_prefix("[")?.strip_suffix("]")?;
    Some(Item::Head(match name.as_bytes() {
        b"labels" => Section::Labels,
        b"definitions" => Section::Values,
        _ => Section::Other,
    }))
}

/// Reads a line of a section.
fn section_item(text: &str, section: Section) -> Option<Item<'_>> {
    if let Some(head) = head_item(text) {
        return Some(head);
    }
    match section {
        Section::Labels => {
            let (place, name) = two_words(text)?;
            let (bank, address) = place.split_once(":")?;
            Some(Item::Label(name, banked_of(bank, address)?))
        }
        Section::Values => {
            let (value, name) = two_words(text)?;
            Some(Item::Value(name, hex_of(value)?))
        }
        Section::Other => Some(Item::Nothing),
    }
}

/// Reads a line of a plain list.
fn plain_item(text: &str) -> Option<Item<'_>> {
    if let Some((name, value)) = text.split_once("=") {
        let name = name.trim();
        let digits = value.trim().strip_prefix("$")?;
        if name.is_empty() || name.contains(' ') {
            return None;
        }
        return Some(Item::Label(name, address_of(digits)?));
    }
    let (place, name) = two_words(text)?;
    let digits = match place.strip_prefix("$") {
        Some(digits) => digits,
        None => place,
    };
    Some(Item::Label(name, address_of(digits)?))
}

/// Reads a line of a form: what it has, or none if it isn't of that form.
pub fn item_of(form: Form, section: Section, text: &str) -> Option<Item<'_>> {
    match form {
        Form::Vice => vice_item(text),
        Form::Debug => debug_item(text),
        Form::Sections => section_item(text, section),
        Form::Plain => plain_item(text),
    }
}

/// Returns the form of a file by its first line with a text, or none.
pub fn form_of(text: &str) -> Option<Form> {
    if text.starts_with("version\t") {
        return Some(Form::Debug);
    }
    if text.starts_with("[") {
        return Some(Form::Sections);
    }
    if vice_item(text).is_some() {
        return Some(Form::Vice);
    }
    if plain_item(text).is_some() {
        return Some(Form::Plain);
    }
    None
}
