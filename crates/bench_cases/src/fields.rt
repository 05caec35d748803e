//! The keys of a table of a bench file, each of a known name and of the right kind.
//!
//! A table keeps the first fault that is found while it is read, and tells it at its end. What is read after a fault counts
//! for nothing. So whoever reads a table reads all of it, and nobody looks at each key.

use anyhow::{Error, Result, anyhow};
use std::alloc::{AllocError, Global};
use std::fmt;
use toml::{Table, Value};

/// A table of the file while it is read, and what messages call it.
#[derive(Drop)]
pub struct Fields<'a> {
    path: &'a str,
    table: &'a Table,
    /// The first fault.
    fault: Option<Error>,
}

/// Whether a name is one of these.
fn is_among(names: &[&str], name: &str) -> bool {
    for known in names {
        if *known == name {
            return true;
        }
    }
    false
}

/// The whole number of a value.
fn number_in(value: &Value, most: u32) -> Option<u32> {
    match value.as_integer() {
        Some(number) => match u32::try_from(number) {
            Ok(number) if number <= most => Some(number),
            _ => None,
        },
        None => None,
    }
}

/// Adds an item to a list.
fn push_to<T: Drop>(list: &mut Vec<T>, item: T) -> Result<()> {
    Ok(list.push(item)?)
}

impl<'a> Fields<'a> {
    /// Returns the fields of a table, which has only keys of these names.
    pub fn new(path: &'a str, table: &'a Table, known: &[&str]) -> Fields<'a> {
        let mut fields = Fields {
            path,
            table,
            fault: None,
        };
        for (key, _value) in table.iter() {
            if !is_among(known, key.as_str()) {
                fields.refuse(format_args!("the key {} is not known here", key.as_str()));
            }
        }
        fields
    }

    /// Keeps a fault, if it is the first.
    fn keep(&mut self, fault: Error) {
        if self.fault.is_none() {
            self.fault = Some(fault);
        }
    }

    /// Refuses the table for this reason.
    pub fn refuse<D: fmt::Display + Drop>(&mut self, reason: D) {
        let path = self.path;
        self.keep(anyhow!("{path}: {reason}"));
    }

    /// Keeps the fault of what was done, if there is one.
    pub fn note(&mut self, done: Result<()>) {
        if let Err(fault) = done {
            self.keep(fault);
        }
    }

    /// Returns what was made, unless memory ran out.
    fn made<T: Drop>(&mut self, made: Result<T, AllocError>) -> Option<T> {
        match made {
            Ok(made) => Some(made),
            Err(fault) => {
                self.keep(Error::from(fault));
                None
            }
        }
    }

    /// Adds an item to a list.
    pub fn push<T: Drop>(&mut self, list: &mut Vec<T>, item: T) {
        self.note(push_to(list, item));
    }

    /// Returns the first fault, if there is one.
    pub fn end(self) -> Result<()> {
        match self.fault {
            Some(fault) => Err(fault),
            None => Ok(()),
        }
    }

    /// What messages call a table of a list of this one: the list's key, and the table's place in it, from 1.
    pub fn path_of(&mut self, alloc: Global, key: &str, place: usize) -> Option<String> {
        let number = place.saturating_add(1);
        let path = self.path;
        self.made(format!(in alloc; "{path}, {key} {number}"))
    }

    /// Whether the key is there.
    pub fn has(&self, key: &str) -> bool {
        self.table.get(key).is_some()
    }

    /// The text of a key, if it is there, as it stands in the table.
    pub fn text_in(&mut self, key: &str) -> Option<&'a str> {
        let value = self.table.get(key)?;
        let text = value.as_str();
        if text.is_none() {
            self.refuse(format_args!("{key} is no text"));
        }
        text
    }

    /// A copy of the text of a key, if it is there.
    pub fn text(&mut self, alloc: Global, key: &str) -> Option<String> {
        let text = self.text_in(key)?;
        self.made(String::from_str(alloc, text))
    }

    /// A copy of the text of a key, which has to be there.
    pub fn needed_text(&mut self, alloc: Global, key: &str) -> String {
        match self.text(alloc, key) {
            Some(text) => text,
            None => {
                self.refuse(format_args!("{key} is missing"));
                String::new(alloc)
            }
        }
    }

    /// The number of a key, if it is there.
    pub fn number(&mut self, key: &str, most: u32) -> Option<u32> {
        let value = self.table.get(key)?;
        let number = number_in(value, most);
        if number.is_none() {
            self.refuse(format_args!("{key} is no whole number from 0 to {most}"));
        }
        number
    }

    /// The number of a key, which has to be there.
    pub fn needed_number(&mut self, key: &str, most: u32) -> u32 {
        match self.number(key, most) {
            Some(number) => number,
            None => {
                self.refuse(format_args!("{key} is missing"));
                0
            }
        }
    }

    /// The value that the text of a key stands for, if it is there: one of two.
    pub fn one_of<T: Copy>(&mut self, key: &str, one: (&str, T), other: (&str, T)) -> Option<T> {
        let text = self.text_in(key)?;
        let ((first, value), (second, other)) = (one, other);
        if text == first {
            return Some(value);
        }
        if text == second {
            return Some(other);
        }
        self.refuse(format_args!("{key} is neither {first} nor {second}"));
        None
    }

    /// The least and the most of a table of the two, by its key.
    fn bounds_in(&mut self, key: &str, table: &Table, most: u32) -> (u32, u32) {
        let mut both = Fields::new(self.path, table, &["least", "most"]);
        let least = both.number("least", most).unwrap_or(0);
        let greatest = both.number("most", most).unwrap_or(most);
        if greatest < least {
            both.refuse(format_args!("of {key} the least is above the most"));
        }
        self.note(both.end());
        (least, greatest)
    }

    /// The least and the most of a key, which is a number, or a table of the two.
    pub fn bounds(&mut self, key: &str, most: u32) -> Option<(u32, u32)> {
        match self.table.get(key)?.as_table() {
            Some(table) => Some(self.bounds_in(key, table, most)),
            None => {
                let number = self.number(key, most)?;
                Some((number, number))
            }
        }
    }

    /// The bytes of a text of hexadecimal digits.
    fn digits(&mut self, alloc: Global, key: &str, text: &str) -> Option<Vec<u8>> {
        match hex::decode(alloc, text) {
            Ok(bytes) if !bytes.is_empty() => Some(bytes),
            _ => {
                self.refuse(format_args!("{key} is no text of hexadecimal digits"));
                None
            }
        }
    }

    /// The bytes of a list of numbers.
    fn listed(&mut self, alloc: Global, key: &str, list: &[Value]) -> Vec<u8> {
        let mut bytes = Vec::new(alloc);
        for item in list {
            match number_in(item, 255) {
                Some(number) => self.push(&mut bytes, (number % 256) as u8),
                None => self.refuse(format_args!("{key} has what is no byte")),
            }
        }
        bytes
    }

    /// The bytes of a key: a list of numbers, or a text of hexadecimal digits.
    pub fn bytes(&mut self, alloc: Global, key: &str) -> Option<Vec<u8>> {
        let value = self.table.get(key)?;
        if let Some(text) = value.as_str() {
            return self.digits(alloc, key, text);
        }
        let bytes = match value.as_array() {
            Some(list) => self.listed(alloc, key, list.as_slice()),
            None => Vec::new(alloc),
        };
        if bytes.is_empty() {
            self.refuse(format_args!("{key} has no bytes"));
        }
        Some(bytes)
    }

    /// The texts of a key's list; none if it isn't there.
    pub fn texts(&mut self, alloc: Global, key: &str) -> Vec<&'a str> {
        let mut texts = Vec::new(alloc);
        let Some(value) = self.table.get(key) else {
            return texts;
        };
        let Some(list) = value.as_array() else {
            self.refuse(format_args!("{key} is no list of texts"));
            return texts;
        };
        for item in list.as_slice() {
            match item.as_str() {
                Some(text) => self.push(&mut texts, text),
                None => self.refuse(format_args!("{key} is no list of texts")),
            }
        }
        texts
    }

    /// The tables of a key; none if it isn't there.
    pub fn tables(&mut self, alloc: Global, key: &str) -> Vec<&'a Table> {
        let mut tables = Vec::new(alloc);
        let Some(value) = self.table.get(key) else {
            return tables;
        };
        let Some(list) = value.as_array() else {
            self.refuse(format_args!("{key} is no list of tables: write [[{key}]]"));
            return tables;
        };
        for item in list.as_slice() {
            match item.as_table() {
                Some(table) => self.push(&mut tables, table),
                None => self.refuse(format_args!("{key} is no list of tables")),
            }
        }
        tables
    }
}
