//! The symbols of a file: the address of a name, and the name of an address.

use crate::forms::{Form, Item, Section, form_of, item_of};
use crate::refused::Refused;
use std::alloc::Global;

/// A name and what it stands for.
#[derive(Drop)]
struct Symbol {
    name: String,
    value: u32,
}

/// The symbols of a file.
#[derive(Drop)]
pub struct Symbols {
    /// The names of addresses, by address; those of one address in the order of the file.
    labels: Vec<Symbol>,
    /// The names of values, in the order of the file.
    values: Vec<Symbol>,
}

/// What a name stands for.
#[derive(Clone, Copy, Debug, PartialEq, Eq)]
pub enum Found {
    /// The file doesn't have it.
    Nothing,
    /// This address or value, on each line that has the name.
    One(u32),
    /// Different ones: the name stands on several lines, as local labels do.
    Several,
}

/// Returns what a name stands for, given also by a list of symbols.
fn find_among(symbols: &[Symbol], name: &str, before: Found) -> Found {
    let mut found = before;
    for symbol in symbols {
        if symbol.name.as_str() == name {
            found = match found {
                Found::One(value) if value == symbol.value => found,
                Found::Nothing => Found::One(symbol.value),
                _ => Found::Several,
            };
        }
    }
    found
}

/// Returns how many of the symbols, which lie by their values, are below a value.
fn count_below(symbols: &[Symbol], value: u32) -> usize {
    let mut first = 0usize;
    let mut left = symbols.len();
    for _ in 0..64 {
        if left == 0 {
            break;
        }
        let half = left / 2;
        match symbols.get(first.saturating_add(half)) {
            Some(middle) if middle.value < value => {
                first = first.saturating_add(half).saturating_add(1);
                left = left - half - 1;
            }
            _ => left = half,
        }
    }
    first
}

/// Reads a file, line after line.
#[derive(Drop)]
struct Reader {
    form: Option<Form>,
    section: Section,
    symbols: Symbols,
}

impl Reader {
    /// Keeps what a line has.
    fn keep(&mut self, alloc: Global, item: Item<'_>) -> Result<(), Refused> {
        match item {
            Item::Label(name, value) => {
                let name = String::from_str(alloc, name)?;
                self.symbols.labels.push(Symbol { name, value })?;
            }
            Item::Value(name, value) => {
                let name = String::from_str(alloc, name)?;
                self.symbols.values.push(Symbol { name, value })?;
            }
            Item::Head(section) => self.section = section,
            Item::Nothing => {}
        }
        Ok(())
    }

    /// Reads the line of this number.
    fn read_line(&mut self, alloc: Global, number: u64, text: &str) -> Result<(), Refused> {
        let form = match self.form {
            Some(form) => form,
            None => match form_of(text) {
                Some(form) => form,
                None => return Err(Refused::Unknown(number)),
            },
        };
        self.form = Some(form);
        match item_of(form, self.section, text) {
            Some(item) => self.keep(alloc, item),
            None => Err(Refused::Line(number, form.name())),
        }
    }
}

impl Symbols {
    /// Reads the symbols of a file. Empty lines and those that begin with `;` are left out.
    pub fn read(alloc: Global, text: &str) -> Result<Symbols, Refused> {
        let mut reader = Reader {
            form: None,
            section: Section::Other,
            symbols: Symbols {
                labels: Vec::new(alloc),
                values: Vec::new(alloc),
            },
        };
        let mut number = 0u64;
        for line in text.lines() {
            number = number.saturating_add(1);
            let text = line.trim();
            if !text.is_empty() && !text.starts_with(";") {
                reader.read_line(alloc, number, text)?;
            }
        }
        let mut symbols = reader.symbols;
        if symbols.labels.is_empty() && symbols.values.is_empty() {
            return Err(Refused::Empty);
        }
        symbols.labels.sort_by_key(|symbol| symbol.value)?;
        Ok(symbols)
    }

    /// Returns how many labels there are.
    pub fn count(&self) -> usize {
        self.labels.len()
    }

    /// Returns a label and its address, by its place in the order of addresses.
    pub fn label(&self, place: usize) -> Option<(&str, u32)> {
        let label = self.labels.as_slice().get(place)?;
        Some((label.name.as_str(), label.value))
    }

    /// Returns what a name stands for.
    pub fn find(&self, name: &str) -> Found {
        find_among(
            self.values.as_slice(),
            name,
            find_among(self.labels.as_slice(), name, Found::Nothing),
        )
    }

    /// Returns the address or value of a name, if the file has it, and only one.
    pub fn address_of(&self, name: &str) -> Option<u32> {
        match self.find(name) {
            Found::One(value) => Some(value),
            _ => None,
        }
    }

    /// Returns the label at an address, the first of the file.
    pub fn name_of(&self, address: u32) -> Option<&str> {
        let labels = self.labels.as_slice();
        match labels.get(count_below(labels, address)) {
            Some(label) if label.value == address => Some(label.name.as_str()),
            _ => None,
        }
    }

    /// Returns the last label at an address or before it, in the same bank, and how far behind it the address is.
    pub fn nearest(&self, address: u32) -> Option<(&str, u32)> {
        let labels = self.labels.as_slice();
        let count = count_below(labels, address.saturating_add(1));
        let last = labels.get(count.checked_sub(1)?)?;
        let offset = address.checked_sub(last.value)?;
        if last.value / 65_536 != address / 65_536 {
            return None;
        }
        Some((self.name_of(last.value)?, offset))
    }
}
