//! Objects and arrays of JSON that are made value by value.
//!
//! What is added is a value, or says that memory ran out while the value was made. An object or array keeps that in mind
//! and says so at its end. So whoever makes one adds all that it has, and looks at the end alone.

use serde_json::{Map, Value, push, put};
use std::alloc::{AllocError, Global};
use std::fmt;

/// An object that is being made.
#[derive(Drop)]
pub(crate) struct Members {
    alloc: Global,
    members: Map<String, Value>,
    /// Whether memory ran out.
    lacks_memory: bool,
}

/// An array that is being made.
#[derive(Drop)]
pub(crate) struct Items {
    items: Vec<Value>,
    /// Whether memory ran out.
    lacks_memory: bool,
}

/// Adds a value to a list, if it could be made.
fn add_to(list: &mut Vec<Value>, value: Result<Value, AllocError>) -> Result<(), AllocError> {
    match value {
        Ok(value) => push(list, value),
        Err(error) => Err(error),
    }
}

/// Returns the value of a text, if it could be made.
fn text_value(text: Result<String, AllocError>) -> Result<Value, AllocError> {
    match text {
        Ok(text) => Ok(Value::String(text)),
        Err(error) => Err(error),
    }
}

impl Members {
    /// Returns an object without members.
    pub(crate) fn new(alloc: Global) -> Members {
        Members {
            alloc,
            members: Map::new(alloc),
            lacks_memory: false,
        }
    }

    /// Puts a value, if it could be made.
    fn put(&mut self, name: &str, value: Result<Value, AllocError>) -> Result<(), AllocError> {
        match value {
            Ok(value) => put(&mut self.members, self.alloc, name, value),
            Err(error) => Err(error),
        }
    }

    /// Adds a value.
    pub(crate) fn value(&mut self, name: &str, value: Result<Value, AllocError>) {
        if self.put(name, value).is_err() {
            self.lacks_memory = true;
        }
    }

    /// Adds a text.
    pub(crate) fn text(&mut self, name: &str, text: &str) {
        self.value(name, Value::try_from_str(self.alloc, text));
    }

    /// Adds a text that was made.
    pub(crate) fn made_text(&mut self, name: &str, text: Result<String, AllocError>) {
        self.value(name, text_value(text));
    }

    /// Adds what a value shows, as a text.
    pub(crate) fn shown<D: fmt::Display + Drop>(&mut self, name: &str, shown: D) {
        self.made_text(name, format!(in self.alloc; "{shown}"));
    }

    /// Adds a number.
    pub(crate) fn number(&mut self, name: &str, number: u64) {
        self.value(name, Ok(Value::from(number)));
    }

    /// Returns the object.
    pub(crate) fn end(self) -> Result<Value, AllocError> {
        if self.lacks_memory {
            Err(AllocError)
        } else {
            Ok(Value::Object(self.members))
        }
    }
}

impl Items {
    /// Returns an array without values.
    pub(crate) fn new(alloc: Global) -> Items {
        Items {
            items: Vec::new(alloc),
            lacks_memory: false,
        }
    }

    /// Adds a value.
    pub(crate) fn add(&mut self, value: Result<Value, AllocError>) {
        if add_to(&mut self.items, value).is_err() {
            self.lacks_memory = true;
        }
    }

    /// Returns the array.
    pub(crate) fn end(self) -> Result<Value, AllocError> {
        if self.lacks_memory {
            Err(AllocError)
        } else {
            Ok(Value::Array(self.items))
        }
    }
}

/// Returns an array of one value.
pub(crate) fn one(alloc: Global, value: Result<Value, AllocError>) -> Result<Value, AllocError> {
    let mut list = Items::new(alloc);
    list.add(value);
    list.end()
}

/// Returns the text of a value, with a line feed at its end.
pub(crate) fn written(
    alloc: Global,
    value: Result<Value, AllocError>,
) -> Result<Vec<u8>, AllocError> {
    let mut text = value?.to_vec_pretty(alloc)?;
    text.push(b'\n')?;
    Ok(text)
}
