use case_text::{Generator, hexadecimal, put};
use std::alloc::Global;
use std::str::SplitWhitespace;

/// A file that rows may name.
#[derive(Drop)]
struct NamedFile {
    name: String,
    bytes: Vec<u8>,
}

impl NamedFile {
    fn is_named(&self, name: &str) -> bool {
        self.name.as_str() == name
    }
}

/// The files that rows may name, the latest first.
#[derive(Drop)]
pub struct Files {
    alloc: Global,
    files: Vec<NamedFile>,
}

impl Files {
    /// Returns no files.
    pub fn new(alloc: Global) -> Files {
        Files {
            alloc,
            files: Vec::new(alloc),
        }
    }

    /// Returns the bytes of the latest file of that name.
    pub fn find(&self, name: &str) -> Option<&[u8]> {
        let file = self.files.iter().find(|file| file.is_named(name))?;
        Some(file.bytes.as_slice())
    }

    /// Adds a file.
    pub fn add(&mut self, name: &str, bytes: &[u8]) -> Option<()> {
        let file = NamedFile {
            name: String::from_str(self.alloc, name).ok()?,
            bytes: bytes.to_vec(self.alloc).ok()?,
        };
        self.files.insert(0, file).ok()
    }

    /// Follows a line that begins a file, or adds to the latest one.
    pub fn line(&mut self, line: &str) -> Option<()> {
        if let Some(name) = line.strip_prefix("file ") {
            return self.add(name, &[]);
        }
        if let Some(name) = line.strip_prefix("copy ") {
            let bytes = self.find(name)?.to_vec(self.alloc).ok()?;
            return self.append(bytes.as_slice());
        }
        if let Some(digits) = line.strip_prefix("hex ") {
            let bytes = hex::decode(self.alloc, digits).ok()?;
            return self.append(bytes.as_slice());
        }
        say_more(&mut self.latest()?.bytes, line)
    }

    /// Adds bytes to the latest file.
    fn append(&mut self, more: &[u8]) -> Option<()> {
        extend(&mut self.latest()?.bytes, more)
    }

    fn latest(&mut self) -> Option<&mut NamedFile> {
        self.files.as_mut_slice().get_mut(0)
    }
}

fn extend(bytes: &mut Vec<u8>, more: &[u8]) -> Option<()> {
    bytes.extend_from_slice(more).ok()
}

/// Follows a line that adds to a file without another file.
fn say_more(bytes: &mut Vec<u8>, line: &str) -> Option<()> {
    if let Some(text) = line.strip_prefix("text ") {
        return extend(bytes, text.as_bytes());
    }
    if let Some(text) = line.strip_prefix("line ") {
        extend(bytes, text.as_bytes())?;
        return bytes.push(b'\n').ok();
    }
    let mut words = line.split_whitespace();
    match words.next()?.as_bytes() {
        b"fill" => fill(bytes, words),
        b"put" => put(
            bytes.as_mut_slice(),
            hexadecimal(words.next()?)?,
            words.next()?,
        ),
        b"ramp" => ramp(bytes, words),
        b"noise" => noise(bytes, words),
        _ => None,
    }
}

/// Follows `fill COUNT BYTE`: adds COUNT times that byte.
fn fill(bytes: &mut Vec<u8>, mut words: SplitWhitespace<'_>) -> Option<()> {
    let count = words.next()?.parse::<u64>().ok()?;
    let byte = hexadecimal(words.next()?)?;
    for _ in 0..count {
        bytes.push(byte).ok()?;
    }
    Some(())
}

/// Follows `ramp STEP`: adds 512 numbers of two bytes, low byte first, of which number i is i times the step.
fn ramp(bytes: &mut Vec<u8>, mut words: SplitWhitespace<'_>) -> Option<()> {
    let step = words.next()?.parse::<u64>().ok()?;
    let mut number = 0u64;
    for _ in 0..512 {
        bytes.push((number % 256) as u8).ok()?;
        bytes.push((number / 256 % 256) as u8).ok()?;
        number = number.checked_add(step)?;
    }
    Some(())
}

/// Follows `noise NUMBER COUNT`: adds COUNT bytes of the generator that begins with a number.
fn noise(bytes: &mut Vec<u8>, mut words: SplitWhitespace<'_>) -> Option<()> {
    let mut generator = Generator::new(words.next()?.parse().ok()?);
    let count = words.next()?.parse::<u64>().ok()?;
    for _ in 0..count {
        bytes.push(generator.byte(1)).ok()?;
    }
    Some(())
}
