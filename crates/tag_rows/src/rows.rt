//! Follows the lines of a file of rows.

use case_text::{hexadecimal, put};
use sound_tags::{Field, FieldRefused, NotSoundFile, Tags, put_tags};
use std::alloc::Global;
use std::io::{self, Write};
use tag_report::{ReportEnd, report};

/// The start of a sound file: its text and version, and that no tags follow.
const HEAD: &[u8; 37] = b"SNES-SPC700 Sound File Data v0.30\x1A\x1A\x1B\x1E";

/// The current row: a file, and the tags that are to be written.
#[derive(Drop)]
pub struct Rows {
    file: Vec<u8>,
    tags: Tags,
}

/// Returns the field of a name.
fn field_of(name: &str) -> Option<Field> {
    match name.as_bytes() {
        b"title" => Some(Field::Title),
        b"game" => Some(Field::Game),
        b"dumper" => Some(Field::Dumper),
        b"comment" => Some(Field::Comment),
        b"date" => Some(Field::Date),
        b"length" => Some(Field::Length),
        b"fade" => Some(Field::Fade),
        b"artist" => Some(Field::Artist),
        _ => None,
    }
}

/// Returns the name of a refusal of a text.
fn name_of(why: FieldRefused) -> &'static str {
    match why {
        FieldRefused::TooLong => "too long",
        FieldRefused::NotPrintable => "not printable",
        FieldRefused::NotANumber => "not a number",
    }
}

/// Returns the name of a refusal of a file.
fn cause_of(why: NotSoundFile) -> &'static str {
    match why {
        NotSoundFile::TooLong => "too long",
        NotSoundFile::TooShort => "too short",
        NotSoundFile::NoText => "no text",
    }
}

/// Puts the head at the front of a file that has room for it.
fn put_head(file: &mut [u8]) {
    if file.len() < HEAD.len() {
        return;
    }
    for (byte, head) in file.iter_mut().zip(HEAD.iter()) {
        *byte = *head;
    }
}

/// Returns a sound file of this many bytes, of which none is set behind its head.
fn file_of(alloc: Global, size: usize) -> Option<Vec<u8>> {
    let mut file = vec![in alloc; 0u8; size].ok()?;
    put_head(file.as_mut_slice());
    Some(file)
}

/// Fills bytes of a file.
fn fill(file: &mut [u8], words: &str) -> Option<()> {
    let (offset, rest) = words.split_once(" ")?;
    let (count, byte) = rest.split_once(" ")?;
    let from = hexadecimal::<usize>(offset)?;
    let to = from.checked_add(count.parse::<usize>().ok()?)?;
    let byte = hexadecimal::<u8>(byte)?;
    if to > file.len() || from > to {
        return None;
    }
    file[from..to].fill(byte);
    Some(())
}

/// Puts bytes into a file.
fn put_bytes(file: &mut [u8], words: &str) -> Option<()> {
    let (offset, digits) = words.split_once(" ")?;
    put(file, hexadecimal::<usize>(offset)?, digits)
}

/// Prints some bytes of a file.
fn show_bytes<R: Print>(rt: &R, file: &[u8], words: &str) -> io::Result<()> {
    let Some((from, to)) = words.split_once(" ") else {
        return println!(rt; "  not understood");
    };
    let (Some(from), Some(to)) = (hexadecimal::<usize>(from), hexadecimal::<usize>(to)) else {
        return println!(rt; "  not understood");
    };
    print!(rt; " ")?;
    for at in from..to {
        if at < file.len() {
            print!(rt; " {:02x}", file[at])?;
        }
    }
    println!(rt; "")
}

/// Prints the report of a file.
fn show<R: Print + AllocGlobal>(rt: &R, file: &[u8]) -> io::Result<()> {
    match report(rt.alloc(), file) {
        Ok(text) => io::writer(rt).write_all(text.as_slice()),
        Err(ReportEnd::Refused(why)) => println!(rt; "refused: {}", cause_of(why)),
        Err(ReportEnd::NoMemory) => println!(rt; "no memory"),
    }
}

impl Rows {
    /// No file.
    pub fn new(alloc: Global) -> Rows {
        Rows {
            file: Vec::new(alloc),
            tags: Tags::none(),
        }
    }

    /// Begins a file.
    fn begin(&mut self, alloc: Global, words: &str) -> Option<()> {
        let size = words.parse::<usize>().ok()?;
        self.file = file_of(alloc, size)?;
        self.tags = Tags::none();
        Some(())
    }

    /// Sets a tag.
    fn set<R: Print>(&mut self, rt: &R, words: &str) -> io::Result<()> {
        let (name, text) = match words.split_once(" ") {
            Some(pair) => pair,
            None => (words, ""),
        };
        let Some(field) = field_of(name) else {
            return println!(rt; "  not understood");
        };
        match self.tags.set(field, text) {
            Ok(()) => Ok(()),
            Err(why) => println!(rt; "  {name} refused: {}", name_of(why)),
        }
    }

    /// Writes the tags.
    fn write(&mut self) -> Option<()> {
        if self.file.len() < 256 {
            return None;
        }
        put_tags(&self.tags, self.file.as_mut_slice());
        Some(())
    }

    /// Follows a line that changes the file.
    fn change(&mut self, alloc: Global, word: &str, words: &str) -> Option<()> {
        match word.as_bytes() {
            b"file" => self.begin(alloc, words),
            b"put" => put_bytes(self.file.as_mut_slice(), words),
            b"fill" => fill(self.file.as_mut_slice(), words),
            b"write" => self.write(),
            _ => None,
        }
    }

    /// Follows a line.
    pub fn follow<R: Print + AllocGlobal>(&mut self, rt: &R, line: &str) -> io::Result<()> {
        let (word, words) = match line.split_once(" ") {
            Some(pair) => pair,
            None => (line, ""),
        };
        match word.as_bytes() {
            b"row" => println!(rt; "{words}"),
            b"set" => self.set(rt, words),
            b"bytes" => show_bytes(rt, self.file.as_slice(), words),
            b"show" => show(rt, self.file.as_slice()),
            _ => match self.change(rt.alloc(), word, words) {
                Some(()) => Ok(()),
                None => println!(rt; "  not understood: {line}"),
            },
        }
    }
}
