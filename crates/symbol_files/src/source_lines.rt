//! The lines of source in a debug file of ld65, and the bytes of the output file that each made.

use crate::fields::field;
use crate::numbers::decimal_of;
use crate::refused::Refused;
use std::alloc::Global;

/// What messages call the file.
const FORM: &str = "a debug file of ld65";

/// A part of a segment that a line made.
#[derive(Clone, Copy)]
struct Piece {
    segment: u32,
    start: u32,
    size: u32,
    /// Whether data was declared there.
    is_data: bool,
}

/// Bytes of the output file that a line of source made.
#[derive(Clone, Copy)]
pub struct SourceLine {
    /// The file of source, by its number from 0.
    pub file: u32,
    /// The number of the line, from 1.
    pub line: u32,
    /// The first of its bytes in the output file.
    pub first: u32,
    /// How many bytes there are.
    pub size: u32,
}

/// The lines of source of a program, and the bytes of the output file that they made. Declarations of data are left
/// out.
#[derive(Drop)]
pub struct SourceLines {
    /// The names of the files, as the assembler was given them.
    files: Vec<String>,
    /// By file and line.
    lines: Vec<SourceLine>,
}

/// What the lines of a debug file name by its number.
#[derive(Drop)]
struct Parts {
    files: Vec<String>,
    /// Where each segment begins in the output file, if it is in it.
    segments: Vec<Option<u32>>,
    pieces: Vec<Piece>,
}

/// Whether the line with these fields is that of the next number.
fn is_next(fields: &str, count: usize) -> bool {
    match field(fields, "id") {
        Some(id) => id.parse::<usize>().ok() == Some(count),
        None => false,
    }
}

/// Returns the number of a field in decimal digits.
fn decimal_in(fields: &str, key: &str) -> Option<u32> {
    decimal_of(field(fields, key)?)
}

/// Returns the part of a segment with these fields.
fn piece_of(fields: &str) -> Option<Piece> {
    Some(Piece {
        segment: decimal_in(fields, "seg")?,
        start: decimal_in(fields, "start")?,
        size: decimal_in(fields, "size")?,
        is_data: field(fields, "type").is_some(),
    })
}

impl Parts {
    /// Reads the line of a file, of a segment or of a part of one; returns whether it can be read.
    fn read_line(&mut self, alloc: Global, word: &str, fields: &str) -> Result<bool, Refused> {
        match word.as_bytes() {
            b"file" => match field(fields, "name") {
                Some(name) if is_next(fields, self.files.len()) => {
                    self.files.push(String::from_str(alloc, name)?)?;
                    Ok(true)
                }
                _ => Ok(false),
            },
            b"seg" => {
                if !is_next(fields, self.segments.len()) {
                    return Ok(false);
                }
                self.segments.push(decimal_in(fields, "ooffs"))?;
                Ok(true)
            }
            b"span" => match piece_of(fields) {
                Some(piece) if is_next(fields, self.pieces.len()) => {
                    self.pieces.push(piece)?;
                    Ok(true)
                }
                _ => Ok(false),
            },
            _ => Ok(true),
        }
    }

    /// Returns the bytes of the output file that a part of a segment is, unless they are data.
    fn bytes_of(&self, id: u32) -> Option<(u32, u32)> {
        let piece = self.pieces.as_slice().get(id as usize)?;
        if piece.is_data || piece.size == 0 {
            return None;
        }
        let offset = (*self.segments.as_slice().get(piece.segment as usize)?)?;
        Some((offset.checked_add(piece.start)?, piece.size))
    }

    /// Adds the bytes of a line of source.
    fn add_line(&self, lines: &mut Vec<SourceLine>, fields: &str) -> Result<bool, Refused> {
        let (Some(file), Some(line)) = (decimal_in(fields, "file"), decimal_in(fields, "line"))
        else {
            return Ok(false);
        };
        let Some(spans) = field(fields, "span") else {
            return Ok(true);
        };
        for word in spans.split("+") {
            let Some(id) = decimal_of(word) else {
                return Ok(false);
            };
            if let Some((first, size)) = self.bytes_of(id) {
                lines.push(SourceLine {
                    file,
                    line,
                    first,
                    size,
                })?;
            }
        }
        Ok(true)
    }
}

/// Returns the files, segments and their parts of a debug file.
fn parts_of(alloc: Global, text: &str) -> Result<Parts, Refused> {
    let mut parts = Parts {
        files: Vec::new(alloc),
        segments: Vec::new(alloc),
        pieces: Vec::new(alloc),
    };
    let mut number = 0u64;
    for line in text.lines() {
        number = number.saturating_add(1);
        let is_read = match line.split_once("\t") {
            Some((word, fields)) => parts.read_line(alloc, word, fields)?,
            None => false,
        };
        if !is_read {
            return Err(Refused::Line(number, FORM));
        }
    }
    Ok(parts)
}

impl SourceLines {
    /// Reads the lines of source in a debug file of `ld65 --dbgfile`, of a program that was assembled with `-g`.
    pub fn read(alloc: Global, text: &str) -> Result<SourceLines, Refused> {
        if !text.starts_with("version\tmajor=2,") {
            return Err(Refused::Line(1, FORM));
        }
        let parts = parts_of(alloc, text)?;
        let mut lines = Vec::new(alloc);
        let mut number = 0u64;
        for line in text.lines() {
            number = number.saturating_add(1);
            if let Some(fields) = line.strip_prefix("line\t") {
                if !parts.add_line(&mut lines, fields)? {
                    return Err(Refused::Line(number, FORM));
                }
            }
        }
        if lines.is_empty() {
            return Err(Refused::Empty);
        }
        lines.sort_by_key(|line| (line.file, line.line))?;
        let Parts { files, .. } = parts;
        Ok(SourceLines { files, lines })
    }

    /// Returns the lines, by file and line. A line stands there once for each run of its bytes.
    pub fn lines(&self) -> &[SourceLine] {
        self.lines.as_slice()
    }

    /// Returns the name of a file of source.
    pub fn name_of(&self, file: u32) -> Option<&str> {
        match self.files.as_slice().get(file as usize) {
            Some(name) => Some(name.as_str()),
            None => None,
        }
    }
}
