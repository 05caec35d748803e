use case_text::{hexadecimal, part};
use spc700::{Spc, SpcAccess, SpcRegs};
use std::str::SplitWhitespace;

/// Whether the processor makes the accesses of a case, and has its registers at the end. A line that
/// is not a case doesn't hold.
pub fn holds(line: &str) -> bool {
    result_of(line).unwrap_or(false)
}

/// Whether the processor makes the accesses of a case and has its registers at the end; `None` for a line that is not
/// a case.
fn result_of(line: &str) -> Option<bool> {
    let (before, rest) = line.split_once('|')?;
    let (_bytes, rest) = rest.split_once('|')?;
    let (accesses, after) = rest.split_once('|')?;
    let mut words = before.split_whitespace();
    let _kind = words.next()?;
    let _label = words.next()?;
    let mut spc = Spc::at(registers(words)?);
    for word in accesses.split_whitespace() {
        if !makes(&mut spc, word)? {
            return Some(false);
        }
    }
    Some(spc.regs() == registers(after.split_whitespace())?)
}

/// Reads the registers of a case.
fn registers(mut words: SplitWhitespace<'_>) -> Option<SpcRegs> {
    Some(SpcRegs {
        a: hexadecimal(words.next()?)?,
        x: hexadecimal(words.next()?)?,
        y: hexadecimal(words.next()?)?,
        sp: hexadecimal(words.next()?)?,
        pc: hexadecimal(words.next()?)?,
        psw: hexadecimal(words.next()?)?,
    })
}

/// Whether the next access is the one of this word; if so, makes it.
fn makes(spc: &mut Spc, word: &str) -> Option<bool> {
    let kind = *word.as_bytes().first()?;
    if kind == b'I' {
        return Some(agrees(spc, SpcAccess::Inner, 0));
    }
    let place = part(word, 1, 5)?;
    let value = part(word, 5, 7)?;
    match kind {
        b'F' => Some(agrees(spc, SpcAccess::Fetch(place), value)),
        b'R' => Some(agrees(spc, SpcAccess::Read(place), value)),
        b'W' => Some(agrees(spc, SpcAccess::Write(place, value), value)),
        _ => None,
    }
}

/// Whether the next access is this one. Makes it; a fetch or a read gets the byte.
fn agrees(spc: &mut Spc, access: SpcAccess, byte: u8) -> bool {
    let next = spc.next();
    match next {
        SpcAccess::Fetch(_) | SpcAccess::Read(_) => spc.took(byte),
        SpcAccess::Write(_, _) => spc.wrote(),
        SpcAccess::Inner => spc.idle(),
    }
    next == access
}
