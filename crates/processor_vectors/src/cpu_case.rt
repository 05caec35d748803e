use case_text::{hexadecimal, part};
use cpu_tables::{Access, Regs};
use cpu65816::Cpu;
use std::str::SplitWhitespace;

/// Whether the processor makes the accesses of a case, and has its registers at the end. A line that
/// is not a case doesn't hold.
pub fn holds(line: &str) -> bool {
    result_of(line).unwrap_or(false)
}

/// Whether the processor makes the accesses of a case and has its registers at the end; `None` for a line that is not
/// a case.
fn result_of(line: &str) -> Option<bool> {
    let (before, rest) = line.split_once('|')?;
    let (_bytes, rest) = rest.split_once('|')?;
    let (accesses, after) = rest.split_once('|')?;
    let mut words = before.split_whitespace();
    let _kind = words.next()?;
    let label = words.next()?;
    let start = registers(words)?;
    let mut cpu = if label == "reset" {
        Cpu::new()
    } else {
        Cpu::between(start)
    };
    for word in accesses.split_whitespace() {
        if !makes(&mut cpu, word)? {
            return Some(false);
        }
    }
    Some(cpu.regs() == registers(after.split_whitespace())?)
}

/// Reads the registers of a case.
fn registers(mut words: SplitWhitespace<'_>) -> Option<Regs> {
    Some(Regs {
        a: hexadecimal(words.next()?)?,
        x: hexadecimal(words.next()?)?,
        y: hexadecimal(words.next()?)?,
        s: hexadecimal(words.next()?)?,
        d: hexadecimal(words.next()?)?,
        pc: hexadecimal(words.next()?)?,
        pbr: hexadecimal(words.next()?)?,
        dbr: hexadecimal(words.next()?)?,
        p: hexadecimal(words.next()?)?,
        e: hexadecimal::<u8>(words.next()?)? == 1,
    })
}

/// Whether the next access is the one of this word; if so, makes it. `S` only sets the two levels.
fn makes(cpu: &mut Cpu, word: &str) -> Option<bool> {
    let kind = *word.as_bytes().first()?;
    if kind == b'S' {
        let (nmi, irq) = (part::<u8>(word, 1, 2)?, part::<u8>(word, 2, 3)?);
        cpu.signal(nmi == 1, irq == 1);
        return Some(true);
    }
    if kind == b'I' {
        return Some(agrees(cpu, Access::Inner, 0));
    }
    let place = part(word, 1, 7)?;
    let value = part(word, 7, 9)?;
    match kind {
        b'F' => Some(agrees(cpu, Access::Fetch(place), value)),
        b'R' => Some(agrees(cpu, Access::Read(place), value)),
        b'W' => Some(agrees(cpu, Access::Write(place, value), value)),
        _ => None,
    }
}

/// Whether the next access is this one. Makes it; a fetch or a read gets the byte.
fn agrees(cpu: &mut Cpu, access: Access, byte: u8) -> bool {
    let next = cpu.next();
    match next {
        Access::Fetch(_) | Access::Read(_) => cpu.took(byte),
        Access::Write(_, _) => cpu.wrote(),
        Access::Inner => cpu.idle(),
    }
    next == access
}
