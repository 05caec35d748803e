//! Cases of the processor's registers, such as `data/io.txt`.
//!
//! A line `io K` begins with new registers. `w AAAAVV ..` are writes of addresses and bytes; `q AAAA
//! BUS H V BLANK GOT` is a read, with the byte last on the bus, line clock, line and vertical blank (1
//! where it has begun), and what it gets; `frame P1 P2`, `blank P1 P2` and `timer` are events. `reading V` begins an
//! auto-read that takes time, on line V. `l LEVELS KIND H V` are the levels of NMI and IRQ as two digits, and the
//! timer. H, V and KIND are decimal.

use crate::events::time_of;
use crate::line::Line;
use case_text::part;
use io_math::Io;
use snes_defs::Spot;

/// Whether the registers do what a line says. An unknown line doesn't hold.
pub fn act_as(io: &mut Io, line: &str) -> bool {
    let mut words = Line::new(line);
    match words.word() {
        Some("io") => {
            *io = Io::new();
            true
        }
        Some("end") => true,
        Some("w") => writes(io, words),
        Some("q") => reads(io, words).unwrap_or(false),
        Some("l") => levels(io, words).unwrap_or(false),
        Some("timer") => {
            io.timer();
            true
        }
        Some("reading") => match words.decimal() {
            Some(line) => {
                io.begin_read(line);
                true
            }
            None => false,
        },
        Some("frame") => match pads(words) {
            Some((first, second)) => {
                io.frame(first, second);
                true
            }
            None => false,
        },
        Some("blank") => match pads(words) {
            Some((first, second)) => {
                io.blank(first, second);
                true
            }
            None => false,
        },
        _ => false,
    }
}

/// Makes some writes, each an address and a byte in six digits.
fn writes(io: &mut Io, words: Line<'_>) -> bool {
    for text in words.rest() {
        let (Some(address), Some(value)) = (part(text, 0, 4), part(text, 4, 6)) else {
            return false;
        };
        io.write(address, value);
    }
    true
}

/// Whether a read gets what it is to get.
fn reads(io: &mut Io, mut words: Line<'_>) -> Option<bool> {
    let address = words.hexadecimal()?;
    let bus = words.hexadecimal()?;
    let spot = Spot {
        h: words.decimal()?,
        v: words.decimal()?,
        blank: words.bit()?,
    };
    let got = words.hexadecimal::<u8>()?;
    Some(io.read(address, bus, spot) == got)
}

/// Whether the levels and the timer are those of a line.
fn levels(io: &Io, mut words: Line<'_>) -> Option<bool> {
    let levels = words.hexadecimal::<u8>()?;
    let time = time_of(&mut words)?;
    let (nmi, irq) = io.interrupt_levels();
    let same = nmi == (levels / 16 == 1) && irq == (levels % 16 == 1);
    Some(same && io.irq_time() == time)
}

/// Reads the words of two pads.
fn pads(mut words: Line<'_>) -> Option<(u16, u16)> {
    Some((words.hexadecimal()?, words.hexadecimal()?))
}
