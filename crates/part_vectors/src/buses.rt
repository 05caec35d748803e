//! Cases of the registers on the bus, such as `data/bus_worked.txt`: what differs by profile.
//!
//! A line `bus K REGION PROFILE P1 P2 Q1 Q2` begins with a new bus, `ntsc` or `pal` and `first` or `second`. P1 and P2
//! are the pads' words in frame 0, Q1 and Q2 those in frame 1. `to H V` advances the beam up to a line clock of a line,
//! with the events of the frame, of vertical blank and of the timer. `w AAAAVV ..` are writes of addresses and bytes.
//! `q AAAA GOT` is a read, and what it gets. `l LEVELS` are the levels of NMI and IRQ as two digits. H and V are
//! decimal.
ghost use Rattle.std.specs.Prelude.{◌≡◌};

use crate::line::Line;
use beam::Happens;
use case_text::part;
use console_bus::Bus;
use snes_defs::{Bytes, Cart, MapKind, NoMemory, Profile, Region, Span, Spans};
use std::alloc::Global;

/// No frame has as many places of the beam: an upper bound for a loop.
const PLACES: u32 = 100_000;

/// The current case: its bus, if it has begun.
#[derive(Drop)]
pub struct BusCase {
    alloc: Global,
    bus: Option<Bus>,
}

impl BusCase {
    /// Returns a case that has not begun.
    pub fn new(alloc: Global) -> BusCase {
        BusCase { alloc, bus: None }
    }

    /// Whether a line holds. One that only says what to do holds, and one that can't be read doesn't.
    pub fn holds(&mut self, line: &str) -> bool {
        self.result_of(line).unwrap_or(false)
    }

    /// Does a line, and returns whether it holds; `None` for a line that can't be read.
    fn result_of(&mut self, line: &str) -> Option<bool> {
        let mut words = Line::new(line);
        match words.word()? {
            "bus" => self.begins(words),
            "to" => advances(self.bus.as_mut()?, words),
            "w" => writes(self.bus.as_mut()?, words),
            "q" => reads(self.bus.as_mut()?, words),
            "l" => levels(self.bus.as_ref()?, words),
            kind => Some(kind == "end"),
        }
    }

    /// Begins with a new bus.
    fn begins(&mut self, mut words: Line<'_>) -> Option<bool> {
        let _number = words.word()?;
        let region = match words.word()? {
            "ntsc" => Region::Ntsc,
            "pal" => Region::Pal,
            _ => return None,
        };
        let profile = match words.word()? {
            "first" => Profile::First,
            "second" => Profile::Second,
            _ => return None,
        };
        let first = (words.hexadecimal()?, words.hexadecimal()?);
        let second = (words.hexadecimal()?, words.hexadecimal()?);
        self.bus = bus_of(self.alloc, region, profile, first, second).ok();
        Some(self.bus.is_some())
    }
}

/// Returns the bus of a cartridge of zeros, and of a script with the pads of two frames.
fn bus_of(
    alloc: Global,
    region: Region,
    profile: Profile,
    first: (u16, u16),
    second: (u16, u16),
) -> Result<Bus, NoMemory> {
    let Ok(rom) = vec![in alloc; 0u8; 32_768] else {
        return Err(NoMemory);
    };
    let cart = Cart {
        map: MapKind::LoRom,
        rom: Bytes::of(rom),
        ram: 0,
    };
    let Ok(spans) = Vec::from_array(alloc, [span(first), span(second)]) else {
        return Err(NoMemory);
    };
    let script = Spans::versioned(spans, region, profile, Vec::new(alloc));
    Bus::new(alloc, &cart, &script, region)
}

/// Returns a span of one frame.
fn span(pads: (u16, u16)) -> Span
    ensures { result.count ≡ 1 }
{
    Span {
        count: 1,
        pad1: pads.0,
        pad2: pads.1,
    }
}

/// Advances the beam up to a line clock of a line.
fn advances(bus: &mut Bus, mut words: Line<'_>) -> Option<bool> {
    let h = words.decimal::<u16>()?;
    let v = words.decimal::<u16>()?;
    for _ in 0..PLACES {
        let ahead = bus.place_ahead();
        if bus.scanline() == v && h < ahead {
            let here = ahead.checked_sub(bus.clocks_left())?;
            bus.go_on(h.checked_sub(here)?);
            return Some(true);
        }
        let happens = bus.reach();
        happen(bus, happens);
    }
    None
}

/// Makes the events of the frame, of vertical blank and of the timer.
fn happen(bus: &mut Bus, happens: Happens) {
    if happens.line && bus.scanline() == 0 {
        bus.begin_frame();
    }
    if happens.blank {
        bus.begin_blank();
    }
    if happens.timer {
        bus.fire();
    }
}

/// Makes some writes, each an address of bank 0 and a byte in six digits.
fn writes(bus: &mut Bus, words: Line<'_>) -> Option<bool> {
    for text in words.rest() {
        let address: u16 = part(text, 0, 4)?;
        let place = bus.place(address as u32);
        bus.write_place(place, part(text, 4, 6)?);
    }
    Some(true)
}

/// Whether a read at an address of bank 0 gets what it is to get. The byte is last on the bus then.
fn reads(bus: &mut Bus, mut words: Line<'_>) -> Option<bool> {
    let address: u16 = words.hexadecimal()?;
    let got = words.hexadecimal::<u8>()?;
    let place = bus.place(address as u32);
    Some(bus.read_place(place, 0) == got)
}

/// Whether the levels of NMI and IRQ are those of a line.
fn levels(bus: &Bus, mut words: Line<'_>) -> Option<bool> {
    let wanted = words.hexadecimal::<u8>()?;
    let (nmi, irq) = bus.interrupt_levels();
    Some(nmi == (wanted / 16 == 1) && irq == (wanted % 16 == 1))
}
