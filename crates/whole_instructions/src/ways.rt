// The addressing modes: where the data of an instruction is, and what is looked at before it.
ghost use Rattle.std.specs.Prelude.{◌≡◌, ◌+◌, ◌*◌, ◌%◌, ◌==◌, ◌<◌, ◌≤◌, ◌^◌, not, IfSome, if◌then◌else◌};
ghost use Rattle.cpu_tables.specs.declared.mode.Mode.{Mode};
ghost use Rattle.cpu_modes.specs.declared.place.Reach.{Reach};
ghost use Rattle.cpu_modes.specs.Addresses.{has_index_cycle};
ghost use Rattle.whole_instructions.specs.Fetching.{HasCode, IsByteAt, IsPointer, Reaches};

use crate::code::{Code, joined, low_access};
use console_bus::Bus;
use cpu_modes::{
    PointerKind, Reach, Traffic, direct_address, direct_always, has_index_cycle, pointer_next,
};
use cpu_tables::{Mode, Regs};

/// Data that an instruction has come to.
#[derive(Clone, Copy)]
pub(crate) struct Reached {
    /// The bytes of the instruction after its opcode.
    pub(crate) operands: u16,
    /// The master clocks between the opcode and the data.
    pub(crate) clocks: u16,
    /// The address of the data, 24 bits.
    pub(crate) at: u32,
    /// The byte last on the data bus before the data.
    pub(crate) last: u8,
}

/// An addressing mode with data.
pub(crate) trait Way {
    const MODE: Mode;

    /// Where the high byte of the data is.
    const SECOND: Reach;

    ghost MODE: { Mode };

    ghost SECOND: { Reach };

    /// Looks at what comes before the data. None if a pointer does not lie in the memory.
    fn reach(regs: &Regs, bus: &Bus, code: Code, traffic: Traffic) -> Option<Reached>
        requires { HasCode bus.now regs.now code.at code.clocks }
        ensures reaches { IfSome result (λ reached. Reaches MODE SECOND bus.now regs.now traffic
            reached.operands reached.clocks reached.at reached.last) }
        ensures address { IfSome result (λ reached. reached.at < 2 ^ 24) }
        ensures few { IfSome result (λ reached. reached.clocks ≤ 2000) }
        ensures bytes { IfSome result (λ reached. reached.operands ≤ 3) };
}

/// Returns the clocks of the internal cycle for a direct register whose low byte isn't 0.
#[inline(always)]
fn low_clocks(regs: &Regs) -> u16
    ensures clocks { result ≡ (if not (regs.now.d % 256 == 0) then 6 else 0) }
    ensures few { result ≤ 6 }
{
    if regs.d % 256 != 0 { 6 } else { 0 }
}

/// Returns the clocks of the internal cycle that an indexed address may take.
#[inline(always)]
fn index_clocks(traffic: Traffic, regs: &Regs, at: u32, index: u16) -> u16
    requires { at < 2 ^ 24 }
    ensures clocks { result ≡ (if has_index_cycle traffic regs.now at index then 6 else 0) }
    ensures few { result ≤ 6 }
{
    if has_index_cycle(traffic, regs, at, index) {
        6
    } else {
        0
    }
}

/// `d`
pub(crate) struct Direct;

impl Way for Direct {
    const MODE: Mode = Mode::Direct;

    const SECOND: Reach = Reach::NextInBankZero;

    ghost MODE = { Mode.Direct };

    ghost SECOND = { Reach.NextInBankZero };

    #[tactic(auto, using(crate::proofs::Reaching::reaches_direct))]
    #[inline(always)]
    fn reach(regs: &Regs, bus: &Bus, code: Code, traffic: Traffic) -> Option<Reached> {
        let _traffic = traffic;
        let offset = code.first(regs, bus);
        Some(Reached {
            operands: 1,
            clocks: code.clocks + low_clocks(regs),
            at: direct_address(regs, offset as u16, 0),
            last: offset,
        })
    }
}

/// `d,X`
pub(crate) struct DirectX;

impl Way for DirectX {
    const MODE: Mode = Mode::DirectX;

    const SECOND: Reach = Reach::NextInBankZero;

    ghost MODE = { Mode.DirectX };

    ghost SECOND = { Reach.NextInBankZero };

    #[tactic(auto, using(crate::proofs::Reaching::reaches_direct_x))]
    #[inline(always)]
    fn reach(regs: &Regs, bus: &Bus, code: Code, traffic: Traffic) -> Option<Reached> {
        let _traffic = traffic;
        let offset = code.first(regs, bus);
        Some(Reached {
            operands: 1,
            clocks: code.clocks + low_clocks(regs) + 6,
            at: direct_address(regs, offset as u16, regs.x),
            last: offset,
        })
    }
}

/// `d,Y`
pub(crate) struct DirectY;

impl Way for DirectY {
    const MODE: Mode = Mode::DirectY;

    const SECOND: Reach = Reach::NextInBankZero;

    ghost MODE = { Mode.DirectY };

    ghost SECOND = { Reach.NextInBankZero };

    #[tactic(auto, using(crate::proofs::Reaching::reaches_direct_y))]
    #[inline(always)]
    fn reach(regs: &Regs, bus: &Bus, code: Code, traffic: Traffic) -> Option<Reached> {
        let _traffic = traffic;
        let offset = code.first(regs, bus);
        Some(Reached {
            operands: 1,
            clocks: code.clocks + low_clocks(regs) + 6,
            at: direct_address(regs, offset as u16, regs.y),
            last: offset,
        })
    }
}

/// `a`
pub(crate) struct Absolute;

impl Way for Absolute {
    const MODE: Mode = Mode::Absolute;

    const SECOND: Reach = Reach::NextAddress;

    ghost MODE = { Mode.Absolute };

    ghost SECOND = { Reach.NextAddress };

    #[tactic(auto, using(crate::proofs::Reaching::reaches_absolute))]
    #[inline(always)]
    fn reach(regs: &Regs, bus: &Bus, code: Code, traffic: Traffic) -> Option<Reached> {
        let _traffic = traffic;
        Some(Reached {
            operands: 2,
            clocks: 2 * code.clocks,
            at: 65536 * regs.dbr as u32 + code.word(regs, bus) as u32,
            last: code.second(regs, bus),
        })
    }
}

/// `a,X`
pub(crate) struct AbsoluteX;

impl Way for AbsoluteX {
    const MODE: Mode = Mode::AbsoluteX;

    const SECOND: Reach = Reach::NextAddress;

    ghost MODE = { Mode.AbsoluteX };

    ghost SECOND = { Reach.NextAddress };

    #[tactic(auto, using(crate::proofs::Reaching::reaches_absolute_x))]
    #[inline(always)]
    fn reach(regs: &Regs, bus: &Bus, code: Code, traffic: Traffic) -> Option<Reached> {
        let base = 65536 * regs.dbr as u32 + code.word(regs, bus) as u32;
        Some(Reached {
            operands: 2,
            clocks: 2 * code.clocks + index_clocks(traffic, regs, base, regs.x),
            at: (base + regs.x as u32) % 16777216,
            last: code.second(regs, bus),
        })
    }
}

/// `a,Y`
pub(crate) struct AbsoluteY;

impl Way for AbsoluteY {
    const MODE: Mode = Mode::AbsoluteY;

    const SECOND: Reach = Reach::NextAddress;

    ghost MODE = { Mode.AbsoluteY };

    ghost SECOND = { Reach.NextAddress };

    #[tactic(auto, using(crate::proofs::Reaching::reaches_absolute_y))]
    #[inline(always)]
    fn reach(regs: &Regs, bus: &Bus, code: Code, traffic: Traffic) -> Option<Reached> {
        let base = 65536 * regs.dbr as u32 + code.word(regs, bus) as u32;
        Some(Reached {
            operands: 2,
            clocks: 2 * code.clocks + index_clocks(traffic, regs, base, regs.y),
            at: (base + regs.y as u32) % 16777216,
            last: code.second(regs, bus),
        })
    }
}

/// `al`
pub(crate) struct Long;

impl Way for Long {
    const MODE: Mode = Mode::Long;

    const SECOND: Reach = Reach::NextAddress;

    ghost MODE = { Mode.Long };

    ghost SECOND = { Reach.NextAddress };

    #[tactic(auto, using(crate::proofs::Reaching::reaches_long))]
    #[inline(always)]
    fn reach(regs: &Regs, bus: &Bus, code: Code, traffic: Traffic) -> Option<Reached> {
        let _traffic = traffic;
        let bank = code.third(regs, bus);
        Some(Reached {
            operands: 3,
            clocks: 3 * code.clocks,
            at: 65536 * bank as u32 + code.word(regs, bus) as u32,
            last: bank,
        })
    }
}

/// `al,X`
pub(crate) struct LongX;

impl Way for LongX {
    const MODE: Mode = Mode::LongX;

    const SECOND: Reach = Reach::NextAddress;

    ghost MODE = { Mode.LongX };

    ghost SECOND = { Reach.NextAddress };

    #[tactic(auto, using(crate::proofs::Reaching::reaches_long_x))]
    #[inline(always)]
    fn reach(regs: &Regs, bus: &Bus, code: Code, traffic: Traffic) -> Option<Reached> {
        let _traffic = traffic;
        let bank = code.third(regs, bus);
        let base = 65536 * bank as u32 + code.word(regs, bus) as u32;
        Some(Reached {
            operands: 3,
            clocks: 3 * code.clocks,
            at: (base + regs.x as u32) % 16777216,
            last: bank,
        })
    }
}

/// `d,S`
pub(crate) struct StackRelative;

impl Way for StackRelative {
    const MODE: Mode = Mode::StackRelative;

    const SECOND: Reach = Reach::NextInBankZero;

    ghost MODE = { Mode.StackRelative };

    ghost SECOND = { Reach.NextInBankZero };

    #[tactic(auto, using(crate::proofs::Reaching::reaches_stack))]
    #[inline(always)]
    fn reach(regs: &Regs, bus: &Bus, code: Code, traffic: Traffic) -> Option<Reached> {
        let _traffic = traffic;
        let offset = code.first(regs, bus);
        Some(Reached {
            operands: 1,
            clocks: code.clocks + 6,
            at: (regs.s as u32 + offset as u32) % 65536,
            last: offset,
        })
    }
}

/// A byte of the memory that is looked at.
#[derive(Drop)]
struct Seen {
    byte: u8,
    /// Master clocks of the access.
    clocks: u16,
}

/// Looks at a byte. None if the address isn't memory.
#[inline(always)]
fn look(bus: &Bus, at: u32) -> Option<Seen>
    requires { at < 2 ^ 24 }
    ensures seen { IfSome result (λ seen. IsByteAt bus.now at seen.byte seen.clocks) }
    ensures few { IfSome result (λ seen. seen.clocks < 256) }
{
    let access = low_access(bus, at)?;
    Some(Seen {
        byte: bus.load(access.at),
        clocks: access.clocks,
    })
}

/// A pointer of two bytes.
#[derive(Drop)]
struct Pointer {
    word: u16,
    /// Its second byte.
    last: u8,
    /// Master clocks of both accesses.
    clocks: u16,
}

/// Looks at a pointer. None if it does not lie in the memory.
#[inline(always)]
fn look_at_pointer(kind: PointerKind, regs: &Regs, bus: &Bus, at: u32) -> Option<Pointer>
    requires { at < 2 ^ 24 }
    ensures there { IfSome result (λ p. IsPointer kind bus.now regs.now at p.word p.last p.clocks) }
    ensures few { IfSome result (λ p. p.clocks ≤ 510) }
{
    let low = look(bus, at)?;
    let high = look(bus, pointer_next(kind, regs, at))?;
    Some(Pointer {
        word: joined(low.byte, high.byte),
        last: high.byte,
        clocks: low.clocks + high.clocks,
    })
}

/// `(d)`
pub(crate) struct DirectPointer;

impl Way for DirectPointer {
    const MODE: Mode = Mode::DirectPointer;

    const SECOND: Reach = Reach::NextAddress;

    ghost MODE = { Mode.DirectPointer };

    ghost SECOND = { Reach.NextAddress };

    #[tactic(auto, using(crate::proofs::Pointers::reaches_pointer))]
    #[inline(always)]
    fn reach(regs: &Regs, bus: &Bus, code: Code, traffic: Traffic) -> Option<Reached> {
        let _traffic = traffic;
        let place = direct_address(regs, code.first(regs, bus) as u16, 0);
        let p = look_at_pointer(PointerKind::Plain, regs, bus, place)?;
        Some(Reached {
            operands: 1,
            clocks: code.clocks + low_clocks(regs) + p.clocks,
            at: 65536 * regs.dbr as u32 + p.word as u32,
            last: p.last,
        })
    }
}

/// `(d,X)`
pub(crate) struct DirectXPointer;

impl Way for DirectXPointer {
    const MODE: Mode = Mode::DirectXPointer;

    const SECOND: Reach = Reach::NextAddress;

    ghost MODE = { Mode.DirectXPointer };

    ghost SECOND = { Reach.NextAddress };

    #[tactic(auto, using(crate::proofs::Pointers::reaches_x_pointer))]
    #[inline(always)]
    fn reach(regs: &Regs, bus: &Bus, code: Code, traffic: Traffic) -> Option<Reached> {
        let _traffic = traffic;
        let place = direct_address(regs, code.first(regs, bus) as u16, regs.x);
        let p = look_at_pointer(PointerKind::Plain, regs, bus, place)?;
        Some(Reached {
            operands: 1,
            clocks: code.clocks + low_clocks(regs) + 6 + p.clocks,
            at: 65536 * regs.dbr as u32 + p.word as u32,
            last: p.last,
        })
    }
}

/// `(d),Y`
pub(crate) struct DirectPointerY;

impl Way for DirectPointerY {
    const MODE: Mode = Mode::DirectPointerY;

    const SECOND: Reach = Reach::NextAddress;

    ghost MODE = { Mode.DirectPointerY };

    ghost SECOND = { Reach.NextAddress };

    #[tactic(auto, using(crate::proofs::Pointers::reaches_pointer_y))]
    #[inline(always)]
    fn reach(regs: &Regs, bus: &Bus, code: Code, traffic: Traffic) -> Option<Reached> {
        let place = direct_address(regs, code.first(regs, bus) as u16, 0);
        let p = look_at_pointer(PointerKind::Y, regs, bus, place)?;
        let base = 65536 * regs.dbr as u32 + p.word as u32;
        Some(Reached {
            operands: 1,
            clocks: code.clocks
                + low_clocks(regs)
                + p.clocks
                + index_clocks(traffic, regs, base, regs.y),
            at: (base + regs.y as u32) % 16777216,
            last: p.last,
        })
    }
}

/// `[d]`
pub(crate) struct DirectLongPointer;

impl Way for DirectLongPointer {
    const MODE: Mode = Mode::DirectLongPointer;

    const SECOND: Reach = Reach::NextAddress;

    ghost MODE = { Mode.DirectLongPointer };

    ghost SECOND = { Reach.NextAddress };

    #[tactic(auto, using(crate::proofs::Pointers::reaches_long_pointer))]
    #[inline(always)]
    fn reach(regs: &Regs, bus: &Bus, code: Code, traffic: Traffic) -> Option<Reached> {
        let _traffic = traffic;
        let place = direct_always(regs, code.first(regs, bus) as u16);
        let p = look_at_pointer(PointerKind::Long, regs, bus, place)?;
        let bank = look(bus, (place + 2) % 65536)?;
        Some(Reached {
            operands: 1,
            clocks: code.clocks + low_clocks(regs) + p.clocks + bank.clocks,
            at: 65536 * bank.byte as u32 + p.word as u32,
            last: bank.byte,
        })
    }
}

/// `[d],Y`
pub(crate) struct DirectLongPointerY;

impl Way for DirectLongPointerY {
    const MODE: Mode = Mode::DirectLongPointerY;

    const SECOND: Reach = Reach::NextAddress;

    ghost MODE = { Mode.DirectLongPointerY };

    ghost SECOND = { Reach.NextAddress };

    #[tactic(auto, using(crate::proofs::Pointers::reaches_long_pointer_y))]
    #[inline(always)]
    fn reach(regs: &Regs, bus: &Bus, code: Code, traffic: Traffic) -> Option<Reached> {
        let _traffic = traffic;
        let place = direct_always(regs, code.first(regs, bus) as u16);
        let p = look_at_pointer(PointerKind::LongY, regs, bus, place)?;
        let bank = look(bus, (place + 2) % 65536)?;
        Some(Reached {
            operands: 1,
            clocks: code.clocks + low_clocks(regs) + p.clocks + bank.clocks,
            at: (65536 * bank.byte as u32 + p.word as u32 + regs.y as u32) % 16777216,
            last: bank.byte,
        })
    }
}

/// `(d,S),Y`
pub(crate) struct StackPointerY;

impl Way for StackPointerY {
    const MODE: Mode = Mode::StackPointerY;

    const SECOND: Reach = Reach::NextAddress;

    ghost MODE = { Mode.StackPointerY };

    ghost SECOND = { Reach.NextAddress };

    #[tactic(auto, using(crate::proofs::Pointers::reaches_stack_pointer))]
    #[inline(always)]
    fn reach(regs: &Regs, bus: &Bus, code: Code, traffic: Traffic) -> Option<Reached> {
        let _traffic = traffic;
        let place = (regs.s as u32 + code.first(regs, bus) as u32) % 65536;
        let p = look_at_pointer(PointerKind::StackY, regs, bus, place)?;
        Some(Reached {
            operands: 1,
            clocks: code.clocks + 6 + p.clocks + 6,
            at: (65536 * regs.dbr as u32 + p.word as u32 + regs.y as u32) % 16777216,
            last: p.last,
        })
    }
}
