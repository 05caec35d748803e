use super::cycle::{Kind, State, kinds_of};
use super::row::Row;
use case_text::hexadecimal;

/// What an instruction begins with.
#[derive(Clone, Copy, PartialEq, Eq)]
pub(crate) enum Begin {
    Opcode(u8),
    Nmi,
    Irq,
    Reset,
}

/// Reads what a word of a row begins.
fn begin_of(word: &str) -> Option<Begin> {
    match word {
        "NMI" => Some(Begin::Nmi),
        "IRQ" => Some(Begin::Irq),
        "reset" => Some(Begin::Reset),
        _ => Some(Begin::Opcode(hexadecimal(word)?)),
    }
}

/// A processor in the middle of an instruction.
pub(crate) trait Processor: Drop + Sized {
    type State: State;

    /// The number of states in which an instruction is run.
    const STATES: u8;

    /// Returns the state of a number below `STATES`.
    fn state(number: u8) -> Self::State;

    /// Returns the processor at the beginning of an instruction, after the fetch of its opcode if there is one.
    fn begun(state: &Self::State, begin: Begin) -> Self;

    /// Returns what the next cycle does on the bus.
    fn kind(&self) -> Kind;

    /// Makes the next cycle.
    fn go_on(&mut self);

    /// Whether the instruction that began isn't over.
    fn is_under_way(&self) -> bool;

    /// Whether it is over.
    fn has_ended(&self) -> bool;
}

/// Whether the next cycle is of this kind, in the middle of the instruction. Makes it.
fn follows<P: Processor>(processor: &mut P, kind: Kind) -> bool {
    let fits = processor.kind() == kind && processor.is_under_way();
    processor.go_on();
    fits
}

/// Whether an instruction makes just the cycles of a row in a state; `None` if the row names no cycle.
fn run<P: Processor>(row: &Row<'_>, begin: Begin, state: &P::State) -> Option<bool> {
    let mut processor = P::begun(state, begin);
    let opcode = match begin {
        Begin::Opcode(opcode) => opcode,
        _ => 0,
    };
    let mut fits = true;
    for cycle in row.cycles.split(',') {
        let cycle = cycle.trim();
        if cycle == "internal for ever" {
            for _ in 0..9 {
                fits = follows(&mut processor, Kind::Internal) && fits;
            }
            return Some(fits && processor.kind() == Kind::Internal && processor.is_under_way());
        }
        for kind in kinds_of(cycle, row.width, state, opcode)?.iter().flatten() {
            fits = follows(&mut processor, *kind) && fits;
        }
    }
    Some(fits && processor.has_ended() && processor.kind() == Kind::Fetch)
}

/// Runs what a word of a row begins in each state, and counts its opcode in `seen`. Returns how many instructions were
/// run, and whether all of them fit.
pub(crate) fn run_all<P: Processor>(
    row: &Row<'_>,
    word: &str,
    seen: &mut [u8; 256],
) -> (u64, bool) {
    let Some(begin) = begin_of(word) else {
        return (0, false);
    };
    if let Begin::Opcode(opcode) = begin {
        let place = usize::from(opcode);
        seen[place] = seen[place].saturating_add(1);
    }
    let mut runs = 0u64;
    let mut fits = true;
    for number in 0..P::STATES {
        runs = runs.saturating_add(1);
        fits = run::<P>(row, begin, &P::state(number)) == Some(true) && fits;
    }
    (runs, fits)
}
