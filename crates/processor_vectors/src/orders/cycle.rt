use super::row::Width;

/// What a cycle does on the bus.
#[derive(Clone, Copy, PartialEq, Eq)]
pub(crate) enum Kind {
    Fetch,
    Read,
    Write,
    Internal,
}

/// A state in which an instruction is run, as far as the cycles of a row depend on it.
pub(crate) trait State: Copy {
    /// Whether an operation of this width has 16 bits.
    fn is_wide(&self, width: Width) -> bool;

    /// Whether a condition of a cycle holds for this opcode; `None` for one that the page doesn't name.
    fn holds(&self, condition: &str, opcode: u8) -> Option<bool>;
}

/// The cycles that a cycle of a row stands for: up to five kinds, one after another.
pub(crate) type Kinds = [Option<Kind>; 5];

const NOTHING: Kinds = [None, None, None, None, None];

/// Returns one cycle, or two of this kind if the operation is wide.
fn by_width(kind: Kind, wide: bool) -> Kinds {
    [
        Some(kind),
        if wide { Some(kind) } else { None },
        None,
        None,
        None,
    ]
}

/// Returns the kinds of a cycle without its condition, as the pages name it.
fn named(name: &str, wide: bool) -> Option<Kinds> {
    if name == "change data" {
        let write = Some(Kind::Write);
        let read = Some(Kind::Read);
        let again = if wide { (read, write) } else { (None, None) };
        return Some([read, again.0, Some(Kind::Internal), write, again.1]);
    }
    let first = name.split_whitespace().next()?;
    let kind = match first {
        "offset" | "low" | "high" | "bank" | "operand" | "source" | "destination" | "immediate" =>
            Kind::Fetch,
        "pointer" | "pull" | "vector" | "read" => Kind::Read,
        "push" | "write" => Kind::Write,
        "internal" => Kind::Internal,
        _ => return None,
    };
    let doubles = name == "immediate" || name.ends_with(" data");
    Some(by_width(kind, wide && doubles))
}

/// Returns what a cycle of a row stands for in a state; `None` for one that no page names.
pub(crate) fn kinds_of<S: State>(
    cycle: &str,
    width: Width,
    state: &S,
    opcode: u8,
) -> Option<Kinds> {
    let wide = state.is_wide(width);
    match cycle.split_once(" if ") {
        None => named(cycle, wide),
        Some((name, condition)) => {
            let kinds = named(name, wide)?;
            Some(if state.holds(condition, opcode)? {
                kinds
            } else {
                NOTHING
            })
        }
    }
}
