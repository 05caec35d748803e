/// The flag of P that gives the width of an operation.
#[derive(Clone, Copy)]
pub(crate) enum Width {
    /// Always 8 bits, or shown by the cycles themselves.
    None,
    /// 16 bits if M is 0.
    M,
    /// 16 bits if X is 0.
    X,
}

/// A row of a page's table of orders.
#[derive(Clone, Copy)]
pub(crate) struct Row<'a> {
    /// The opcodes in two digits each; or what begins without one: NMI, IRQ, reset.
    pub(crate) begins: &'a str,
    /// What the width of `data` and `immediate` depends on.
    pub(crate) width: Width,
    /// The cycles after the opcode's, with commas between.
    pub(crate) cycles: &'a str,
}

impl<'a> Row<'a> {
    /// Reads the row in a line of a page: one whose second cell is of opcodes and whose third is a width.
    pub(crate) fn of(line: &'a str) -> Option<Row<'a>> {
        let inner = line.trim().strip_prefix('|')?.strip_suffix('|')?;
        let (_instructions, rest) = inner.split_once('|')?;
        let (begins, rest) = rest.split_once('|')?;
        let (width, cycles) = rest.split_once('|')?;
        let width = match width.trim() {
            "" => Width::None,
            "M" => Width::M,
            "X" => Width::X,
            _ => return None,
        };
        if cycles.contains('|') {
            return None;
        }
        Some(Row {
            begins: begins.trim(),
            width,
            cycles: cycles.trim(),
        })
    }
}
