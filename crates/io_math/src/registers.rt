/// One controller port with its pad, and the words that auto-read kept of it.
#[derive(Clone, Copy)]
pub struct Pad {
    /// The pad's word in this frame: from bit 15 down B, Y, Select, Start, Up, Down, Left, Right, A, X, L, R.
    pub word: u16,
    /// The number of its bits that were read since the last strobe, at most 16.
    pub position: u8,
    /// The word of the last auto-read (4218-9, 421A-B).
    pub kept: u16,
    /// The word of the auto-read before, which 4218-9 and 421A-B give while one runs. 0 in the first profile.
    pub earlier: u16,
}

/// The registers of NMI, the timer and auto-read: 4200 NMITIMEN, 4207-A, 4210, 4211.
#[derive(Clone, Copy)]
pub struct Interrupts {
    /// 4200 bit 7: NMI is on.
    pub nmi_on: bool,
    /// 4200 bits 5-4: when the timer fires. 0 never, 1 at H, 2 at V with H = 0, 3 at V and H.
    pub timer_kind: u8,
    /// 4200 bit 0: auto-read is on.
    pub auto_read: bool,
    /// 4207-8 HTIME: the timer's H, 9 bits.
    pub htime: u16,
    /// 4209-A VTIME: the timer's V, 9 bits.
    pub vtime: u16,
    /// 4210 bit 7: the NMI flag.
    pub nmi_flag: bool,
    /// 4211 bit 7: the IRQ flag of the timer.
    pub irq_flag: bool,
}

/// The registers of multiplication and division: 4202 to 4206, 4214 to 4217.
#[derive(Clone, Copy)]
pub struct Arithmetic {
    /// 4202 WRMPYA: the first factor.
    pub factor: u8,
    /// 4204-5 WRDIV: the dividend.
    pub dividend: u16,
    /// 4214-5 RDDIV: the quotient.
    pub quotient: u16,
    /// 4216-7 RDMPY: the product, or the remainder.
    pub product: u16,
}

/// All of the CPU's own registers, 4016 to 421F.
#[derive(Clone, Copy)]
pub struct IoRegisters {
    /// 4016 bit 0: while it is set, both pads give their first bit.
    pub strobe: bool,
    /// The pad of port 1.
    pub pad1: Pad,
    /// The pad of port 2.
    pub pad2: Pad,
    /// NMI, the timer and auto-read.
    pub interrupts: Interrupts,
    /// 4201 WRIO, read at 4213 RDIO.
    pub port: u8,
    /// Multiplication and division.
    pub arithmetic: Arithmetic,
    /// 420D MEMSEL bit 0: ROM is fast in banks 80 to FF.
    pub fast: bool,
    /// The line on which this frame's auto-read began. 0 if there was none, and in the first profile.
    pub reading: u16,
}
