//! One channel: its registers, its DMA and its HDMA.
ghost use Rattle.std.specs.Prelude.{◌≡◌, ◌<◌};
ghost use Rattle.dma_hdma.specs.Pattern.{offset_of, length_of, address};

use crate::moves::Move;

/// The work of a channel's HDMA that is left at this moment.
#[derive(Clone, Copy)]
pub enum Work {
    /// Nothing.
    Idle,
    /// Move the bytes of the pattern from this one on, and then count the line.
    Send(u8),
    /// Load the line byte.
    Line,
    /// Load the low byte of the indirect address, and then the high one.
    Low,
    /// Load the high byte of the indirect address.
    High,
}

/// A channel: its registers and its state. Source of the registers: fullsnes, "SNES DMA and HDMA
/// Channel 0..7 Registers".
#[derive(Clone, Copy)]
pub struct Channel {
    /// 43x0 DMAP. Bit 7: from B to A (DMA). Bit 6: the table names its data's addresses (HDMA). Bit
    /// 4: the A address falls; bit 3: it stays (DMA). Bits 2-0: the pattern.
    pub mode: u8,
    /// 43x1 BBAD: the low byte of the first B register.
    pub port: u8,
    /// 43x2-3 A1T: the offset of the A address, or of the HDMA table's first byte.
    pub addr: u16,
    /// 43x4 A1B: the bank of the A address and of the table.
    pub bank: u8,
    /// 43x5-6 DAS: the number of bytes that DMA has left, 0 for 65,536, or the offset of HDMA's indirect data.
    pub count: u16,
    /// 43x7 DASB: the bank of the indirect data.
    pub indirect_bank: u8,
    /// 43x8-9 A2A: the offset of the next byte of the table.
    pub table: u16,
    /// 43xA NTRL. Bits 6-0: the lines left of this entry. Bit 7: whether each of them sends.
    pub line: u8,
    /// 43xB and 43xF: a byte that is kept.
    pub spare: u8,
    /// The channel's bit of 420C.
    pub enabled: bool,
    /// Whether its HDMA has not ended in this frame.
    pub live: bool,
    /// Whether it sends at the next line.
    pub sending: bool,
    /// The work of its HDMA that is left at this moment.
    pub work: Work,
    /// Whether its DMA has bytes left.
    pub running: bool,
    /// The place in the pattern of its next DMA byte, modulo 4.
    pub position: u8,
}

/// What each pattern adds to the B address, for four bytes one after another: a row a pattern.
static OFFSETS: [u8; 32] = [
    0, 0, 0, 0, // 0: one register
    0, 1, 0, 1, // 1: two registers
    0, 0, 0, 0, // 2: one register, twice
    0, 0, 1, 1, // 3: two registers, each twice
    0, 1, 2, 3, // 4: four registers
    0, 1, 0, 1, // 5: two registers, twice
    0, 0, 0, 0, // 6: as 2
    0, 0, 1, 1, // 7: as 3
];

/// The number of bytes that HDMA moves at a line, by the pattern.
static LENGTHS: [u8; 8] = [1, 2, 2, 4, 4, 4, 2, 4];

/// Returns what a pattern adds to the B address at a place in it.
#[inline(always)]
#[tactic(auto, unfolding(crate::specs::Pattern::offset_of))]
fn offset_at(mode: u8, place: u8) -> u8
    ensures { result ≡ offset_of mode place }
{
    OFFSETS[(mode % 8 * 4 + place % 4) as usize]
}

/// Returns the number of bytes that HDMA moves at a line.
#[inline(always)]
#[tactic(auto, unfolding(crate::specs::Pattern::length_of))]
fn length_at(mode: u8) -> u8
    ensures length { result ≡ length_of mode }
    ensures some { 0 < result }
{
    LENGTHS[(mode % 8) as usize]
}

/// Returns a 24-bit address from its bank and its offset.
#[inline(always)]
fn joined(bank: u8, offset: u16) -> u32
    ensures { result ≡ address bank offset }
{
    u32::from(bank) * 65536 + u32::from(offset)
}

impl Channel {
    ghost use Rattle.std.specs.Prelude.{◌≡◌, ◌<◌, Some, None};
    ghost use Rattle.dma_hdma.specs.Channel.{first_channel, register_of, written, port_of, source_of, is_working, work_move, stepped, counted, loaded, line_begun, frame_begun, worked, dma_move, run_on, started, enabled_as};

    /// Returns a channel at the start: every register FF, and nothing to do.
    pub(crate) fn new() -> Channel
        ensures { result ≡ first_channel }
    {
        Channel {
            mode: 0xff,
            port: 0xff,
            addr: 0xffff,
            bank: 0xff,
            count: 0xffff,
            indirect_bank: 0xff,
            table: 0xffff,
            line: 0xff,
            spare: 0xff,
            enabled: false,
            live: false,
            sending: false,
            work: Work::Idle,
            running: false,
            position: 0,
        }
    }

    /// Returns the register of this number. One that isn't there gives the byte last on the data bus.
    pub(crate) fn register(&self, number: u16, bus: u8) -> u8
        requires { number < 16 }
        ensures { result ≡ register_of self.now number bus }
    {
        match number {
            // 43x0 DMAPx
            0 => self.mode,
            // 43x1 BBADx
            1 => self.port,
            // 43x2 A1TxL
            2 => (self.addr % 256) as u8,
            // 43x3 A1TxH
            3 => (self.addr / 256) as u8,
            // 43x4 A1Bx
            4 => self.bank,
            // 43x5 DASxL
            5 => (self.count % 256) as u8,
            // 43x6 DASxH
            6 => (self.count / 256) as u8,
            // 43x7 DASBx
            7 => self.indirect_bank,
            // 43x8 A2AxL
            8 => (self.table % 256) as u8,
            // 43x9 A2AxH
            9 => (self.table / 256) as u8,
            // 43xA NTRLx
            10 => self.line,
            // 43xB and 43xF UNUSEDx
            11 | 15 => self.spare,
            _ => bus,
        }
    }

    /// Writes the register of this number.
    pub(crate) fn write(&mut self, number: u16, v: u8)
        requires { number < 16 }
        ensures { self.new ≡ written self.old number v }
    {
        let byte = u16::from(v);
        match number {
            // 43x0 DMAPx
            0 => self.mode = v,
            // 43x1 BBADx
            1 => self.port = v,
            // 43x2 A1TxL
            2 => self.addr = self.addr / 256 * 256 + byte,
            // 43x3 A1TxH
            3 => self.addr = self.addr % 256 + 256 * byte,
            // 43x4 A1Bx
            4 => self.bank = v,
            // 43x5 DASxL
            5 => self.count = self.count / 256 * 256 + byte,
            // 43x6 DASxH
            6 => self.count = self.count % 256 + 256 * byte,
            // 43x7 DASBx
            7 => self.indirect_bank = v,
            // 43x8 A2AxL
            8 => self.table = self.table / 256 * 256 + byte,
            // 43x9 A2AxH
            9 => self.table = self.table % 256 + 256 * byte,
            // 43xA NTRLx
            10 => self.line = v,
            // 43xB and 43xF UNUSEDx
            11 | 15 => self.spare = v,
            12 | 13 | 14 => (),
            _ => unreachable!(),
        }
    }

    /// Returns the B register of a place in the pattern.
    #[inline(always)]
    fn port_at(&self, place: u8) -> u8
        ensures { result ≡ port_of self.now place }
    {
        self.port.wrapping_add(offset_at(self.mode, place))
    }

    /// Returns the address of HDMA's next byte.
    #[inline(always)]
    fn source(&self) -> u32
        ensures { result ≡ source_of self.now }
    {
        if self.mode / 64 % 2 == 1 {
            joined(self.indirect_bank, self.count)
        } else {
            joined(self.bank, self.table)
        }
    }

    /// Returns whether an HDMA byte of this channel is due.
    #[inline(always)]
    pub(crate) fn is_working(&self) -> bool
        ensures { result ≡ is_working self.now }
    {
        match self.work {
            Work::Idle => false,
            Work::Send(_) | Work::Line | Work::Low | Work::High => true,
        }
    }

    /// Returns the HDMA byte that is due.
    #[inline(always)]
    #[tactic(auto, unfolding(crate::specs::Channel::work_move))]
    pub(crate) fn hdma_move(&self) -> Option<Move>
        ensures { result ≡ work_move self.now }
    {
        match self.work {
            Work::Idle => None,
            Work::Send(place) => Some(Move::ToB {
                from: self.source(),
                port: self.port_at(place),
            }),
            Work::Line | Work::Low | Work::High => Some(Move::Load {
                from: joined(self.bank, self.table),
            }),
        }
    }

    /// Advances by one byte of the data.
    #[inline(always)]
    fn step(&mut self)
        ensures { self.new ≡ stepped self.old }
    {
        if self.mode / 64 % 2 == 1 {
            self.count = self.count.wrapping_add(1);
        } else {
            self.table = self.table.wrapping_add(1);
        }
    }

    /// Counts the line, and begins to load if the entry ends.
    #[inline(always)]
    fn count_line(&mut self)
        ensures { self.new ≡ counted self.old }
    {
        self.line = self.line.wrapping_sub(1);
        self.sending = self.line / 128 % 2 == 1;
        self.work = if self.line % 128 == 0 {
            Work::Line
        } else {
            Work::Idle
        };
    }

    /// Ends a load: line byte 0 ends the channel for the frame, and any other sends.
    #[inline(always)]
    fn end_load(&mut self)
        ensures { self.new ≡ loaded self.old }
    {
        self.work = Work::Idle;
        if self.line == 0 {
            self.live = false;
        } else {
            self.sending = true;
        }
    }

    /// Begins a frame of HDMA.
    #[tactic(auto, unfolding(crate::specs::Channel::frame_begun))]
    pub(crate) fn begin_frame(&mut self)
        ensures { self.new ≡ frame_begun self.old }
    {
        self.live = true;
        self.sending = false;
        if self.enabled {
            self.table = self.addr;
            self.work = Work::Line;
        } else {
            self.work = Work::Idle;
        }
    }

    /// Begins a line of HDMA.
    #[tactic(auto, unfolding(crate::specs::Channel::line_begun))]
    pub(crate) fn begin_line(&mut self)
        ensures { self.new ≡ line_begun self.old }
    {
        if self.enabled && self.live {
            if self.sending {
                self.work = Work::Send(0);
            } else {
                self.count_line();
            }
        }
    }

    /// Takes the HDMA byte that was due.
    #[inline(always)]
    #[tactic(auto, unfolding(crate::specs::Channel::worked))]
    pub(crate) fn work_on(&mut self, byte: u8)
        ensures { self.new ≡ worked self.old byte }
    {
        match self.work {
            Work::Idle => {}
            Work::Send(place) => {
                self.step();
                if place < length_at(self.mode) - 1 {
                    self.work = Work::Send(place + 1);
                } else {
                    self.count_line();
                }
            }
            Work::Line => {
                self.line = byte;
                self.table = self.table.wrapping_add(1);
                if self.mode / 64 % 2 == 1 {
                    self.work = Work::Low;
                } else {
                    self.end_load();
                }
            }
            Work::Low => {
                self.count = self.count / 256 * 256 + u16::from(byte);
                self.table = self.table.wrapping_add(1);
                self.work = Work::High;
            }
            Work::High => {
                self.count = self.count % 256 + 256 * u16::from(byte);
                self.table = self.table.wrapping_add(1);
                self.end_load();
            }
        }
    }

    /// Returns the DMA byte that is due while the channel runs.
    #[inline(always)]
    #[tactic(auto, unfolding(crate::specs::Channel::dma_move))]
    pub(crate) fn dma_move(&self) -> Move
        ensures { result ≡ dma_move self.now }
    {
        let port = self.port_at(self.position);
        let place = joined(self.bank, self.addr);
        if self.mode / 128 % 2 == 1 {
            Move::ToA { port, to: place }
        } else {
            Move::ToB { from: place, port }
        }
    }

    /// Advances by one DMA byte.
    #[inline(always)]
    #[tactic(auto, unfolding(crate::specs::Channel::run_on))]
    pub(crate) fn run(&mut self)
        ensures { self.new ≡ run_on self.old }
    {
        if self.mode / 8 % 2 == 0 {
            self.addr = if self.mode / 16 % 2 == 1 {
                self.addr.wrapping_sub(1)
            } else {
                self.addr.wrapping_add(1)
            };
        }
        self.count = self.count.wrapping_sub(1);
        self.running = self.count != 0;
        self.position = (self.position % 4 + 1) % 4;
    }

    /// Starts DMA if the channel's bit of 420B is set.
    #[tactic(auto, unfolding(crate::specs::Channel::started))]
    pub(crate) fn start(&mut self, on: bool)
        ensures { self.new ≡ started self.old on }
    {
        if on {
            self.running = true;
            self.position = 0;
        }
    }

    /// Takes the channel's bit of 420C.
    #[tactic(auto, unfolding(crate::specs::Channel::enabled_as))]
    pub(crate) fn enable(&mut self, on: bool)
        ensures { self.new ≡ enabled_as self.old on }
    {
        self.enabled = on;
    }
}
