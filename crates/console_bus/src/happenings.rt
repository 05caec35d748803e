//! The events of the beam, transfers, refreshes and resets, as they change the bus.
ghost use Rattle.std.specs.Prelude.{◌≡◌, IsTrue, ℕ, ◌+◌, ◌==◌, if◌then◌else◌, ◌<◌, ◌≤◌, ◌-◌, Bool, true, false};
ghost use Rattle.std.specs.Prelude.{[], None, IsSome, map, slice_index};
ghost use Rattle.beam.specs.Events.{happens_next, beam_next, beam_after, passed};
ghost use Rattle.beam.specs.Places.{clocks_left};
ghost use Rattle.dma_hdma.specs.Channel.{frame_begun as channel_frame_begun, line_begun};
ghost use Rattle.dma_hdma.specs.Channels.{due_of, after_byte};
ghost use Rattle.io_math.specs.Registers.{registers_start, timed, nmi_level, irq_level};
ghost use Rattle.ppu_regs.specs.Writes.{after_write};
ghost use Rattle.console_bus.specs.BusState.{BusState, with_io, with_picture, with_pads, channels_start};
ghost use Rattle.console_bus.specs.Happenings.{frame_begun, blank_begun, shown_dot, row_drawn, was_reset};

use crate::bus::Bus;
use crate::profiles::note_reading;
use beam::Happens;
use dma_hdma::{Dma, Move};
use io_math::Io;
use ppu_line::draw;

impl Bus {
    /// Returns the levels of the processor's NMI and IRQ lines.
    #[inline(always)]
    pub fn interrupt_levels(&self) -> (bool, bool)
        ensures nmi { result.0 ≡ nmi_level self.now.io }
        ensures irq { result.1 ≡ irq_level self.now.io }
    {
        self.io.interrupt_levels()
    }

    /// Returns the next byte of a transfer, if one is due.
    #[inline(always)]
    pub fn transfer(&self) -> Option<Move>
        ensures { result ≡ due_of self.now.channels }
    {
        self.dma.next()
    }

    /// Returns whether a reset, a refresh or a byte of a transfer is due. If not, it is the processor's turn.
    #[inline(always)]
    pub fn is_busy(&self) -> bool
        ensures reset { result ≡ false → self.now.reset ≡ false }
        ensures refresh { result ≡ false → self.now.refresh ≡ false }
        ensures transfer { result ≡ false → due_of self.now.channels ≡ None }
    {
        self.reset || self.refresh || self.dma.next().is_some()
    }

    /// Records that the byte of a transfer that was due has been moved.
    #[inline(always)]
    pub fn transferred(&mut self, byte: u8)
        requires { IsSome (due_of self.old.channels) }
        ensures { self.new ≡ record self.old { channels = after_byte self.old.channels byte } }
    {
        self.dma.done(byte);
    }

    /// Records the byte last on the data bus.
    #[inline(always)]
    pub fn put(&mut self, byte: u8)
        ensures { self.new ≡ record self.old { last = byte } }
    {
        self.last = byte;
    }

    /// Returns whether a reset is due.
    #[inline(always)]
    pub fn resets(&self) -> bool
        ensures { result ≡ self.now.reset }
    {
        self.reset
    }

    /// Returns whether a refresh is due.
    #[inline(always)]
    pub fn refreshes(&self) -> bool
        ensures { result ≡ self.now.refresh }
    {
        self.refresh
    }

    /// Records that the refresh was made.
    pub fn refreshed(&mut self)
        ensures { self.new ≡ record self.old { refresh = false } }
    {
        self.refresh = false;
    }

    /// Returns bit 0 of 420D MEMSEL: whether ROM is fast in banks 80 to FF.
    #[inline(always)]
    pub fn fast(&self) -> bool
        ensures { result ≡ self.now.io.fast }
    {
        self.io.fast()
    }

    /// Returns the master clocks, at least 1, until the next place at which something may happen.
    #[inline(always)]
    pub fn clocks_left(&self) -> u16
        ensures clocks { result ≡ clocks_left self.now.beam }
        ensures some { 0 < result }
        ensures on_line { self.now.beam.h + result ≤ 1364 }
    {
        self.beam.clocks_left()
    }

    /// Advances the beam by fewer clocks than are left, in which nothing happens.
    #[inline(always)]
    pub fn go_on(&mut self, clocks: u16)
        requires { clocks < clocks_left self.old.beam }
        ensures moved { let overscan = self.old.picture.registers.settings.overscan in
            self.new ≡ record self.old { beam = beam_after overscan self.old.beam clocks } }
        ensures none { (overscan : Bool) → passed overscan self.old.beam clocks ≡ [] }
        ensures closer { clocks_left self.new.beam ≡ clocks_left self.old.beam - clocks }
        ensures clock { self.new.beam.h ≡ self.old.beam.h + clocks }
        ensures same_region { self.new.beam.region ≡ self.old.beam.region }
    {
        self.beam.go_on(clocks);
    }

    /// Advances the beam by all the clocks that are left, and returns what happens there. Before the last of them
    /// nothing happens.
    pub fn reach(&mut self) -> Happens
        ensures none_before { let overscan = self.old.picture.registers.settings.overscan in
            passed overscan self.old.beam (clocks_left self.old.beam - 1) ≡ [] }
        ensures last { let overscan = self.old.picture.registers.settings.overscan in
            result ≡ happens_next overscan (beam_after overscan self.old.beam (clocks_left self.old.beam - 1)) }
        ensures moved { let overscan = self.old.picture.registers.settings.overscan in
            let there = beam_next overscan (beam_after overscan self.old.beam (clocks_left self.old.beam - 1)) in
            self.new ≡ record self.old { beam = there } }
        ensures clock { let there = self.old.beam.h + clocks_left self.old.beam in
            self.new.beam.h ≡ (if there == 1364 then 0 else there) }
        ensures same_timer { self.new.beam.timer ≡ self.old.beam.timer }
        ensures same_region { self.new.beam.region ≡ self.old.beam.region }
    {
        let overscan = self.ppu.registers().settings.overscan;
        self.beam.reach(overscan)
    }

    /// Returns the line clock of the next place at which something may happen, 1,364 for the end of the line.
    #[inline(always)]
    pub fn place_ahead(&self) -> u16
        ensures { result ≡ self.now.beam.h + clocks_left self.now.beam }
    {
        self.beam.spot().h + self.beam.clocks_left()
    }

    /// Returns whether the timer is off, so that it asks for no interrupts.
    #[inline(always)]
    pub fn is_timer_off(&self) -> bool
        ensures { IsTrue result → self.now.beam.timer.kind ≡ 0 }
    {
        self.io.irq_time().kind == 0
    }

    /// Returns the line of the beam.
    #[inline(always)]
    pub fn scanline(&self) -> u16
        ensures { result ≡ self.now.beam.v }
    {
        self.beam.spot().v
    }

    /// Begins a frame: clears the NMI flag and the flags of the objects' limits, and gives the pads the frame's
    /// words. A reset is then due if the script has one.
    #[tactic(auto, unfolding(crate::specs::Happenings::frame_begun), using(crate::proofs::Timers::timer_framed, crate::proofs::Speeds::fast_framed))]
    pub fn begin_frame(&mut self)
        ensures { self.new ≡ frame_begun self.old }
    {
        let frame = if self.frame == 65_535 {
            65_535
        } else {
            self.frame + 1
        };
        let (pad1, pad2) = self.script.pads(frame as u32);
        let resets = self.script.resets(frame as u32);
        self.frame = frame;
        self.io.frame(pad1, pad2);
        self.ppu.frame();
        self.reset = self.reset || resets;
    }

    /// Begins vertical blank: sets the NMI flag, and runs auto-read if it is on. In the second profile auto-read takes
    /// time. The address of OAM is reloaded unless forced blank is set.
    #[tactic(auto, unfolding(crate::specs::Happenings::blank_begun), using(crate::proofs::Timers::timer_blanked, crate::proofs::Timers::timer_noted, crate::proofs::Speeds::fast_blanked, crate::proofs::Speeds::fast_noted))]
    pub fn begin_blank(&mut self)
        ensures { self.new ≡ blank_begun self.old }
    {
        let (pad1, pad2) = self.script.pads(self.frame as u32);
        note_reading(&mut self.io, self.script.profile(), self.beam.spot().v);
        self.io.blank(pad1, pad2);
        self.ppu.blank();
    }

    /// Begins a frame of the HDMA channels.
    pub fn begin_hdma(&mut self)
        ensures { self.new ≡ record self.old { channels = map channel_frame_begun self.old.channels } }
    {
        self.dma.frame();
    }

    /// Begins a line of the HDMA channels.
    pub fn begin_hdma_line(&mut self)
        ensures { self.new ≡ record self.old { channels = map line_begun self.old.channels } }
    {
        self.dma.line();
    }

    /// Makes a refresh due.
    pub fn begin_refresh(&mut self)
        ensures { self.new ≡ record self.old { refresh = true } }
    {
        self.refresh = true;
    }

    /// Fires the timer.
    #[tactic(auto, using(crate::proofs::Timers::timer_timed, crate::proofs::Speeds::fast_timed))]
    pub fn fire(&mut self)
        ensures { self.new ≡ record self.old { io = timed self.old.io } }
    {
        self.io.timer();
    }

    /// Draws the row above the beam's line, which is 1 to 239: 512 dots of 15 bits.
    #[tactic(auto, unfolding(crate::specs::Happenings::row_drawn, crate::specs::Happenings::is_shown, crate::specs::Happenings::shown_dot))]
    pub fn draw_dots(&mut self, dots: &mut [u16; 512])
        requires first { 1 ≤ self.old.beam.v }
        requires last { self.old.beam.v ≤ 239 }
        ensures after { self.new ≡ row_drawn self.old }
        ensures dots { (e : ℕ) → e < 512 → slice_index dots.new e ≡ shown_dot self.old e }
    {
        let spot = self.beam.spot();
        if spot.v <= 224 || (self.ppu.registers().settings.overscan && !spot.blank) {
            let over = draw(&self.ppu, &self.tiles, spot.v, dots);
            self.ppu.over(over);
        } else {
            darken(dots);
        }
    }

    /// Makes a reset: sets forced blank, stops all transfers, and puts the CPU's registers at their start.
    #[tactic(auto, unfolding(crate::specs::Happenings::was_reset))]
    pub fn reset(&mut self)
        ensures { self.new ≡ was_reset self.old }
    {
        self.blank_picture();
        self.stop_transfers();
        self.last = 0;
        self.reset = false;
        self.restart_io();
    }

    /// Sets forced blank: writes 80 to 2100.
    #[tactic(auto, unfolding(crate::specs::Profiles::picture_written))]
    fn blank_picture(&mut self)
        ensures { self.new ≡ with_picture self.old (after_write self.old.picture 0 0x80) }
    {
        self.write_picture(0, 0x80);
    }

    /// Stops all DMA channels.
    #[tactic(auto, unfolding(crate::specs::BusState::channels_start))]
    fn stop_transfers(&mut self)
        ensures { self.new ≡ record self.old { channels = channels_start } }
    {
        self.dma = Dma::new();
    }

    /// Sets the registers of the CPU's chip to those of the start, with the pads of the frame.
    fn restart_io(&mut self)
        ensures { self.new ≡ with_io self.old (with_pads self.old.script self.old.frame registers_start) }
    {
        let (pad1, pad2) = self.script.pads(self.frame as u32);
        let mut io = Io::new();
        io.frame(pad1, pad2);
        self.map.set_speed(io.fast());
        self.beam.aim(io.irq_time());
        self.io = io;
    }
}

/// Makes all dots of a row black.
fn darken(dots: &mut [u16; 512])
    ensures { (e : ℕ) → e < 512 → slice_index dots.new e ≡ 0 }
{
    for e in 0..512 {
        dots[e] = 0;
    }
}
