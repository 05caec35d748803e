//! The eight channels as one value.
use crate::channel_state::Channel;
use crate::each::{begin_frame, begin_line, enable_each, start_each};
use crate::moves::Move;
use crate::turns::decided;
use crate::whose::Turn;
use std::marker::Model;

mod copy;

/// The eight channels, together with the next byte to move.
#[derive(Drop)]
pub struct Dma {
    channels: [Channel; 8],
    turn: Turn,
    due: Option<Move>,
}

impl Model for Dma {
    ghost use Rattle.std.specs.Prelude.{◌≡◌, List};
    ghost use Rattle.dma_hdma.specs.declared.channel_state.Channel.{Channel};

    ghost Value = { List Channel };

    ghost use Rattle.dma_hdma.specs.Channels.{turn_of, move_in, IsInside};

    ghost view = { λ d. d.channels };

    ghost invariant = { λ d. (d.turn ≡ turn_of d.channels) × (d.due ≡ move_in d.channels d.turn) × IsInside d.turn };
}

impl Dma {
    ghost use Rattle.std.specs.Prelude.{◌≡◌, ◌<◌, ◌≤◌, map, replicate, slice_set, IsSome};
    ghost use Rattle.dma_hdma.specs.Channel.{first_channel, register_of, written, started, enabled_as, frame_begun, line_begun};
    ghost use Rattle.dma_hdma.specs.Channels.{channel_at, channel_number, register_number, due_of, after_byte, by_bits};

    /// Returns the channels at the start, which have nothing to do.
    #[tactic(auto, unfolding(crate::specs::Channels::turn_of))]
    pub fn new() -> Dma
        ensures { result ≡ replicate 8 first_channel }
    {
        Dma {
            channels: [Channel::new(); 8],
            turn: Turn::Nobody,
            due: None,
        }
    }

    /// Reads a register of 4300 to 437F. `bus` is the byte last on the data bus, which 43xC to 43xE give.
    pub fn read(&self, addr: u16, bus: u8) -> u8
        requires from { 0x4300 ≤ addr }
        requires to { addr ≤ 0x437f }
        ensures { result ≡ register_of (channel_at self.now (channel_number addr)) (register_number addr) bus }
    {
        self.channels[(addr / 16 % 8) as usize].register(addr % 16, bus)
    }

    /// Writes a register of 4300 to 437F.
    pub fn write(&mut self, addr: u16, v: u8)
        requires from { 0x4300 ≤ addr }
        requires to { addr ≤ 0x437f }
        ensures { self.new ≡ slice_set self.old (channel_number addr) (written (channel_at self.old (channel_number addr)) (register_number addr) v) }
    {
        self.channels[(addr / 16 % 8) as usize].write(addr % 16, v);
        let (turn, due) = decided(&self.channels);
        self.turn = turn;
        self.due = due;
    }

    /// Starts DMA on the channels of the mask, bit 0 for channel 0 (420B).
    pub fn start(&mut self, mask: u8)
        ensures { self.new ≡ by_bits started self.old mask }
    {
        start_each(&mut self.channels, mask);
        let (turn, due) = decided(&self.channels);
        self.turn = turn;
        self.due = due;
    }

    /// Enables HDMA on the channels of the mask, and on no others (420C).
    pub fn enable(&mut self, mask: u8)
        ensures { self.new ≡ by_bits enabled_as self.old mask }
    {
        enable_each(&mut self.channels, mask);
        let (turn, due) = decided(&self.channels);
        self.turn = turn;
        self.due = due;
    }

    /// Begins a frame of HDMA on every channel.
    pub fn frame(&mut self)
        ensures { self.new ≡ map frame_begun self.old }
    {
        begin_frame(&mut self.channels);
        let (turn, due) = decided(&self.channels);
        self.turn = turn;
        self.due = due;
    }

    /// Begins a line of HDMA on every channel.
    pub fn line(&mut self)
        ensures { self.new ≡ map line_begun self.old }
    {
        begin_line(&mut self.channels);
        let (turn, due) = decided(&self.channels);
        self.turn = turn;
        self.due = due;
    }

    /// Returns the next byte to move, if one is due.
    #[inline(always)]
    pub fn next(&self) -> Option<Move>
        ensures { result ≡ due_of self.now }
    {
        self.due
    }

    /// Records that the byte that was due has been moved. A channel with bytes left keeps the turn.
    #[tactic(auto, using(crate::proofs::TurnLemmas::hdma_stays, crate::proofs::TurnLemmas::dma_stays))]
    pub fn done(&mut self, byte: u8)
        requires { IsSome (due_of self.old) }
        ensures { self.new ≡ after_byte self.old byte }
    {
        match self.turn {
            Turn::Nobody => unreachable!(),
            Turn::Hdma(x) => {
                self.channels[x].work_on(byte);
                if self.channels[x].is_working() {
                    self.due = self.channels[x].hdma_move();
                    return;
                }
            }
            Turn::Dma(x) => {
                self.channels[x].run();
                if self.channels[x].running {
                    self.due = Some(self.channels[x].dma_move());
                    return;
                }
            }
        }
        let (turn, due) = decided(&self.channels);
        self.turn = turn;
        self.due = due;
    }
}
