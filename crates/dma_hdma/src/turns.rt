//! The order of the channels: whose byte is next.
ghost use Rattle.std.specs.Prelude.{◌≡◌, ◌<◌, length, position, IfSome};
ghost use Rattle.dma_hdma.specs.Channel.{is_working};
ghost use Rattle.dma_hdma.specs.Channels.{turn_of, move_in, IsInside};

use crate::channel_state::Channel;
use crate::moves::Move;
use crate::whose::Turn;

/// Returns the channel whose byte is next, and that byte.
#[tactic(auto, unfolding(crate::specs::Channels::turn_of))]
#[inline(always)]
pub(crate) fn decided(channels: &[Channel; 8]) -> (Turn, Option<Move>)
    ensures turn { result.0 ≡ turn_of channels.now }
    ensures due { result.1 ≡ move_in channels.now result.0 }
    ensures inside { IsInside result.0 }
{
    if let Some(x) = first_working(channels) {
        return (Turn::Hdma(x), channels[x].hdma_move());
    }
    match first_running(channels) {
        Some(x) => (Turn::Dma(x), Some(channels[x].dma_move())),
        None => (Turn::Nobody, None),
    }
}

/// Returns the first channel whose HDMA byte is due.
fn first_working(channels: &[Channel; 8]) -> Option<usize>
    ensures first { result ≡ position is_working channels.now }
    ensures inside { IfSome result (λ x. x < 8) }
{
    channels.iter().position(|c| c.is_working())
}

/// Returns the first channel whose DMA runs.
fn first_running(channels: &[Channel; 8]) -> Option<usize>
    ensures first { result ≡ position (λ c. c.running) channels.now }
    ensures inside { IfSome result (λ x. x < 8) }
{
    channels.iter().position(|c| c.running)
}
