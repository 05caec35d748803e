//! What is done to every channel, by a mask or at the start of a frame or a line.
ghost use Rattle.std.specs.Prelude.{◌≡◌, map};
ghost use Rattle.dma_hdma.specs.Channel.{started, enabled_as, frame_begun, line_begun};
ghost use Rattle.dma_hdma.specs.Channels.{by_bits};

use crate::channel_state::Channel;

/// Starts DMA on the channels of a mask.
pub(crate) fn start_each(channels: &mut [Channel], mask: u8)
    ensures { channels.new ≡ by_bits started channels.old mask }
{
    let mut bits = mask;
    for channel in channels.iter_mut() {
        channel.start(bits % 2 == 1);
        bits /= 2;
    }
}

/// Enables or disables HDMA on each channel by the bits of 420C.
pub(crate) fn enable_each(channels: &mut [Channel], mask: u8)
    ensures { channels.new ≡ by_bits enabled_as channels.old mask }
{
    let mut bits = mask;
    for channel in channels.iter_mut() {
        channel.enable(bits % 2 == 1);
        bits /= 2;
    }
}

/// Begins a frame of HDMA on every channel.
pub(crate) fn begin_frame(channels: &mut [Channel])
    ensures { channels.new ≡ map frame_begun channels.old }
{
    for channel in channels.iter_mut() {
        channel.begin_frame();
    }
}

/// Begins a line of HDMA on every channel.
pub(crate) fn begin_line(channels: &mut [Channel])
    ensures { channels.new ≡ map line_begun channels.old }
{
    for channel in channels.iter_mut() {
        channel.begin_line();
    }
}
