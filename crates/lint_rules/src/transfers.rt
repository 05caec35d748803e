//! Transfers: DMA and HDMA.

ghost use Rattle.std.specs.Prelude.{◌≡◌, ◌<◌, ◌-◌};
ghost use Rattle.lint_rules.specs.Places.{is_of_registers, transfer_broken, share_bit, shares, channel_broken, enable_broken};

use crate::moment::Moment;
use crate::rule::Rule;

/// Whether a 24-bit address is one of those of registers, 2100 to 21FF and 4000 to 43FF of banks 00 to 3F and 80 to BF.
fn is_of_registers(address: u32) -> bool
    ensures { result ≡ is_of_registers address }
{
    let offset = address % 65_536;
    address / 65_536 % 128 < 64
        && (0x2100 <= offset && offset <= 0x21ff || 0x4000 <= offset && offset <= 0x43ff)
}

/// Returns the rule that a byte of a transfer breaks: `address` is that of the A side, `is_wram` says whether work RAM lies there,
/// and `port` is the register of the B side, as an offset from 2100.
///
/// Source: fullsnes, "SNES DMA Transfers".
pub fn transfer_rule(address: u32, is_wram: bool, port: u8) -> Option<Rule>
    ensures { result ≡ transfer_broken address is_wram port }
{
    if is_of_registers(address) {
        Some(Rule::TransferOfRegisters)
    } else if is_wram && port == 0x80 {
        Some(Rule::WramToWram)
    } else {
        None
    }
}

/// Whether a bit, told by its weight, is set in both bytes.
fn share_bit(a: u8, b: u8, weight: u8) -> bool
    requires { 0 < weight }
    ensures { result ≡ share_bit a b weight }
{
    a / weight % 2 == 1 && b / weight % 2 == 1
}

/// Whether two bytes share a bit that is set.
pub(crate) fn shares(a: u8, b: u8) -> bool
    ensures { result ≡ shares a b }
{
    share_bit(a, b, 1)
        || share_bit(a, b, 2)
        || share_bit(a, b, 4)
        || share_bit(a, b, 8)
        || share_bit(a, b, 16)
        || share_bit(a, b, 32)
        || share_bit(a, b, 64)
        || share_bit(a, b, 128)
}

/// Returns the rule that a write of 420B breaks, given the channels that are enabled for HDMA.
///
/// Source: fullsnes, 420Bh MDMAEN.
pub fn channel_rule(started: u8, enabled: u8) -> Option<Rule>
    ensures { result ≡ channel_broken started enabled }
{
    if shares(started, enabled) {
        Some(Rule::DmaOnHdmaChannel)
    } else {
        None
    }
}

/// Returns the rule that a write of 420C breaks, given the byte before it: a channel that was off is enabled while a picture is drawn.
///
/// Source: fullsnes, 420Ch HDMAEN.
pub fn enable_rule(before: u8, byte: u8, moment: &Moment) -> Option<Rule>
    ensures { result ≡ enable_broken before byte moment.now }
{
    if !moment.is_blank() && shares(byte, 255 - before) {
        Some(Rule::HdmaOnInPicture)
    } else {
        None
    }
}
