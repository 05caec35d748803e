//! What this machine does otherwise than a console, in both profiles or in the first alone.

ghost use Rattle.std.specs.Prelude.{◌≡◌};
ghost use Rattle.lint_rules.specs.Picture.{changes_picture, register_broken, is_near_edge, edge_broken, status_broken};
ghost use Rattle.lint_rules.specs.Units.{timer_broken, latch_broken};

use crate::moment::Moment;
use crate::rule::Rule;

/// Whether a write to a register changes what is drawn. The register is an offset from 2100.
fn changes_picture(mode7: bool, register: u8) -> bool
    ensures { result ≡ changes_picture mode7 register }
{
    match register {
        0x00 | 0x01 | 0x05..=0x14 | 0x1a | 0x23..=0x33 => true,
        0x1b..=0x20 => mode7,
        _ => false,
    }
}

/// Returns the rule that a write to a register of the picture unit breaks. The register is an offset from 2100; `mode7` says
/// whether the picture is of mode 7.
///
/// Here a row is drawn at once at the end of its line, from the registers as they are then.
pub fn register_rule(mode7: bool, register: u8, moment: &Moment) -> Option<Rule>
    ensures { result ≡ register_broken mode7 register moment.now }
{
    if moment.is_drawn() && changes_picture(mode7, register) {
        Some(Rule::RegisterInsideLine)
    } else {
        None
    }
}

/// Returns the rule that a write of VTIME breaks, given the timer's kind of 4200 and the new VTIME.
///
/// A console compares the lines as long as the line lasts. In the first profile V-IRQ (kind 2) comes at the line's first clock alone.
pub fn timer_rule(kind: u8, vtime: u16, moment: &Moment) -> Option<Rule>
    ensures { result ≡ timer_broken kind vtime moment.now }
{
    if kind == 2 && u64::from(vtime) == moment.line && 0 < moment.clock {
        Some(Rule::TimerOnItsLine)
    } else {
        None
    }
}

/// Returns the rule that a write of 4201 breaks, given the byte before it.
///
/// Source: fullsnes, 4201h WRIO: the counters are latched when bit 7 is cleared.
pub fn latch_rule(before: u8, byte: u8) -> Option<Rule>
    ensures { result ≡ latch_broken before byte }
{
    if 128 <= before && byte < 128 {
        Some(Rule::LatchBy4201)
    } else {
        None
    }
}

/// Whether a moment is within 16 dots of an edge of the drawn dots, in a line of the picture.
fn is_near_edge(moment: &Moment) -> bool
    ensures { result ≡ is_near_edge moment.now }
{
    let clock = moment.clock;
    1 <= moment.line
        && !moment.in_blank()
        && (24 <= clock && clock < 152 || 1032 <= clock && clock < 1160)
}

/// Returns the rule that a write of 2100 breaks: forced blank begins or ends near an edge of the drawn dots. The moment is that
/// before the write.
///
/// The 16 dots are this project's choice: forced blank that followed an H-IRQ at dots 254 to 267 looked otherwise in other emulators.
pub fn edge_rule(byte: u8, moment: &Moment) -> Option<Rule>
    ensures { result ≡ edge_broken byte moment.now }
{
    let changes = if moment.forced {
        byte < 128
    } else {
        128 <= byte
    };
    if is_near_edge(moment) && changes {
        Some(Rule::BlankNearEdge)
    } else {
        None
    }
}

/// Returns the rule that a read of a register of the picture unit breaks, as an offset from 2100: 213F has bits of field and region.
///
/// Source: fullsnes, 213Fh STAT78.
pub fn status_rule(register: u8) -> Option<Rule>
    ensures { result ≡ status_broken register }
{
    if register == 0x3f {
        Some(Rule::FieldAndRegionBits)
    } else {
        None
    }
}
