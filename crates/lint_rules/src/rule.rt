//! The rules: their names, what they say, how much they weigh, and in which profile they are silent.

ghost use Rattle.std.specs.Prelude.{◌≡◌};
ghost use Rattle.lint_rules.specs.Profiles.{is_of_first_alone, is_mended};

use snes_defs::Profile;

/// How much a finding weighs.
#[derive(Clone, Copy, PartialEq, Eq)]
pub enum Severity {
    /// The program works here in part only by what this machine forgives, or it fails here.
    Warning,
    /// It may be meant, or may do no harm.
    Note,
}

/// What a console would not forgive.
#[derive(Clone, Copy, PartialEq, Eq, PartialOrd, Ord)]
pub enum Rule {
    /// VRAM is read or written while a picture is drawn.
    VramOutsideBlank,
    /// CGRAM is read or written while the dots of a line are drawn.
    CgramOutsideBlank,
    /// OAM is read or written while a picture is drawn.
    OamOutsideBlank,
    /// A transfer that began in blank runs past its end.
    TransferPastBlank,
    /// A product is read before it is done.
    ProductEarly,
    /// A quotient or a remainder is read before it is done.
    QuotientEarly,
    /// A product or a quotient is begun before the one under way is done.
    ArithmeticAgain,
    /// The pads' words are read while auto-read would be busy.
    PadsWhileBusy,
    /// The strobe is written while auto-read would be busy.
    StrobeWhileBusy,
    /// A loop waits for the busy bit of auto-read, which never comes in the first profile.
    WaitForBusy,
    /// A transfer from work RAM to the port of work RAM.
    WramToWram,
    /// A transfer whose A address is that of registers.
    TransferOfRegisters,
    /// DMA on a channel that HDMA has.
    DmaOnHdmaChannel,
    /// HDMA enabled while a picture is drawn.
    HdmaOnInPicture,
    /// A read where nothing lies.
    OpenBus,
    /// A write where nothing lies.
    WriteToNothing,
    /// A write to ROM.
    WriteToRom,
    /// An instruction outside ROM and RAM.
    RunsOutsideMemory,
    /// A stack outside work RAM.
    StackOutsideWram,
    /// The instruction BRK.
    Brk,
    /// The instruction COP.
    Cop,
    /// The instruction WDM.
    Wdm,
    /// The instruction STP.
    Stp,
    /// A file without a header.
    NoHeader,
    /// A file with a copier's header.
    CopierHeader,
    /// A checksum or complement that is wrong.
    Checksum,
    /// A size byte that does not fit the file.
    SizeByte,
    /// A map byte that fits neither its place nor the speed of the program.
    MapByte,
    /// A reset vector that leads nowhere.
    ResetVector,
    /// A vector that is used and leads nowhere.
    InterruptVector,
    /// Key-on written twice within two samples.
    KeyOnTwice,
    /// Key-off shorter than two samples.
    KeyOffShort,
    /// A write to a DSP register above 7F.
    DspSelector,
    /// An echo buffer over memory that the sound program uses otherwise.
    EchoOverMemory,
    /// A loop waits for a bit of ENDX, which a console sets some samples earlier.
    WaitForEndx,
    /// A read of work RAM that nothing has written.
    WramBeforeWrite,
    /// A read of sound RAM that nothing has written.
    AramBeforeWrite,
    /// A read of the cartridge's RAM that nothing has written.
    SramBeforeWrite,
    /// A read of VRAM that nothing has written.
    VramBeforeWrite,
    /// A read of CGRAM that nothing has written.
    CgramBeforeWrite,
    /// A read of OAM that nothing has written.
    OamBeforeWrite,
    /// A line is drawn from VRAM that nothing has written.
    VramShownBeforeWrite,
    /// A line is drawn with a colour of CGRAM that nothing has written.
    CgramShownBeforeWrite,
    /// A line may have an object that nothing has written to OAM.
    OamShownBeforeWrite,
    /// A picture is shown that depends on a register that nothing has written.
    RegistersUnset,
    /// A register of the picture written while the dots of a line are drawn.
    RegisterInsideLine,
    /// A V-IRQ set for the line that has begun.
    TimerOnItsLine,
    /// The counters latched by 4201.
    LatchBy4201,
    /// A read of 213F, whose bits of field and region are always clear in the first profile.
    FieldAndRegionBits,
    /// An object that is not square, turned over from top to bottom.
    VerticalFlipOfHalves,
    /// High resolution with a backdrop that is not black.
    BackdropInHighResolution,
    /// Forced blank begun or ended near an edge of the drawn dots.
    BlankNearEdge,
}

/// All rules, in the order in which they are reported.
pub static RULES: [Rule; 52] = [
    Rule::VramOutsideBlank,
    Rule::CgramOutsideBlank,
    Rule::OamOutsideBlank,
    Rule::TransferPastBlank,
    Rule::ProductEarly,
    Rule::QuotientEarly,
    Rule::ArithmeticAgain,
    Rule::PadsWhileBusy,
    Rule::StrobeWhileBusy,
    Rule::WaitForBusy,
    Rule::WramToWram,
    Rule::TransferOfRegisters,
    Rule::DmaOnHdmaChannel,
    Rule::HdmaOnInPicture,
    Rule::OpenBus,
    Rule::WriteToNothing,
    Rule::WriteToRom,
    Rule::RunsOutsideMemory,
    Rule::StackOutsideWram,
    Rule::Brk,
    Rule::Cop,
    Rule::Wdm,
    Rule::Stp,
    Rule::NoHeader,
    Rule::CopierHeader,
    Rule::Checksum,
    Rule::SizeByte,
    Rule::MapByte,
    Rule::ResetVector,
    Rule::InterruptVector,
    Rule::KeyOnTwice,
    Rule::KeyOffShort,
    Rule::DspSelector,
    Rule::EchoOverMemory,
    Rule::WaitForEndx,
    Rule::WramBeforeWrite,
    Rule::AramBeforeWrite,
    Rule::SramBeforeWrite,
    Rule::VramBeforeWrite,
    Rule::CgramBeforeWrite,
    Rule::OamBeforeWrite,
    Rule::VramShownBeforeWrite,
    Rule::CgramShownBeforeWrite,
    Rule::OamShownBeforeWrite,
    Rule::RegistersUnset,
    Rule::RegisterInsideLine,
    Rule::TimerOnItsLine,
    Rule::LatchBy4201,
    Rule::FieldAndRegionBits,
    Rule::VerticalFlipOfHalves,
    Rule::BackdropInHighResolution,
    Rule::BlankNearEdge,
];

/// What is printed of a rule.
#[derive(Clone, Copy)]
struct Description {
    name: &'static str,
    text: &'static str,
    severity: Severity,
}

/// Returns the description of a warning.
const fn warning(name: &'static str, text: &'static str) -> Description {
    Description {
        name,
        text,
        severity: Severity::Warning,
    }
}

/// Returns the description of a note.
const fn note(name: &'static str, text: &'static str) -> Description {
    Description {
        name,
        text,
        severity: Severity::Note,
    }
}

/// Returns what is printed of a rule.
fn described(rule: Rule) -> Description {
    match rule {
        Rule::VramOutsideBlank => warning(
            "vram-outside-blank",
            "VRAM is accessed while a picture is drawn: a console drops the write, and reads something else",
        ),
        Rule::CgramOutsideBlank => warning(
            "cgram-outside-blank",
            "CGRAM is accessed while a line is drawn: a console accesses the colour that is being drawn",
        ),
        Rule::OamOutsideBlank => warning(
            "oam-outside-blank",
            "OAM is accessed while a picture is drawn: a console accesses the object that is being drawn",
        ),
        Rule::TransferPastBlank => warning(
            "transfer-past-blank",
            "a DMA transfer to the picture unit runs past the end of vertical blank: a console loses the bytes after it",
        ),
        Rule::ProductEarly => warning(
            "product-early",
            "the product is read fewer than 8 cycles after the write of 4203: a console has not finished it",
        ),
        Rule::QuotientEarly => warning(
            "quotient-early",
            "the quotient or remainder is read fewer than 16 cycles after the write of 4206: a console has not finished it",
        ),
        Rule::ArithmeticAgain => warning(
            "arithmetic-again",
            "a product or quotient is begun before the last one is done: a console gives a wrong result",
        ),
        Rule::PadsWhileBusy => warning(
            "pads-while-busy",
            "the pads are read while auto-read is busy: a console gives the old word, or a part of the new one",
        ),
        Rule::StrobeWhileBusy => warning(
            "strobe-while-busy",
            "4016 is written while auto-read is busy: a console spoils the words that it reads",
        ),
        Rule::WaitForBusy => warning(
            "wait-for-busy",
            "a loop waits for bit 0 of 4212 to be set: a console sets it, this machine never does",
        ),
        Rule::WramToWram => warning(
            "wram-to-wram",
            "DMA from work RAM to 2180: a console copies nothing",
        ),
        Rule::TransferOfRegisters => warning(
            "transfer-of-registers",
            "the A address of a transfer is that of registers: a console doesn't reach them there",
        ),
        Rule::DmaOnHdmaChannel => warning(
            "dma-on-hdma-channel",
            "DMA is started on a channel that is enabled for HDMA: a console changes the channel's table",
        ),
        Rule::HdmaOnInPicture => warning(
            "hdma-on-in-picture",
            "HDMA is enabled while a picture is drawn: its table has not begun, and the channel counts from what it holds",
        ),
        Rule::OpenBus => warning(
            "open-bus",
            "a read where nothing lies: it gives the byte that was last on the bus",
        ),
        Rule::WriteToNothing => warning(
            "write-to-nothing",
            "a write where nothing lies does nothing",
        ),
        Rule::WriteToRom => warning("write-to-rom", "a write to ROM does nothing"),
        Rule::RunsOutsideMemory => warning(
            "runs-outside-memory",
            "an instruction is fetched outside ROM and RAM",
        ),
        Rule::StackOutsideWram => warning(
            "stack-outside-wram",
            "the stack pointer is outside work RAM (0000 to 1FFF)",
        ),
        Rule::Brk => warning(
            "brk",
            "BRK is executed: often the sign of a jump to the wrong place",
        ),
        Rule::Cop => note("cop", "COP is executed"),
        Rule::Wdm => note("wdm", "WDM is executed: a console does nothing"),
        Rule::Stp => warning(
            "stp",
            "STP is executed: the processor stops until it is reset",
        ),
        Rule::NoHeader => warning(
            "no-header",
            "the file has no header of a cartridge: a console doesn't need one, this program and flash cartridges do",
        ),
        Rule::CopierHeader => warning(
            "copier-header",
            "the file begins with 512 bytes of a copier, which no console sees",
        ),
        Rule::Checksum => warning("checksum", "the header's checksum or complement is wrong"),
        Rule::SizeByte => warning(
            "size-byte",
            "the header's size byte does not fit the size of the file",
        ),
        Rule::MapByte => warning(
            "map-byte",
            "the header's map byte fits neither its place in the file nor the speed that the program turns on",
        ),
        Rule::ResetVector => warning("reset-vector", "the RESET vector does not lead to ROM"),
        Rule::InterruptVector => warning(
            "interrupt-vector",
            "an interrupt is enabled whose vector does not lead to memory",
        ),
        Rule::KeyOnTwice => warning(
            "key-on-twice",
            "key-on (4C) is written again within two samples: a console loses the first one",
        ),
        Rule::KeyOffShort => warning(
            "key-off-short",
            "a bit of key-off (5C) is cleared within two samples: a console may not see it",
        ),
        Rule::DspSelector => warning(
            "dsp-selector",
            "F3 is written while bit 7 of F2 is set: a console drops the write",
        ),
        Rule::EchoOverMemory => warning(
            "echo-over-memory",
            "the echo buffer lies over sound RAM that the program executes or has filled: the S-DSP writes over it",
        ),
        Rule::WaitForEndx => note(
            "wait-for-endx",
            "a loop waits for ENDX (7C): a console sets the bit of a voice that ends up to 26 samples earlier than this machine",
        ),
        Rule::WramBeforeWrite => warning(
            "wram-before-write",
            "work RAM is read that nothing has written: a console has anything there, this machine has zero",
        ),
        Rule::AramBeforeWrite => warning(
            "aram-before-write",
            "sound RAM is read that nothing has written: a console has anything there, this machine has zero",
        ),
        Rule::SramBeforeWrite => note(
            "sram-before-write",
            "cartridge RAM is read that nothing has written: a console has what was saved, or anything, this machine has zero",
        ),
        Rule::VramBeforeWrite => warning(
            "vram-before-write",
            "VRAM is read that nothing has written: a console has anything there, this machine has zero",
        ),
        Rule::CgramBeforeWrite => warning(
            "cgram-before-write",
            "CGRAM is read that nothing has written: a console has anything there, this machine has zero",
        ),
        Rule::OamBeforeWrite => warning(
            "oam-before-write",
            "OAM is read that nothing has written: a console has anything there, this machine has zero",
        ),
        Rule::VramShownBeforeWrite => warning(
            "vram-shown-before-write",
            "VRAM is shown that nothing has written: a console has anything there, this machine has zero",
        ),
        Rule::CgramShownBeforeWrite => warning(
            "cgram-shown-before-write",
            "a colour of CGRAM is shown that nothing has written: a console has anything there, this machine has black",
        ),
        Rule::OamShownBeforeWrite => warning(
            "oam-shown-before-write",
            "objects are shown, and nothing has written a byte of OAM that may be on the screen: a console has anything there",
        ),
        Rule::RegistersUnset => warning(
            "registers-unset",
            "the screen is on, and nothing has written a register that the picture depends on: a console has anything there",
        ),
        Rule::RegisterInsideLine => note(
            "register-inside-line",
            "a register of the picture is written while a line is drawn: a console shows it from that dot on, this machine in the whole row",
        ),
        Rule::TimerOnItsLine => warning(
            "timer-on-its-line",
            "V-IRQ is set for the line that has begun: a console interrupts at once, this machine in the next frame",
        ),
        Rule::LatchBy4201 => warning(
            "latch-by-4201",
            "bit 7 of 4201 is cleared: a console latches the counters, this machine does not",
        ),
        Rule::FieldAndRegionBits => note(
            "field-and-region-bits",
            "213F is read: a console tells field and region by bits 7 and 4, which are always clear here",
        ),
        Rule::VerticalFlipOfHalves => note(
            "vertical-flip-of-halves",
            "an object of 16 by 32 or 32 by 64 is turned over: a console turns each half by itself, this machine the whole",
        ),
        Rule::BackdropInHighResolution => note(
            "backdrop-in-high-resolution",
            "high resolution with a backdrop that is not black: here even half-pixels of it have the fixed colour",
        ),
        Rule::BlankNearEdge => note(
            "blank-near-edge",
            "forced blank begins or ends within 16 dots of an edge of the drawn dots: a console and this machine may show other rows",
        ),
    }
}

impl Rule {
    /// Returns the rule's name: the word of `--allow`, and its heading on the page of the rules.
    pub fn name(self) -> &'static str {
        described(self).name
    }

    /// Returns in a sentence what a console does.
    pub fn text(self) -> &'static str {
        described(self).text
    }

    /// Returns how much the rule weighs.
    pub fn severity(self) -> Severity {
        described(self).severity
    }

    /// Whether the rule warns of what only the first profile does otherwise than a console.
    fn is_of_first_alone(self) -> bool
        ensures { result ≡ is_of_first_alone self }
    {
        match self {
            Rule::WaitForBusy
            | Rule::TimerOnItsLine
            | Rule::LatchBy4201
            | Rule::FieldAndRegionBits
            | Rule::VerticalFlipOfHalves
            | Rule::BackdropInHighResolution => true,
            _ => false,
        }
    }

    /// Whether a machine of a profile does what the rule warns of as a console does, so that the rule is silent.
    pub fn is_mended(self, profile: Profile) -> bool
        ensures { result ≡ is_mended profile self }
    {
        match profile {
            Profile::First => false,
            Profile::Second => self.is_of_first_alone(),
        }
    }
}

/// Returns the rule of a name, if there is one.
pub fn rule_named(name: &str) -> Option<Rule> {
    for rule in &RULES {
        if rule.name() == name {
            return Some(*rule);
        }
    }
    None
}
