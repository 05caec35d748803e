ghost use Rattle.std.specs.Prelude.{◌≡◌, ◌+◌, ◌*◌, ◌/◌, ◌%◌, ◌≤◌, [], ◌++◌, length, take, drop};
ghost use Rattle.side_law.specs.Serial.{SerialState};
ghost use Rattle.serial_console.specs.Serial.{IsAt, console_of, sound_of};
ghost use Rattle.console_steps.specs.ConsoleState.{ConsoleState};
ghost use Rattle.console_machine.specs.Side as console_side;
ghost use Rattle.audio_side.specs.Sound.{SoundState};
ghost use Rattle.audio_side.specs.Sound as sound_side;
ghost use Rattle.state_file.specs.Bytes.{text, number_bytes, region_number, cpu_bytes, spc_bytes, words_below, shown_below};
ghost use Rattle.state_file.specs.State.{header_of, dsp_of, tables_of, memories_of, state_bytes};

use crate::bytes::StateBytes;
use audio_side::AudioSide;
use console_bus::Bus;
use console_machine::ConsoleSide;
use cpu_tables::Regs;
use ppu_regs::Ppu;
use serial_console::Serial;
use side_law::Machine;
use snes_defs::Region;
use spc_tables::SpcRegs;

/// The bytes of work RAM.
const WORK_RAM: usize = 131_072;

/// The text that a state file begins with.
#[tactic(auto, unfolding(crate::specs::Bytes::text))]
fn first_text() -> [u8; 8]
    ensures bytes { result ≡ text }
    ensures size { length result ≡ 8 }
{
    [b'S', b'N', b'E', b'S', b'D', b'U', b'M', b'P']
}

/// The number of a region.
fn number_of(region: Region) -> u8
    ensures { result ≡ region_number region }
{
    match region {
        Region::Ntsc => 0,
        Region::Pal => 1,
    }
}

/// The version of the format, the region, and two numbers of 32 bits.
#[tactic(auto, unfolding(crate::specs::Bytes::number_bytes))]
fn numbers(region: Region, frames: u32, ram: u32) -> [u8; 12]
    ensures bytes { result ≡ number_bytes region frames ram }
    ensures size { length result ≡ 12 }
{
    [
        1,
        number_of(region),
        0,
        0,
        (frames % 256) as u8,
        (frames / 256 % 256) as u8,
        (frames / 65536 % 256) as u8,
        (frames / 16777216) as u8,
        (ram % 256) as u8,
        (ram / 256 % 256) as u8,
        (ram / 65536 % 256) as u8,
        (ram / 16777216) as u8,
    ]
}

/// The low and the high byte of a number.
fn low(number: u16) -> u8
    ensures { result ≡ number % 256 }
{
    (number % 256) as u8
}

fn high(number: u16) -> u8
    ensures { result ≡ number / 256 }
{
    (number / 256) as u8
}

/// The registers of the 65C816.
#[tactic(auto, unfolding(crate::specs::Bytes::cpu_bytes))]
fn cpu_registers(r: Regs) -> [u8; 16]
    ensures bytes { result ≡ cpu_bytes r }
    ensures size { length result ≡ 16 }
{
    let e = if r.e { 1 } else { 0 };
    [
        low(r.a),
        high(r.a),
        low(r.x),
        high(r.x),
        low(r.y),
        high(r.y),
        low(r.s),
        high(r.s),
        low(r.d),
        high(r.d),
        low(r.pc),
        high(r.pc),
        r.dbr,
        r.pbr,
        r.p,
        e,
    ]
}

/// The registers of the SPC700.
#[tactic(auto, unfolding(crate::specs::Bytes::spc_bytes))]
fn spc_registers(r: SpcRegs) -> [u8; 8]
    ensures bytes { result ≡ spc_bytes r }
    ensures size { length result ≡ 8 }
{
    [r.a, r.x, r.y, r.sp, low(r.pc), high(r.pc), r.psw, 0]
}

/// Puts the text, the numbers, the registers of both processors and the bytes at the ports.
#[tactic(auto, using(crate::proofs::States::seven), unfolding(crate::specs::State::header_of))]
fn put_header(
    to: &mut StateBytes,
    region: Region,
    frames: u32,
    ram: u32,
    cpu: Regs,
    spc: SpcRegs,
    ports: ([u8; 4], [u8; 4]),
)
    requires { length to.old.bytes + 64 ≤ to.old.room }
    ensures bytes { to.new.bytes ≡ to.old.bytes ++ header_of region frames ram cpu spc ports.0 ports.1 }
    ensures size { length to.new.bytes ≡ length to.old.bytes + 64 }
    ensures room { to.new.room ≡ to.old.room }
{
    to.add(&first_text());
    to.add(&numbers(region, frames, ram));
    to.add_zeros(12);
    to.add(&cpu_registers(cpu));
    to.add(&spc_registers(spc));
    to.add(&ports.0);
    to.add(&ports.1);
}

/// Puts what the registers of the S-DSP show, 00 to 7F in order.
#[tactic(auto, using(crate::proofs::Counting::no_register, crate::proofs::Counting::one_more_register))]
pub fn put_shown(to: &mut StateBytes, sound: &AudioSide)
    requires { length to.old.bytes + 128 ≤ to.old.room }
    ensures bytes { to.new.bytes ≡ to.old.bytes ++ shown_below sound.now.hardware.voices 128 }
    ensures size { length to.new.bytes ≡ length to.old.bytes + 128 }
    ensures room { to.new.room ≡ to.old.room }
{
    'registers: for register in 0..128u8 {
        to.add_byte(sound.dsp(register));
    }
}

/// Puts the registers of the S-DSP, with zeros before and behind them.
#[tactic(auto, using(crate::proofs::States::three), unfolding(crate::specs::State::dsp_of))]
fn put_dsp(to: &mut StateBytes, sound: &AudioSide)
    requires { length to.old.bytes + 448 ≤ to.old.room }
    ensures bytes { to.new.bytes ≡ to.old.bytes ++ dsp_of sound.now.hardware.voices }
    ensures size { length to.new.bytes ≡ length to.old.bytes + 448 }
    ensures room { to.new.room ≡ to.old.room }
{
    to.add_zeros(64);
    put_shown(to, sound);
    to.add_zeros(256);
}

/// Puts CGRAM and OAM, and zeros up to the end of the first 64 KiB.
#[tactic(auto, using(crate::proofs::States::three), unfolding(crate::specs::State::tables_of))]
fn put_tables(to: &mut StateBytes, picture: &Ppu)
    requires { length to.old.bytes + 65024 ≤ to.old.room }
    ensures bytes { to.new.bytes ≡ to.old.bytes ++ tables_of picture.now }
    ensures size { length to.new.bytes ≡ length to.old.bytes + 65024 }
    ensures room { to.new.room ≡ to.old.room }
{
    picture.in_range();
    to.add_words(picture.cgram());
    to.add(picture.oam());
    to.add_zeros(63_968);
}

/// Puts the first bytes of a memory, then some words and some bytes, then the `ram` bytes behind the first ones.
#[tactic(auto, using(crate::proofs::States::four))]
fn put_parts(
    to: &mut StateBytes,
    memory: &[u8],
    first: usize,
    words: &[u16],
    bytes: &[u8],
    ram: usize,
)
    requires inside { first + ram ≤ length memory.now }
    requires room { length to.old.bytes + (first + 2 * length words.now + length bytes.now + ram) ≤ to.old.room }
    ensures bytes { to.new.bytes ≡ to.old.bytes ++ (take first memory.now ++ (words_below words.now (length words.now) ++ (bytes.now ++ take ram (drop first memory.now)))) }
    ensures size { length to.new.bytes ≡ length to.old.bytes + (first + 2 * length words.now + length bytes.now + ram) }
    ensures room { to.new.room ≡ to.old.room }
{
    to.add(&memory[..first]);
    to.add_words(words);
    to.add(bytes);
    let behind = &memory[first..];
    to.add(&behind[..ram]);
}

/// Puts work RAM, VRAM, the sound side's RAM and the cartridge's RAM.
#[tactic(auto, unfolding(crate::specs::State::memories_of))]
fn put_memories(to: &mut StateBytes, bus: &Bus, sound: &AudioSide)
    requires { length to.old.bytes + (262144 + bus.now.board.ram) ≤ to.old.room }
    ensures bytes { to.new.bytes ≡ to.old.bytes ++ memories_of bus.now sound.now.hardware.ram }
    ensures size { length to.new.bytes ≡ length to.old.bytes + (262144 + bus.now.board.ram) }
    ensures room { to.new.room ≡ to.old.room }
{
    let ram = bus.cart_ram() as usize;
    put_parts(
        to,
        bus.memory(),
        WORK_RAM,
        bus.picture().vram(),
        sound.ram(),
        ram,
    );
}

/// Puts the state of a serial console whose cartridge's RAM there is memory for, after that many frames.
pub fn put_state(to: &mut StateBytes, frames: u32, serial: &Serial<ConsoleSide, AudioSide>)
    requires none { to.old.bytes ≡ [] }
    requires room { 327680 + (console_of serial.now).rest.board.ram ≤ to.old.room }
    ensures { (w : SerialState ConsoleState SoundState) → IsAt console_side.StandsAt sound_side.StandsAt serial.now w → to.new.bytes ≡ state_bytes frames w }
{
    let (console, sound) = serial.machines();
    let bus = console.bus();
    put_header(
        to,
        console.region(),
        frames,
        bus.cart_ram(),
        console.processor().regs(),
        sound.processor().regs(),
        serial.ports(),
    );
    put_dsp(to, sound);
    put_tables(to, bus.picture());
    put_memories(to, bus, sound);
}
