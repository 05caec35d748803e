ghost use Rattle.std.specs.Prelude.{◌≡◌, ◌+◌, ◌<◌, ◌≤◌, ◌++◌, length, decimal, []};
ghost use Rattle.std.specs.Option.{option_map};
ghost use Rattle.cart_map.specs.declared.refused.CartRefused.{CartRefused};
ghost use Rattle.run_io.specs.Line.{line_of, hex_digit, hex_byte, frames_text, demo_text, image_text, cart_refused_text, boot_refused_text, samples_text, spc_too_long_text, spc_too_short_text, spc_no_text_text, table_refused_text, script_refused_text, plan_refused_text, sums_refused_text, column_text, frame_differs_text, frames_differ_text, all_differ_text, usage_text, cannot_read_text, cannot_write_text, no_memory_text};

use arrayvec::ArrayString;
use cart_map::CartRefused;
use itoa::Buffer;
use shelf::{Input, Out};
use snes_defs::Side;
use std::marker::Model;

/// The most bytes that a text for the user can have.
const ROOM: usize = 4096;

/// A text for the user: one line, ended by LF, or the lines of the help. Making it allocates nothing.
#[derive(Drop)]
pub struct Line {
    text: ArrayString<ROOM>,
}

impl Model for Line {
    ghost use Rattle.std.specs.Prelude.{List, ℕ};

    ghost Value = { List ℕ };

    ghost view = { λ l. l.text.bytes };
}

impl Line {
    /// Returns the bytes of the line, LF included.
    pub fn bytes(&self) -> &[u8]
        ensures all { result.now ≡ self.now }
    {
        self.text.as_bytes()
    }

    fn new() -> Line
        ensures empty { result ≡ [] }
    {
        Line {
            text: ArrayString::new(),
        }
    }

    fn push(&mut self, text: &str)
        requires room { length self.old + length text.now ≤ 4096 }
        ensures appended { self.new ≡ self.old ++ text.now }
    {
        self.text.push_str(text);
    }

    fn push_number(&mut self, number: u64)
        requires room { length self.old + 40 ≤ 4096 }
        ensures appended { self.new ≡ self.old ++ decimal number }
        ensures short { length self.new ≤ length self.old + 40 }
    {
        let mut digits = Buffer::new();
        self.push(digits.format(number));
    }

    /// Appends `frames N samples M` to an empty line.
    fn push_run(&mut self, frames: u32, samples: u64)
        requires empty { self.old ≡ [] }
        ensures text { self.new ≡ frames_text frames samples }
        ensures short { length self.new ≤ 96 }
    {
        self.push("frames ");
        self.push_number(u64::from(frames));
        self.push(" samples ");
        self.push_number(samples);
    }

    /// Appends the column of a side in a file of sums.
    fn push_column(&mut self, side: Side)
        requires room { length self.old + 8 ≤ 4096 }
        ensures appended { self.new ≡ self.old ++ column_text side }
    {
        match side {
            Side::Console => self.push(" picture"),
            Side::Sound => self.push(" sound"),
        }
    }

    fn push_hex(&mut self, byte: u8)
        requires room { length self.old + 2 ≤ 4096 }
        ensures appended { self.new ≡ self.old ++ hex_byte byte }
    {
        self.text.push(char::from(digit(byte / 16)));
        self.text.push(char::from(digit(byte % 16)));
    }
}

/// Returns the uppercase hexadecimal digit of a number below 16.
fn digit(number: u8) -> u8
    requires { number < 16 }
    ensures text { result ≡ hex_digit number }
{
    if number < 10 {
        b'0' + number
    } else {
        b'A' + (number - 10)
    }
}

/// Returns the line of a finished run: `frames N samples M`.
pub fn frames_line(frames: u32, samples: u64) -> Line
    ensures text { result ≡ line_of (frames_text frames samples) }
{
    let mut line = Line::new();
    line.push_run(frames, samples);
    line.push("\n");
    line
}

/// Returns the line of a finished demo: `frames N samples M video A sound B`, where A and B are the sums of the bytes.
pub fn demo_line(frames: u32, samples: u64, video: u64, sound: u64) -> Line
    ensures text { result ≡ line_of (demo_text frames samples video sound) }
{
    let mut line = Line::new();
    line.push_run(frames, samples);
    line.push(" video ");
    line.push_number(video);
    line.push(" sound ");
    line.push_number(sound);
    line.push("\n");
    line
}

/// Returns the line of a cartridge that was made: `image 524288`.
pub fn image_line() -> Line
    ensures text { result ≡ line_of image_text }
{
    whole("image 524288\n")
}

/// Returns the line of a sound file that was played: `samples N`.
pub fn samples_line(samples: u32) -> Line
    ensures text { result ≡ line_of (samples_text samples) }
{
    numbered_line("samples ", u64::from(samples))
}

/// Returns the line of invalid arguments: `usage: snes run, serial, make or demo`.
pub fn usage_line() -> Line
    ensures text { result ≡ line_of usage_text }
{
    whole("usage: snes run, serial, make or demo\n")
}

/// Returns the line of a file that was not loaded: `cannot read cart`, or `boot`, `spc`, `table`, `script`, `plan`,
/// `sums`.
pub fn cannot_read_line(input: Input) -> Line
    ensures text { result ≡ line_of (cannot_read_text input) }
{
    whole(match input {
        Input::Cart => "cannot read cart\n",
        Input::Boot => "cannot read boot\n",
        Input::Spc => "cannot read spc\n",
        Input::Table => "cannot read table\n",
        Input::Script => "cannot read script\n",
        Input::Plan => "cannot read plan\n",
        Input::Sums => "cannot read sums\n",
    })
}

/// Returns the line of an output that was not written: `cannot write video`, or `sound`, `image`, `sums`, `state`,
/// `spc`. There is none for `Out::Say`, which the lines themselves go to.
pub fn cannot_write_line(out: Out) -> Option<Line>
    ensures text { result ≡ option_map line_of (cannot_write_text out) }
{
    match out {
        Out::Video => Some(whole("cannot write video\n")),
        Out::Sound => Some(whole("cannot write sound\n")),
        Out::Image => Some(whole("cannot write image\n")),
        Out::Sums => Some(whole("cannot write sums\n")),
        Out::State => Some(whole("cannot write state\n")),
        Out::Spc => Some(whole("cannot write spc\n")),
        Out::Say => None,
    }
}

/// Returns the line of a refused cartridge: `cart refused: too short`, `too long`, `no header`, `coprocessor 13` (two
/// hexadecimal digits) or `ram size 8`.
pub fn cart_refused_line(cause: CartRefused) -> Line
    ensures text { result ≡ line_of (cart_refused_text cause) }
{
    match cause {
        CartRefused::TooShort => whole("cart refused: too short\n"),
        CartRefused::TooLong => whole("cart refused: too long\n"),
        CartRefused::NoHeader => whole("cart refused: no header\n"),
        CartRefused::Coprocessor(chip) => coprocessor_line(chip),
        CartRefused::RamSize(size) => numbered_line("cart refused: ram size ", u64::from(size)),
    }
}

/// Returns the line of a refused boot ROM: `boot refused`.
pub fn boot_refused_line() -> Line
    ensures text { result ≡ line_of boot_refused_text }
{
    whole("boot refused\n")
}

/// Returns the line of a sound file that is too long: `spc refused: too long`.
pub fn spc_too_long_line() -> Line
    ensures text { result ≡ line_of spc_too_long_text }
{
    whole("spc refused: too long\n")
}

/// Returns the line of a sound file that is too short: `spc refused: too short`.
pub fn spc_too_short_line() -> Line
    ensures text { result ≡ line_of spc_too_short_text }
{
    whole("spc refused: too short\n")
}

/// Returns the line of a sound file that does not begin with its text: `spc refused: no text`.
pub fn spc_no_text_line() -> Line
    ensures text { result ≡ line_of spc_no_text_text }
{
    whole("spc refused: no text\n")
}

/// Returns the line of a refused table: `table refused at 511`. The number is 512 for a wrong length, else the index
/// of the first entry that is too large.
pub fn table_refused_line(entry: u16) -> Line
    ensures text { result ≡ line_of (table_refused_text entry) }
{
    numbered_line("table refused at ", u64::from(entry))
}

/// Returns the line of a refused script: `script refused at line 3`. The number is 0 if the script is too long, else
/// that of its first bad line.
pub fn script_refused_line(line: u32) -> Line
    ensures text { result ≡ line_of (script_refused_text line) }
{
    numbered_line("script refused at line ", u64::from(line))
}

/// Returns the line of a refused plan: `plan refused at line 3`. The number is 0 if the plan is too long, else that of
/// its first bad line.
pub fn plan_refused_line(line: u32) -> Line
    ensures text { result ≡ line_of (plan_refused_text line) }
{
    numbered_line("plan refused at line ", u64::from(line))
}

/// Returns the line of a file that is no sums: `sums refused at line 3`, at 0 for its length and else at its first bad line.
pub fn sums_refused_line(line: u32) -> Line
    ensures text { result ≡ line_of (sums_refused_text line) }
{
    numbered_line("sums refused at line ", u64::from(line))
}

/// Returns the line of a frame that differs first: `differs: frame 120 picture`, or `sound`.
pub fn frame_differs_line(frame: u32, side: Side) -> Line
    ensures text { result ≡ line_of (frame_differs_text frame side) }
{
    let mut line = Line::new();
    line.push("differs: frame ");
    line.push_number(u64::from(frame));
    line.push_column(side);
    line.push("\n");
    line
}

/// Returns the line of sums that have more frames than the run, or fewer: `differs: frames`.
pub fn frames_differ_line() -> Line
    ensures text { result ≡ line_of frames_differ_text }
{
    whole("differs: frames\n")
}

/// Returns the line of a sum of all frames that differs first: `differs: all picture`, or `sound`.
pub fn all_differ_line(side: Side) -> Line
    ensures text { result ≡ line_of (all_differ_text side) }
{
    let mut line = Line::new();
    line.push("differs: all");
    line.push_column(side);
    line.push("\n");
    line
}

fn coprocessor_line(chip: u8) -> Line
    ensures text { result ≡ line_of (cart_refused_text (CartRefused.Coprocessor chip)) }
{
    let mut line = Line::new();
    line.push("cart refused: coprocessor ");
    line.push_hex(chip);
    line.push("\n");
    line
}

/// Returns a line of a text followed by a number.
fn numbered_line(text: &str, number: u64) -> Line
    requires room { length text.now ≤ 128 }
    ensures text { result ≡ line_of (text.now ++ decimal number) }
{
    let mut line = Line::new();
    line.push(text);
    line.push_number(number);
    line.push("\n");
    line
}

/// Returns the line of a failed allocation: `no memory`.
pub fn no_memory_line() -> Line
    ensures text { result ≡ line_of no_memory_text }
{
    whole("no memory\n")
}

/// Returns exactly this text as a line.
pub(crate) fn whole(text: &str) -> Line
    requires room { length text.now ≤ 4096 }
    ensures same { result ≡ text.now }
{
    let mut line = Line::new();
    line.push(text);
    line
}
