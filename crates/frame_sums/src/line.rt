ghost use Rattle.std.specs.Prelude.{◌≡◌, ◌≤◌, ◌<◌, ◌+◌, ◌++◌, ◌∷◌, [], length, codes, decimal};
ghost use Rattle.frame_sums.specs.Text.{hex_digit, hex_text, head_text, line_text};

use arrayvec::ArrayString;
use itoa::Buffer;
use std::marker::Model;

/// The most bytes of a line.
const ROOM: usize = 256;

/// One line of the text, ended by LF. It is made without memory.
#[derive(Drop)]
pub(crate) struct SumsLine {
    text: ArrayString<ROOM>,
}

impl Model for SumsLine {
    ghost use Rattle.std.specs.Prelude.{List, ℕ};

    ghost Value = { List ℕ };

    ghost view = { λ l. l.text.bytes };
}

impl SumsLine {
    /// The bytes of the line, LF included.
    pub(crate) fn bytes(&self) -> &[u8]
        ensures { result.now ≡ self.now }
    {
        self.text.as_bytes()
    }

    /// The first line.
    pub(crate) fn head() -> SumsLine
        ensures { result ≡ head_text }
    {
        let mut line = SumsLine::new();
        line.push("frame,picture,sound\n");
        line
    }

    /// The line of a frame.
    pub(crate) fn of_frame(frame: u32, picture: &[u8; 32], sound: &[u8; 32]) -> SumsLine
        ensures { result ≡ line_text (decimal frame) picture.now sound.now }
    {
        let mut digits = Buffer::new();
        SumsLine::of(digits.format(frame), picture, sound)
    }

    /// The last line.
    pub(crate) fn of_all(video: &[u8; 32], audio: &[u8; 32]) -> SumsLine
        ensures { result ≡ line_text (codes "all") video.now audio.now }
    {
        SumsLine::of("all", video, audio)
    }

    /// A line of this name with two sums.
    #[tactic(auto, using(crate::proofs::TextLemmas::line_is))]
    fn of(name: &str, picture: &[u8; 32], sound: &[u8; 32]) -> SumsLine
        requires { length name.now ≤ 40 }
        ensures { result ≡ line_text name.now picture.now sound.now }
    {
        let mut line = SumsLine::new();
        line.push(name);
        line.push(",");
        line.push_hex(picture);
        line.push(",");
        line.push_hex(sound);
        line.push("\n");
        line
    }

    fn new() -> SumsLine
        ensures { result ≡ [] }
    {
        SumsLine {
            text: ArrayString::new(),
        }
    }

    fn push(&mut self, text: &str)
        requires room { length self.old + length text.now ≤ 256 }
        ensures appended { self.new ≡ self.old ++ text.now }
    {
        self.text.push_str(text);
    }

    /// A sum in hexadecimal digits.
    fn push_hex(&mut self, digest: &[u8; 32])
        requires room { length self.old + 64 ≤ 256 }
        ensures appended { self.new ≡ self.old ++ hex_text digest.now }
        ensures longer { length self.new ≡ length self.old + 64 }
    {
        for byte in digest {
            self.push_digit(*byte / 16);
            self.push_digit(*byte % 16);
        }
    }

    fn push_digit(&mut self, number: u8)
        requires digit { number < 16 }
        requires room { length self.old < 256 }
        ensures appended { self.new ≡ self.old ++ hex_digit number ∷ [] }
    {
        self.text.push(char::from(digit(number)));
    }
}

/// The small hexadecimal digit of a number below 16.
fn digit(number: u8) -> u8
    requires { number < 16 }
    ensures digit { result ≡ hex_digit number }
    ensures ascii { result < 128 }
{
    if number < 10 {
        b'0' + number
    } else {
        b'a' + (number - 10)
    }
}
