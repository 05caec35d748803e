// The two machines, and the eight bytes between them.
ghost use Rattle.std.specs.Prelude.{◌≡◌};
ghost use Rattle.side_law.specs.Serial.{SerialState};
ghost use Rattle.serial_console.specs.Serial.{IsAt, console_of, sound_of};
ghost use Rattle.serial_console.specs.Ports.{bytes_to_sound, bytes_to_console};

use crate::serial::Serial;
use side_law::Machine;

impl<C: Machine, S: Machine> Serial<C, S> {
    /// Returns the two machines, the console first.
    #[inline(always)]
    pub fn machines(&self) -> (&C, &S)
        ensures console { result.0.now ≡ console_of self.now }
        ensures sound { result.1.now ≡ sound_of self.now }
    {
        (&self.console, &self.rest.sound)
    }

    /// Returns the bytes that go to the sound side, then those that go to the console, each by its port.
    pub fn ports(&self) -> ([u8; 4], [u8; 4])
        ensures to_sound { result.0 ≡ bytes_to_sound self.now }
        ensures to_console { result.1 ≡ bytes_to_console self.now }
        ensures of_the_state { (w : SerialState C.State S.State) → IsAt C.stands S.stands self.now w
            → (result.0 ≡ w.to_sound) × (result.1 ≡ w.to_console) }
    {
        (self.rest.bytes.incoming, self.rest.bytes.outgoing)
    }

    /// Sets the bytes that go to the sound side, and those that go to the console. All else stays.
    pub fn set_ports(&mut self, to_sound: [u8; 4], to_console: [u8; 4])
        ensures to_sound { bytes_to_sound self.new ≡ to_sound }
        ensures to_console { bytes_to_console self.new ≡ to_console }
        ensures console { console_of self.new ≡ console_of self.old }
        ensures sound { sound_of self.new ≡ sound_of self.old }
        ensures of_the_state { (w : SerialState C.State S.State) → IsAt C.stands S.stands self.old w
            → IsAt C.stands S.stands self.new (record w { to_sound = to_sound; to_console = to_console }) }
    {
        self.rest.bytes.incoming = to_sound;
        self.rest.bytes.outgoing = to_console;
    }
}
