ghost use Rattle.std.specs.Prelude.{◌≡◌};
ghost use Rattle.snes_commands.specs.Kinds.{input_of};
ghost use Rattle.snes_commands.specs.Status.{exit_of};

use cart_map::CartRefused;
use shelf::{Input, Out};
use spc_player::SpcRefused;

/// The reason why an input was not accepted.
#[derive(Clone, Copy, Debug, PartialEq, Eq)]
pub enum Why {
    /// The file is not a cartridge of this console.
    Cart(CartRefused),
    /// The boot ROM is not 64 bytes long.
    Boot,
    /// The file is not a sound file.
    Spc(SpcRefused),
    /// The interpolation table is not 1,024 bytes long (512), or this is its first entry above 2047.
    Table(u16),
    /// The script has more than 1,048,576 bytes (0), or this is its first invalid line, from 1.
    Script(u32),
    /// The plan has more than 1,048,576 bytes (0), or this is its first invalid line, from 1.
    Plan(u32),
    /// The sums have more than 5,000,000 bytes (0), or this is their first invalid line, from 1.
    Sums(u32),
}

impl Why {
    /// Returns the input that was not accepted.
    pub fn input(&self) -> Input
        ensures { result ≡ input_of self.now }
    {
        match self {
            Why::Cart(_) => Input::Cart,
            Why::Boot => Input::Boot,
            Why::Spc(_) => Input::Spc,
            Why::Table(_) => Input::Table,
            Why::Script(_) => Input::Script,
            Why::Plan(_) => Input::Plan,
            Why::Sums(_) => Input::Sums,
        }
    }
}

/// How a call of the program ended.
#[derive(Clone, Copy, PartialEq, Eq)]
pub enum Status {
    /// Everything was done.
    Ok,
    /// The arguments are invalid.
    Usage,
    /// This input was not loaded, and a fault of its name was counted.
    LoadFault(Input),
    /// An input was loaded and not accepted.
    Refused(Why),
    /// This output was not written, and a fault of it was counted.
    WriteFault(Out),
    /// Allocation failed.
    NoMemory,
    /// Everything was done, and what was compared differs.
    Differs,
}

impl Status {
    /// Returns the exit status of the process: 0 Ok, 1 Usage, 2 LoadFault, 3 Refused, 4 WriteFault, 5 NoMemory,
    /// 6 Differs.
    pub fn exit(&self) -> u8
        ensures { result ≡ exit_of self.now }
    {
        match self {
            Status::Ok => 0,
            Status::Usage => 1,
            Status::LoadFault(_) => 2,
            Status::Refused(_) => 3,
            Status::WriteFault(_) => 4,
            Status::NoMemory => 5,
            Status::Differs => 6,
        }
    }
}
