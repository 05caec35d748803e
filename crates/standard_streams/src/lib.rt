// Keeps descriptors 0, 1 and 2 open before a program opens a file of its own.
//
// A shell can start a program without them (`>&-`). The system gives the lowest free number to the next file.
// So a file to write could become standard output, and what the program prints would land in it. Each program here
// holds the three before it opens anything. One that was closed then refuses every write, as a closed one should.
#![tactic(auto)]

ghost use Rattle.std.specs.Prelude.{pos, ◌<ℤ◌, ◌≤ℤ◌, IfSome};
ghost use Rattle.std.specs.Fd.{file_raw_fd};
ghost use Rattle.standard_streams.specs.Held.{IsLow, AreHeld};

use std::fs;
use std::fs::File;
use std::os::fd::AsRawFd;

/// The files that keep descriptors 0 to 2 open, held for as long as the program opens files.
#[derive(Drop)]
pub struct HeldStreams {
    first: Option<File>,
    second: Option<File>,
    third: Option<File>,
    above: Option<File>,
}

/// Opens files that nothing can be written to until one has a number above 2, and holds them. If the system opens no
/// more files, those that it opened are held.
pub fn hold_standard_streams(rt: &HostRuntime) -> HeldStreams
    ensures { AreHeld result }
{
    let mut held = HeldStreams {
        first: None,
        second: None,
        third: None,
        above: None,
    };
    held.above = open_one(rt, &mut held.first);
    if held.above.is_none() {
        held.above = open_one(rt, &mut held.second);
    }
    if held.above.is_none() {
        held.above = open_one(rt, &mut held.third);
    }
    if held.above.is_none() {
        let mut none = None;
        held.above = open_one(rt, &mut none);
    }
    held
}

/// Opens a file that nothing can be written to. One with a number up to 2 goes to `low`, any other is the result.
fn open_one(rt: &HostRuntime, low: &mut Option<File>) -> Option<File>
    requires { IsLow low.old }
    ensures low { IsLow low.new }
    ensures above { IfSome result (λ file. pos 2 <ℤ file_raw_fd file) }
{
    let file = open_idle(rt)?;
    if file.as_raw_fd() > 2 {
        return Some(file);
    }
    *low = Some(file);
    None
}

/// The null device for reading, or else the root folder.
fn open_idle(rt: &HostRuntime) -> Option<File> {
    match fs::open(rt, "/dev/null") {
        Ok(file) => Some(file),
        Err(_) => fs::open(rt, "/").ok(),
    }
}
