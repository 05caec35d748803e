ghost use Rattle.std.specs.Prelude.{◌≡◌, ◌≤◌, ◌<◌, decimal, OnOk, OnErr};
ghost use Rattle.shelf.specs.Told.{Appends, AppendsSome, HasRisen};
ghost use Rattle.shelf.specs.Shown.{OnlyPuts};
ghost use Rattle.frame_sums.specs.Digests.{row_in};
ghost use Rattle.frame_sums.specs.Text.{line_text, text_of};

use crate::digests::Digests;
use crate::line::SumsLine;
use shelf::{Failed, Out, Shelf};

/// Puts the text of the sums of a run to the output for sums, line by line.
pub fn put_sums<H: Shelf>(shelf: &mut H, video: &Digests, audio: &Digests) -> Result<(), Failed>
    requires same { video.now.of.frames ≡ audio.now.of.frames }
    ensures whole { OnOk result (Appends ((H.shown shelf.old).written Out.Sums) ((H.shown shelf.new).written Out.Sums)
        (text_of (row_in video.now.rows.items) (row_in audio.now.rows.items) video.now.all audio.now.all video.now.of.frames)) }
    ensures first { AppendsSome ((H.shown shelf.old).written Out.Sums) ((H.shown shelf.new).written Out.Sums)
        (text_of (row_in video.now.rows.items) (row_in audio.now.rows.items) video.now.all audio.now.all video.now.of.frames) }
    ensures failed { OnErr result (HasRisen ((H.shown shelf.old).write_faults Out.Sums) ((H.shown shelf.new).write_faults Out.Sums)) }
    ensures only { OnlyPuts (H.shown shelf.old) (H.shown shelf.new) Out.Sums }
{
    let head = SumsLine::head();
    let Ok(()) = put_line(shelf, &head) else {
        return Err(Failed);
    };
    for frame in 0..video.of.frames {
        let line = frame_line(frame, video, audio);
        let Ok(()) = put_line(shelf, &line) else {
            return Err(Failed);
        };
    }
    let line = SumsLine::of_all(&video.all, &audio.all);
    let Ok(()) = put_line(shelf, &line) else {
        return Err(Failed);
    };
    Ok(())
}

/// Puts a line.
fn put_line<H: Shelf>(shelf: &mut H, line: &SumsLine) -> Result<(), Failed>
    ensures whole { OnOk result (Appends ((H.shown shelf.old).written Out.Sums) ((H.shown shelf.new).written Out.Sums) line.now) }
    ensures some { OnErr result (AppendsSome ((H.shown shelf.old).written Out.Sums) ((H.shown shelf.new).written Out.Sums) line.now) }
    ensures failed { OnErr result (HasRisen ((H.shown shelf.old).write_faults Out.Sums) ((H.shown shelf.new).write_faults Out.Sums)) }
    ensures only { OnlyPuts (H.shown shelf.old) (H.shown shelf.new) Out.Sums }
{
    shelf.put(Out::Sums, line.bytes())
}

/// The line of a frame.
fn frame_line(frame: u32, video: &Digests, audio: &Digests) -> SumsLine
    requires same { video.now.of.frames ≡ audio.now.of.frames }
    requires within { frame < video.now.of.frames }
    ensures { result ≡ line_text (decimal frame) (row_in video.now.rows.items frame) (row_in audio.now.rows.items frame) }
{
    let at = frame as usize;
    SumsLine::of_frame(frame, &video.rows[at], &audio.rows[at])
}
