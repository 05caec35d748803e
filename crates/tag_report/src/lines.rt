ghost use Rattle.std.specs.Prelude.{◌≡◌, ◌↔◌, ◌≤◌, [], Some, None, Err, IfOk, OnOk, length};
ghost use Rattle.sound_tags.specs.SoundFile.{refusal_of};
ghost use Rattle.sound_tags.specs.Header.{form_of};
ghost use Rattle.sound_tags.specs.AllTags.{number_of};
ghost use Rattle.tag_report.specs.Report.{form_text, with_number, with_names, with_notes, with_lengths, with_ticks, with_settings, with_album, report_of};

use crate::line::{push_number, push_text, push_track};
use sound_tags::{Form, NotSoundFile, NumberTag, TextTag, form_of, number_of, refusal, text_of};
use std::alloc::{AllocError, Global};

/// Why there is no report.
#[derive(Clone, Copy)]
pub enum ReportEnd {
    /// The file is not a sound file, for this cause.
    Refused(NotSoundFile),
    /// Memory ran out.
    NoMemory,
}

/// The line that says which form the header's tags have.
#[tactic(auto, unfolding(crate::specs::Report::form_text))]
fn form_text(form: Option<Form>) -> &'static str
    ensures { result.now ≡ form_text form }
{
    match form {
        None => "header: no tags\n",
        Some(Form::Text) => "header: text\n",
        Some(Form::Binary) => "header: binary\n",
    }
}

/// Adds the names.
#[tactic(auto, unfolding(crate::specs::Report::with_names))]
fn push_names(out: &mut Vec<u8>, file: &[u8]) -> Result<(), AllocError>
    requires { 65920 ≤ length file.now }
    ensures { OnOk result (out.new.items ≡ with_names out.old.items file.now) }
{
    push_text(out, "title: ", text_of(file, TextTag::Title))?;
    push_text(out, "game: ", text_of(file, TextTag::Game))?;
    push_text(out, "artist: ", text_of(file, TextTag::Artist))?;
    push_text(out, "dumper: ", text_of(file, TextTag::Dumper))
}

/// Adds the other texts.
#[tactic(auto, unfolding(crate::specs::Report::with_notes))]
fn push_notes(out: &mut Vec<u8>, file: &[u8]) -> Result<(), AllocError>
    requires { 65920 ≤ length file.now }
    ensures { OnOk result (out.new.items ≡ with_notes out.old.items file.now) }
{
    push_text(out, "date-text: ", text_of(file, TextTag::Date))?;
    push_text(out, "comment: ", text_of(file, TextTag::Comment))?;
    push_text(out, "soundtrack: ", text_of(file, TextTag::Soundtrack))?;
    push_text(out, "publisher: ", text_of(file, TextTag::Publisher))
}

/// Adds the line of a number, if the file has it.
fn push_tag(out: &mut Vec<u8>, name: &str, file: &[u8], tag: NumberTag) -> Result<(), AllocError>
    requires { 65920 ≤ length file.now }
    ensures { OnOk result (out.new.items ≡ with_number out.old.items name.now (number_of file.now tag)) }
{
    push_number(out, name, number_of(file, tag))
}

/// Adds how long the file is played.
#[tactic(auto, unfolding(crate::specs::Report::with_lengths))]
fn push_lengths(out: &mut Vec<u8>, file: &[u8]) -> Result<(), AllocError>
    requires { 65920 ≤ length file.now }
    ensures { OnOk result (out.new.items ≡ with_lengths out.old.items file.now) }
{
    push_tag(out, "length: ", file, NumberTag::Length)?;
    push_tag(out, "fade: ", file, NumberTag::Fade)
}

/// Adds the lengths of the extended tags.
#[tactic(auto, unfolding(crate::specs::Report::with_ticks))]
fn push_ticks(out: &mut Vec<u8>, file: &[u8]) -> Result<(), AllocError>
    requires { 65920 ≤ length file.now }
    ensures { OnOk result (out.new.items ≡ with_ticks out.old.items file.now) }
{
    push_tag(out, "intro-ticks: ", file, NumberTag::Intro)?;
    push_tag(out, "loop-ticks: ", file, NumberTag::Loop)?;
    push_tag(out, "end-ticks: ", file, NumberTag::End)?;
    push_tag(out, "fade-ticks: ", file, NumberTag::FadeTicks)
}

/// Adds what else says how the file is played.
#[tactic(auto, unfolding(crate::specs::Report::with_settings))]
fn push_settings(out: &mut Vec<u8>, file: &[u8]) -> Result<(), AllocError>
    requires { 65920 ≤ length file.now }
    ensures { OnOk result (out.new.items ≡ with_settings out.old.items file.now) }
{
    push_tag(out, "loops: ", file, NumberTag::Loops)?;
    push_tag(out, "muted: ", file, NumberTag::Muted)?;
    push_tag(out, "amplification: ", file, NumberTag::Amplification)
}

/// Adds what says where the tune is from.
#[tactic(auto, unfolding(crate::specs::Report::with_album))]
fn push_album(out: &mut Vec<u8>, file: &[u8]) -> Result<(), AllocError>
    requires { 65920 ≤ length file.now }
    ensures { OnOk result (out.new.items ≡ with_album out.old.items file.now) }
{
    push_number(out, "date: ", number_of(file, NumberTag::Date))?;
    push_number(out, "disc: ", number_of(file, NumberTag::Disc))?;
    push_track(out, number_of(file, NumberTag::Track))?;
    push_number(out, "year: ", number_of(file, NumberTag::Year))?;
    push_number(out, "emulator: ", number_of(file, NumberTag::Emulator))
}

/// Adds all lines.
#[tactic(auto, unfolding(crate::specs::Report::report_of))]
fn push_all(out: &mut Vec<u8>, file: &[u8]) -> Result<(), AllocError>
    requires size { 65920 ≤ length file.now }
    requires empty { out.old.items ≡ [] }
    ensures { OnOk result (out.new.items ≡ report_of file.now) }
{
    out.extend_from_slice(form_text(form_of(file)).as_bytes())?;
    push_names(out, file)?;
    push_notes(out, file)?;
    push_lengths(out, file)?;
    push_ticks(out, file)?;
    push_settings(out, file)?;
    push_album(out, file)
}

/// Returns the lines of a sound file: the form of its header, and a line for each tag that is there. A file that is
/// not a sound file is refused.
pub fn report(alloc: Global, file: &[u8]) -> Result<Vec<u8>, ReportEnd>
    ensures text { IfOk result (λ text. text.items ≡ report_of file.now) }
    ensures accepted { OnOk result (refusal_of file.now ≡ None) }
    ensures refused { (why : NotSoundFile) → result ≡ Err (ReportEnd.Refused why) ↔ refusal_of file.now ≡ Some why }
{
    if let Some(why) = refusal(file) {
        return Err(ReportEnd::Refused(why));
    }
    let mut text = Vec::new(alloc);
    match push_all(&mut text, file) {
        Ok(()) => Ok(text),
        Err(_) => Err(ReportEnd::NoMemory),
    }
}
