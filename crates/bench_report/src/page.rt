//! The page of what failed: pictures side by side, and the sound to play.

use crate::escape::push_escaped;
use anyhow::{Context, Result, bail};
use bench_checks::{Case, End, Golden, Shot, Verdict};
use film_formats::{FRAME_BYTES, frame_png, marked_png, wav_header};
use std::alloc::{AllocError, Global};
use std::fs;
use std::rt::Files;

/// What the page begins with.
static HEAD: &str = "<!doctype html>
<html lang=\"en\"><head><meta charset=\"utf-8\"><title>bench</title>
<style>body{font-family:sans-serif;margin:2em}figure{display:inline-block;margin:0 1em 1em 0}img{width:512px;height:478px;image-rendering:pixelated;background:#000}li{font-family:monospace}</style>
</head><body>
";

/// A page while it is made.
#[derive(Drop)]
pub struct Page<'a> {
    alloc: Global,
    folder: &'a str,
    text: String,
    number: usize,
}

/// Writes a whole file.
fn write_file<R: Files>(rt: &R, path: &str, bytes: &[u8]) -> Result<()> {
    fs::write(rt, path, bytes).context(format_args!("cannot write {path}"))
}

/// The PNG of a picture.
fn png_of(alloc: Global, picture: &[u8]) -> Result<Vec<u8>> {
    if picture.len() != FRAME_BYTES {
        bail!("a picture has {FRAME_BYTES} bytes");
    }
    Ok(frame_png(alloc, picture, 2)?)
}

/// The PNG of where two pictures differ.
fn difference_of(alloc: Global, came: &[u8], expected: &[u8]) -> Result<Vec<u8>> {
    if came.len() != FRAME_BYTES || expected.len() != FRAME_BYTES {
        bail!("a picture has {FRAME_BYTES} bytes");
    }
    Ok(marked_png(alloc, came, expected)?)
}

/// The WAV of samples.
fn wav_of(alloc: Global, samples: &[u8]) -> Result<Vec<u8>> {
    match u32::try_from(samples.len()) {
        Ok(count) if count <= u32::MAX - 36 => {
            let mut bytes = wav_header(alloc, count)?;
            bytes.extend_from_slice(samples)?;
            Ok(bytes)
        }
        _ => bail!("too many samples for a WAV"),
    }
}

impl<'a> Page<'a> {
    /// Returns a page without a case. Its folder is made.
    pub fn new<R: Files + AllocGlobal>(rt: &R, folder: &'a str, name: &str) -> Result<Page<'a>> {
        let alloc = rt.alloc();
        fs::create_dir_all(rt, folder).context(format_args!("cannot write {folder}"))?;
        let mut text = String::from_str(alloc, HEAD)?;
        text.push_str("<h1>")?;
        push_escaped(&mut text, name)?;
        text.push_str("</h1>\n")?;
        Ok(Page {
            alloc,
            folder,
            text,
            number: 0,
        })
    }

    /// The path of a file of the case that is added.
    fn path(&self, name: &str) -> Result<String, AllocError> {
        let (folder, number) = (self.folder, self.number);
        format!(in self.alloc; "{folder}/case{number}-{name}")
    }

    /// Adds a picture of a frame, and writes its file. `what` is which of the frame's pictures it is, one word.
    fn add_picture<R: Files>(&mut self, rt: &R, frame: u32, what: &str, png: &[u8]) -> Result<()> {
        let (alloc, number) = (self.alloc, self.number);
        let name = format!(in alloc; "frame{frame}-{what}.png")?;
        let path = self.path(name.as_str())?;
        write_file(rt, path.as_str(), png)?;
        let name = name.as_str();
        let caption = match what {
            "came" => "as it came",
            "difference" => "the difference, red",
            _ => what,
        };
        let figure = format!(in alloc;
            "<figure><img src=\"case{number}-{name}\" alt=\"frame {frame}, {caption}\"><figcaption>frame {frame}, {caption}</figcaption></figure>\n"
        )?;
        self.text.push_str(figure.as_str())?;
        Ok(())
    }

    /// Adds a golden picture, and where the picture that came differs from it.
    fn add_golden<R: Files>(&mut self, rt: &R, shot: &Shot, golden: &Golden) -> Result<()> {
        let alloc = self.alloc;
        let came = shot.came.as_slice();
        let difference = match golden {
            Golden::Frame(bytes) => {
                let png = png_of(alloc, bytes.as_slice())?;
                self.add_picture(rt, shot.frame, "expected", png.as_slice())?;
                difference_of(alloc, came, bytes.as_slice())?
            }
            Golden::Png(file, turned) => {
                self.add_picture(rt, shot.frame, "expected", file.as_slice())?;
                difference_of(alloc, came, turned.as_slice())?
            }
        };
        self.add_picture(rt, shot.frame, "difference", difference.as_slice())
    }

    /// Adds the pictures of a frame.
    fn add_shot<R: Files>(&mut self, rt: &R, shot: &Shot) -> Result<()> {
        let png = png_of(self.alloc, shot.came.as_slice())?;
        self.add_picture(rt, shot.frame, "came", png.as_slice())?;
        if let Some(golden) = &shot.expected {
            self.add_golden(rt, shot, golden)?;
        }
        self.text.push_str("<br>\n")?;
        Ok(())
    }

    /// Adds the sound of a run.
    fn add_sound<R: Files>(&mut self, rt: &R, samples: &[u8]) -> Result<()> {
        let path = self.path("sound.wav")?;
        let wav = wav_of(self.alloc, samples)?;
        write_file(rt, path.as_str(), wav.as_slice())?;
        let number = self.number;
        let player = format!(in self.alloc;
            "<p><audio controls src=\"case{number}-sound.wav\"></audio></p>\n"
        )?;
        self.text.push_str(player.as_str())?;
        Ok(())
    }

    /// Adds a case, if something is wrong with it.
    pub fn add<R: Files>(&mut self, rt: &R, case: &Case, verdict: &Verdict) -> Result<()> {
        self.number = self.number.saturating_add(1);
        if verdict.end() == End::Passed {
            return Ok(());
        }
        self.text.push_str("<h2>")?;
        push_escaped(&mut self.text, case.name.as_str())?;
        self.text.push_str("</h2>\n<ul>\n")?;
        for line in verdict.lines.as_slice() {
            self.text.push_str("<li>")?;
            push_escaped(&mut self.text, line.as_str())?;
            self.text.push_str("</li>\n")?;
        }
        self.text.push_str("</ul>\n")?;
        for shot in verdict.shots.as_slice() {
            self.add_shot(rt, shot)?;
        }
        if !verdict.sound.is_empty() {
            self.add_sound(rt, verdict.sound.as_slice())?;
        }
        Ok(())
    }

    /// Writes the page, with this line at its end.
    pub fn write<R: Files>(mut self, rt: &R, line: &str) -> Result<()> {
        self.text.push_str("<p>")?;
        self.text.push_str(line)?;
        self.text.push_str("</p>\n</body></html>\n")?;
        let folder = self.folder;
        let path = format!(in self.alloc; "{folder}/index.html")?;
        write_file(rt, path.as_str(), self.text.as_bytes())
    }
}
