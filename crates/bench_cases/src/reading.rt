//! Reads a bench file: the cases of its TOML.

use crate::fields::Fields;
use crate::warnings::no_warnings_in;
use anyhow::{Context, Result, bail};
use bench_checks::{Address, Case, Expected, FrameCheck, Memory, MemoryCheck, Reach, Sum};
use snes_defs::{MOST_FRAMES, Profile, Region};
use std::alloc::Global;
use toml::Table;

/// The keys of a case.
static CASE: [&str; 19] = [
    "name", "cart", "boot", "table", "script", "region", "profile", "frames", "symbols", "sums",
    "film", "sound", "warnings", "allow", "allowed", "refused", "frame", "memory", "reach",
];

/// The keys of a frame's check.
static FRAME: [&str; 4] = ["at", "picture", "sound", "png"];

/// The keys of an awaited instruction.
static REACH: [&str; 4] = ["address", "label", "offset", "within"];

/// The keys of a memory check.
static MEMORY: [&str; 13] = [
    "at", "wram", "sram", "vram", "cgram", "oam", "aram", "bus", "label", "offset", "byte", "word",
    "bytes",
];

/// Each memory, the key of an offset in it, and its greatest offset.
static MEMORIES: [(&str, Memory, u32); 7] = [
    ("wram", Memory::Wram, 0x1FFFF),
    ("sram", Memory::Sram, 0x1FFFF),
    ("vram", Memory::Vram, 0xFFFF),
    ("cgram", Memory::Cgram, 0x1FF),
    ("oam", Memory::Oam, 0x21F),
    ("aram", Memory::Aram, 0xFFFF),
    ("bus", Memory::Bus, 0xFF_FFFF),
];

/// What is expected of a part of a run: a table of a list of the case.
trait Part: Drop + Sized {
    /// The key of the list.
    fn key() -> &'static str;

    /// The keys of a table.
    fn keys() -> &'static [&'static str];

    /// Reads a table. The run has so many frames.
    fn read(alloc: Global, fields: &mut Fields<'_>, frames: u32) -> Self;
}

/// The frame of a check, which the run has to have.
fn frame_in(fields: &mut Fields<'_>, frames: u32) -> u32 {
    let at = fields.needed_number("at", MOST_FRAMES);
    if at >= frames {
        fields.refuse(format_args!("the run has no frame {at}"));
    }
    at
}

/// The sum of a key.
fn sum_in(fields: &mut Fields<'_>, key: &str) -> Option<Sum> {
    let sum = Sum::read(fields.text_in(key)?);
    if sum.is_none() {
        fields.refuse(format_args!("{key} is no sum of 64 hexadecimal digits"));
    }
    sum
}

impl Part for FrameCheck {
    fn key() -> &'static str {
        "frame"
    }

    fn keys() -> &'static [&'static str] {
        &FRAME
    }

    fn read(alloc: Global, fields: &mut Fields<'_>, frames: u32) -> FrameCheck {
        let check = FrameCheck {
            at: frame_in(fields, frames),
            picture: sum_in(fields, "picture"),
            sound: sum_in(fields, "sound"),
            png: fields.text(alloc, "png"),
        };
        if check.picture.is_none() && check.sound.is_none() && check.png.is_none() {
            fields.refuse("none of picture, sound and png is expected");
        }
        check
    }
}

/// The address of a label, if one is named.
fn label_in(alloc: Global, fields: &mut Fields<'_>) -> Option<Address> {
    let offset = fields.number("offset", 0xFFFF);
    match fields.text(alloc, "label") {
        Some(label) => Some(Address::Label(label, offset.unwrap_or(0))),
        None => {
            if offset.is_some() {
                fields.refuse("an offset goes with a label");
            }
            None
        }
    }
}

/// The memory of a check and the offset in it, if one is named. With a label it is one place too many.
fn number_in(fields: &mut Fields<'_>, has_label: bool) -> Option<(Memory, u32)> {
    let mut place = None;
    for entry in MEMORIES.as_slice() {
        let (key, memory, most) = *entry;
        if let Some(at) = fields.number(key, most) {
            if has_label || place.is_some() {
                fields.refuse("more than one place");
            }
            place = Some((memory, at));
        }
    }
    place
}

/// Where a memory check looks: one place.
fn place_in(alloc: Global, fields: &mut Fields<'_>) -> (Memory, Address) {
    let label = label_in(alloc, fields);
    match (number_in(fields, label.is_some()), label) {
        (Some((memory, at)), _) => (memory, Address::At(at)),
        (None, Some(address)) => (Memory::Bus, address),
        (None, None) => {
            fields.refuse("no place, as wram = 0x10");
            (Memory::Bus, Address::At(0))
        }
    }
}

/// What a memory check expects: one value.
fn expected_in(alloc: Global, fields: &mut Fields<'_>) -> Expected {
    let byte = fields.bounds("byte", 0xFF);
    let word = fields.bounds("word", 0xFFFF);
    match (byte, word, fields.bytes(alloc, "bytes")) {
        (Some((least, most)), None, None) => Expected::Byte(least, most),
        (None, Some((least, most)), None) => Expected::Word(least, most),
        (None, None, Some(bytes)) => Expected::Bytes(bytes),
        (None, None, None) => {
            fields.refuse("no value, as byte = 0x2A");
            Expected::Byte(0, 0)
        }
        _ => {
            fields.refuse("more than one value");
            Expected::Byte(0, 0)
        }
    }
}

impl Part for MemoryCheck {
    fn key() -> &'static str {
        "memory"
    }

    fn keys() -> &'static [&'static str] {
        &MEMORY
    }

    fn read(alloc: Global, fields: &mut Fields<'_>, frames: u32) -> MemoryCheck {
        let (memory, place) = place_in(alloc, fields);
        MemoryCheck {
            at: frame_in(fields, frames),
            memory,
            place,
            expected: expected_in(alloc, fields),
        }
    }
}

/// The address of an awaited instruction: its number or its label.
fn address_in(alloc: Global, fields: &mut Fields<'_>) -> Address {
    match (fields.number("address", 0xFF_FFFF), label_in(alloc, fields)) {
        (Some(number), None) => Address::At(number),
        (None, Some(label)) => label,
        _ => {
            fields.refuse("one address or label has to be there");
            Address::At(0)
        }
    }
}

impl Part for Reach {
    fn key() -> &'static str {
        "reach"
    }

    fn keys() -> &'static [&'static str] {
        &REACH
    }

    fn read(alloc: Global, fields: &mut Fields<'_>, frames: u32) -> Reach {
        let address = address_in(alloc, fields);
        let within = fields.needed_number("within", MOST_FRAMES);
        if within > frames || within == 0 {
            fields.refuse("within is from 1 to the frames of the run");
        }
        Reach { address, within }
    }
}

/// Reads a table of a list of the case, and adds what it says.
fn add_part<T: Part>(
    alloc: Global,
    fields: &mut Fields<'_>,
    place: usize,
    table: &Table,
    frames: u32,
    list: &mut Vec<T>,
) {
    let Some(path) = fields.path_of(alloc, T::key(), place) else {
        return;
    };
    let mut own = Fields::new(path.as_str(), table, T::keys());
    let one = T::read(alloc, &mut own, frames);
    fields.note(own.end());
    fields.push(list, one);
}

/// Reads a list of the case.
fn parts_in<T: Part>(alloc: Global, fields: &mut Fields<'_>, frames: u32) -> Vec<T> {
    let mut list = Vec::new(alloc);
    let tables = fields.tables(alloc, T::key());
    for (place, table) in tables.as_slice().iter().enumerate() {
        add_part(alloc, fields, place, *table, frames, &mut list);
    }
    list
}

/// How many frames a case runs: none if its cartridge is to be refused.
fn frames_in(fields: &mut Fields<'_>, is_refused: bool) -> u32 {
    if is_refused {
        for key in [
            "frames", "sums", "film", "sound", "warnings", "frame", "memory", "reach",
        ] {
            if fields.has(key) {
                fields.refuse(format_args!(
                    "nothing runs if the cartridge is refused, so there is no {key}"
                ));
            }
        }
        return 0;
    }
    let frames = fields.needed_number("frames", MOST_FRAMES);
    if frames == 0 {
        fields.refuse("at least 1 frame has to run");
    }
    frames
}

/// Whether a text has a character, and no control character.
fn is_line(text: &str) -> bool {
    for character in text.chars() {
        if character.is_control() {
            return false;
        }
    }
    !text.is_empty()
}

/// The name of a case, which takes one line.
fn name_in(alloc: Global, fields: &mut Fields<'_>) -> String {
    let name = fields.needed_text(alloc, "name");
    if !is_line(name.as_str()) {
        fields.refuse("name is no text of one line");
    }
    name
}

/// Reads a case.
fn case_in(alloc: Global, fields: &mut Fields<'_>) -> Case {
    let refused = fields.text(alloc, "refused");
    let frames = frames_in(fields, refused.is_some());
    Case {
        refused,
        frames,
        name: name_in(alloc, fields),
        cart: fields.needed_text(alloc, "cart"),
        boot: fields.text(alloc, "boot"),
        table: fields.text(alloc, "table"),
        script: fields.text(alloc, "script"),
        region: fields.one_of("region", ("ntsc", Region::Ntsc), ("pal", Region::Pal)),
        profile: fields.one_of(
            "profile",
            ("first", Profile::First),
            ("second", Profile::Second),
        ),
        symbols: fields.text(alloc, "symbols"),
        sums: fields.text(alloc, "sums"),
        film: fields.text(alloc, "film"),
        no_warnings: no_warnings_in(alloc, fields),
        is_heard: fields.one_of("sound", ("heard", true), ("silent", false)),
        frame_checks: parts_in(alloc, fields, frames),
        memory_checks: parts_in(alloc, fields, frames),
        reaches: parts_in(alloc, fields, frames),
    }
}

/// Whether a case of this name is among these.
fn is_named(cases: &[Case], name: &str) -> bool {
    for case in cases {
        if case.name.as_str() == name {
            return true;
        }
    }
    false
}

/// Reads a case of a file, and adds it to those before it.
fn add_case(
    alloc: Global,
    fields: &mut Fields<'_>,
    place: usize,
    table: &Table,
    cases: &mut Vec<Case>,
) {
    let Some(path) = fields.path_of(alloc, "case", place) else {
        return;
    };
    let mut own = Fields::new(path.as_str(), table, &CASE);
    let case = case_in(alloc, &mut own);
    if is_named(cases.as_slice(), case.name.as_str()) {
        own.refuse("there is another case of this name");
    }
    fields.note(own.end());
    fields.push(cases, case);
}

/// Reads the cases of a file's table into a list.
fn read_tables(alloc: Global, name: &str, table: &Table, cases: &mut Vec<Case>) -> Result<()> {
    let mut fields = Fields::new(name, table, &["case"]);
    let tables = fields.tables(alloc, "case");
    for (place, table) in tables.as_slice().iter().enumerate() {
        add_case(alloc, &mut fields, place, *table, cases);
    }
    fields.end()
}

/// Reads the cases of a file. `name` is what messages call it.
pub fn read_cases(alloc: Global, name: &str, text: &str) -> Result<Vec<Case>> {
    let table = toml::table_from_str(alloc, text).context(format_args!("{name} refused"))?;
    let mut cases = Vec::new(alloc);
    read_tables(alloc, name, &table, &mut cases)?;
    if cases.is_empty() {
        bail!("{name} refused: it has no case");
    }
    Ok(cases)
}
