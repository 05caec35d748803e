ghost use Rattle.std.specs.Prelude.{◌<◌};

use film_avi::{Layout, file_head, samples_upto};
use film_formats::{
    Adler, Colour, Piece, crc_of_chunk, first_apart, png_file, read_piece, wav_header,
};
use png_reader::{Picture, PngFault, read_png};
use snes_defs::Region;
use std::alloc::{AllocError, Global};
use std::test::Fail;

/// The PNG of two dots, red and dark blue, with a palette of both. Its block is worked out by hand: the bits 1 1 0, the
/// codes 00110000 00110000 00110001 0000000, and six zeros. zlib makes the same block of the row 0 0 1 with fixed codes.
static TWO_DOTS: [u8; 86] = [
    137, 80, 78, 71, 13, 10, 26, 10, 0, 0, 0, 13, 73, 72, 68, 82, 0, 0, 0, 2, 0, 0, 0, 1, 8, 3, 0,
    0, 0, 195, 252, 143, 184, 0, 0, 0, 6, 80, 76, 84, 69, 255, 0, 0, 8, 16, 24, 22, 30, 201, 188,
    0, 0, 0, 11, 73, 68, 65, 84, 120, 1, 99, 96, 96, 4, 0, 0, 4, 0, 2, 139, 47, 60, 19, 0, 0, 0, 0,
    73, 69, 78, 68, 174, 66, 96, 130,
];

/// A picture of 16 by 10 in three colours of a palette of 13, 4 bits each, all five filters in turn, packed by zlib with
/// codes of its own.
static FILTERED: [u8; 203] = [
    137, 80, 78, 71, 13, 10, 26, 10, 0, 0, 0, 13, 73, 72, 68, 82, 0, 0, 0, 16, 0, 0, 0, 10, 4, 3,
    0, 0, 0, 79, 144, 195, 175, 0, 0, 0, 39, 80, 76, 84, 69, 0, 1, 2, 3, 4, 5, 6, 7, 8, 9, 10, 11,
    12, 13, 14, 15, 16, 17, 18, 19, 20, 21, 22, 23, 24, 25, 26, 27, 28, 29, 30, 31, 32, 33, 34, 35,
    36, 37, 38, 153, 206, 127, 30, 0, 0, 0, 95, 73, 68, 65, 84, 120, 1, 5, 193, 161, 13, 128, 48,
    16, 64, 209, 15, 156, 233, 10, 172, 113, 162, 6, 129, 192, 224, 216, 2, 83, 113, 201, 141, 129,
    193, 177, 8, 9, 6, 84, 215, 96, 15, 18, 210, 16, 222, 35, 199, 168, 26, 213, 171, 108, 64, 88,
    82, 109, 128, 60, 137, 166, 5, 182, 171, 32, 82, 134, 115, 70, 10, 93, 212, 172, 238, 94, 249,
    100, 48, 30, 212, 24, 200, 17, 250, 230, 93, 207, 239, 235, 111, 19, 12, 8, 178, 255, 92, 245,
    25, 255, 147, 195, 56, 90, 0, 0, 0, 0, 73, 69, 78, 68, 174, 66, 96, 130,
];

/// A WAV file of no samples.
static SILENT: [u8; 44] = [
    82, 73, 70, 70, 36, 0, 0, 0, 87, 65, 86, 69, 102, 109, 116, 32, 16, 0, 0, 0, 1, 0, 2, 0, 0,
    125, 0, 0, 0, 244, 1, 0, 4, 0, 16, 0, 100, 97, 116, 97, 0, 0, 0, 0,
];

#[test]
fn sums_are_those_of_zlib(rt: HostRuntime) {
    let crc = crc_of_chunk(b"IEND", &[]);
    let adler = Adler::new().fed_all(b"Wikipedia").number();
    assert_eq!(rt; [crc, adler], [0xae42_6082, 0x11e6_0398]);
}

#[test]
fn a_picture_of_two_dots_is_that_of_zlib(rt: HostRuntime) -> Result<(), Fail> {
    let file = png_file(rt.alloc(), 2, 1, &[255, 0, 0, 8, 16, 24])?;
    assert!(rt; file.as_slice() == TWO_DOTS.as_slice());
    Ok(())
}

/// The Adler-32 of a picture's colours, row after row.
fn adler_of(picture: &Picture) -> u32 {
    let mut sums = Adler::new();
    for row in 0..picture.height() {
        for column in 0..picture.width() {
            if let Some(pixel) = picture.pixel(row, column) {
                sums = sums.fed_all(&pixel);
            }
        }
    }
    sums.number()
}

#[test]
fn a_picture_of_another_program_is_read(rt: HostRuntime) -> Result<(), Fail> {
    let found = read_png(rt.alloc(), &FILTERED)
        .ok()
        .map(|picture| adler_of(&picture));
    let mut wrong = FILTERED;
    wrong[120] ^= 1;
    let is_told = matches!(read_png(rt.alloc(), &wrong), Err(PngFault::Crc("IDAT")));
    let is_cut = matches!(read_png(rt.alloc(), &FILTERED[..202]), Err(PngFault::Cut));
    // zlib.adler32 of the colours, by the script that made the picture.
    assert_eq!(rt; (found, is_told, is_cut), (Some(545_987_332), true, true));
    Ok(())
}

/// The colour type of the PNG of 16 by 17 dots in `colours` colours, if the reader finds these dots in it.
fn colour_type_of(alloc: Global, colours: u16) -> Result<Option<u8>, AllocError>
    requires { 0 < colours }
{
    let mut dots = [0u8; 816];
    for at in 0..272usize {
        let number = at * 7 % colours as usize;
        dots[3 * at] = (number % 256) as u8;
        dots[3 * at + 1] = (number / 256) as u8;
    }
    let file = png_file(alloc, 16, 17, &dots)?;
    let found = read_png(alloc, file.as_slice())
        .ok()
        .map(|picture| adler_of(&picture));
    if found != Some(Adler::new().fed_all(&dots).number()) {
        return Ok(None);
    }
    Ok(file.as_slice().get(25).copied())
}

#[test]
fn a_png_has_a_palette_of_at_most_256_colours(rt: HostRuntime) -> Result<(), Fail> {
    let one = colour_type_of(rt.alloc(), 1)?;
    let most = colour_type_of(rt.alloc(), 256)?;
    let more = colour_type_of(rt.alloc(), 257)?;
    assert_eq!(rt; [one, most, more], [Some(3), Some(3), Some(2)]);
    Ok(())
}

#[test]
fn a_wav_of_no_samples_has_44_bytes(rt: HostRuntime) -> Result<(), Fail> {
    let header = wav_header(rt.alloc(), 0)?;
    assert!(rt; header.as_slice() == SILENT.as_slice());
    Ok(())
}

/// Returns the red, green and blue of a dot.
fn widened(dot: u16) -> [u8; 3] {
    let colour = Colour::of_dot(dot);
    [colour.red, colour.green, colour.blue]
}

#[test]
fn colours_are_widened_by_their_top_bits(rt: HostRuntime) {
    let found = [widened(0x7fff), widened(0x001f), widened(0x4195)];
    assert_eq!(rt; found, [[255, 255, 255], [255, 0, 0], [173, 99, 132]]);
}

#[test]
fn a_cut_piece_is_told(rt: HostRuntime) {
    let bytes = [1u8, 2, 3, 4, 5, 6, 7];
    let mut reader = bytes.as_slice();
    let mut piece = [0u8; 4];
    let first = read_piece(&mut reader, &mut piece).ok();
    let bytes_of_first = piece;
    let second = read_piece(&mut reader, &mut piece).ok();
    let third = read_piece(&mut reader, &mut piece).ok();
    let are_told = first == Some(Piece::Whole)
        && second == Some(Piece::Cut(3))
        && third == Some(Piece::End);
    assert_eq!(rt; (are_told, bytes_of_first), (true, [1, 2, 3, 4]));
}

#[test]
fn the_first_difference_is_found(rt: HostRuntime) {
    let found = [
        first_apart(&[1, 2, 3], &[1, 2, 3]),
        first_apart(&[1, 2, 3], &[1, 7, 9]),
        first_apart(&[], &[]),
    ];
    assert_eq!(rt; found, [None, Some(1), None]);
}

#[test]
fn an_avi_has_parts_of_1800_frames(rt: HostRuntime) -> Result<(), Fail> {
    let samples = [
        samples_upto(Region::Ntsc, 60),
        samples_upto(Region::Pal, 60),
    ];
    let parts = [
        Layout::new(Region::Ntsc, 0).parts(),
        Layout::new(Region::Ntsc, 1800).parts(),
        Layout::new(Region::Ntsc, 1801).parts(),
        Layout::new(Region::Pal, 36_000).parts(),
    ];
    let start = Layout::new(Region::Ntsc, 1801).start(1);
    let head = file_head(rt.alloc(), Layout::new(Region::Pal, 7))?.len();
    assert_eq!(rt;
        (samples, parts, start, head),
        ([31_947, 38_394], [1, 1, 2, 20], 885_000_258, 1682)
    );
    Ok(())
}
