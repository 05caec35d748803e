//! Where the image in a file begins, and the bytes of a header.
ghost use Rattle.std.specs.Prelude.{◌≡◌, ◌+◌, ◌≤◌, length};
ghost use Rattle.cart_map.specs.Accept.{image_of};
ghost use Rattle.header_writer.specs.Written.{front_of, with_bytes, with_kind, with_rest, with_fields, with_sums, sums};

use crate::checksum::{checksum, size_byte};

/// The bytes that a copier may have put in front of an image.
const FRONT: usize = 512;

/// The places in an image of a header's title, map byte, country byte and complement.
pub(crate) const TITLE: usize = 0x7fc0;

const MAP: usize = 0x7fd5;

const COUNTRY: usize = 0x7fd9;

const COMPLEMENT: usize = 0x7fdc;

/// Returns how many bytes of a copier are in front of the image in a file.
pub(crate) fn front_of(file: &[u8]) -> usize
    ensures front { result ≡ front_of file.now }
    ensures inside { result ≤ length file.now }
{
    if file.len() % 1024 == FRONT { FRONT } else { 0 }
}

/// Returns the image in a file.
#[tactic(auto, using(crate::proofs::Puts::image_is))]
pub(crate) fn image_of(file: &[u8]) -> &[u8]
    ensures { result.now ≡ image_of file.now }
{
    let (_, image) = file.split_at(front_of(file));
    image
}

/// Replaces the bytes at a place of the image in a file.
#[tactic(auto, using(crate::proofs::Puts::put_spliced))]
fn put(file: &mut [u8], place: usize, bytes: &[u8])
    requires { front_of file.old + place + length bytes.now ≤ length file.old }
    ensures { file.new ≡ with_bytes place bytes.now file.old }
{
    let start = front_of(file) + place;
    let end = start + bytes.len();
    file[start..end].copy_from_slice(bytes);
}

/// Writes the four bytes that say which cartridge it is: map, chips, and the sizes of ROM and RAM.
pub(crate) fn put_kind(file: &mut [u8])
    requires { front_of file.old + 32768 ≤ length file.old }
    ensures { file.new ≡ with_kind file.old }
{
    let size = size_byte(image_of(file).len());
    put(file, MAP, &[0x20, 0x00, size, 0x00]);
}

/// Writes country, maker and version, and the sums of a file that has no checksum yet.
fn put_rest(file: &mut [u8])
    requires { front_of file.old + 32768 ≤ length file.old }
    ensures { file.new ≡ with_rest file.old }
{
    put(file, COUNTRY, &[0x01, 0x00, 0x00, 0xff, 0xff, 0x00, 0x00]);
}

/// Writes complement and checksum.
fn put_sums(file: &mut [u8])
    requires { front_of file.old + 32768 ≤ length file.old }
    ensures { file.new ≡ with_sums file.old }
{
    let sum = checksum(image_of(file));
    let complement = 0xffff - sum;
    let bytes = [
        (complement % 256) as u8,
        (complement / 256) as u8,
        (sum % 256) as u8,
        (sum / 256) as u8,
    ];
    put(file, COMPLEMENT, &bytes);
}

/// Writes a whole header with its checksum.
pub(crate) fn put_header(file: &mut [u8], title: &[u8; 21])
    requires { front_of file.old + 32768 ≤ length file.old }
    ensures { file.new ≡ with_sums (with_fields title.now file.old) }
{
    put(file, TITLE, title);
    put_kind(file);
    put_rest(file);
    put_sums(file);
}
