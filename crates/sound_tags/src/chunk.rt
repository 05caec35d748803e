//! The extended tags (`xid6`): chunks behind the registers of the S-DSP.

ghost use Rattle.std.specs.Prelude.{◌≡◌, ◌+◌, ◌*◌, ◌/◌, ◌<◌, ◌≤◌, IfSome, length};
ghost use Rattle.std.specs.Option.{option_copied};
ghost use Rattle.sound_tags.specs.Chunks.{body_size, chunk_at, chunks_end, chunk_from, chunk_of, chunk_text, chunk_number};

use crate::header::filled;
use crate::sound_file::{before_zero, four_at};

/// The text that the extended tags begin with, and its offset in a file.
const TEXT: &[u8; 4] = b"xid6";

const START: usize = 0x1_0200;

/// The offset of the first chunk, behind the text and the size of all chunks.
const FIRST: usize = 0x1_0208;

/// The bytes of a chunk's head.
const HEAD: usize = 4;

/// The kinds of chunks that are read: a word in the head, a text, and a number of four bytes.
const WORD: u8 = 0;

const LETTERS: u8 = 1;

const NUMBER: u8 = 4;

/// A chunk: what its head says, and where it lies in the file.
#[derive(Clone, Copy)]
pub struct Chunk {
    /// Which tag it is.
    pub id: u8,
    /// Its kind.
    pub kind: u8,
    /// The word in its head: its content, or the bytes behind the head.
    pub word: u16,
    /// The offset of the bytes behind the head, and how many these are.
    pub at: usize,
    pub size: usize,
    /// The offset of the next chunk.
    pub next: usize,
}

/// How many bytes are behind the head of a chunk.
fn body_size(kind: u8, word: u16) -> usize
    ensures size { result ≡ body_size kind word }
    ensures most { result < 65536 }
{
    if kind == WORD { 0 } else { usize::from(word) }
}

/// Reads the chunk at an offset, whose bytes all lie before `end`.
#[tactic(auto, unfolding(crate::specs::Chunks::chunk_at))]
fn chunk_at(file: &[u8], end: usize, at: usize) -> Option<Chunk>
    requires { end ≤ length file.now }
    ensures chunk { result ≡ chunk_at file.now end at }
    ensures within { IfSome result (λ chunk. chunk.at + chunk.size ≤ end) }
{
    if at > end || end - at < HEAD {
        return None;
    }
    let kind = file[at + 1];
    let word = u16::from(file[at + 2]) + 256 * u16::from(file[at + 3]);
    let size = body_size(kind, word);
    if end - at - HEAD < size {
        return None;
    }
    Some(Chunk {
        id: file[at],
        kind,
        word,
        at: at + HEAD,
        size,
        next: at + HEAD + (size + 3) / 4 * 4,
    })
}

/// Returns where the chunks of a file end, or none if it has no extended tags.
#[tactic(auto, unfolding(crate::specs::Chunks::chunks_end))]
fn chunks_end(file: &[u8]) -> Option<usize>
    ensures end { result ≡ chunks_end file.now }
    ensures within { IfSome result (λ end. end ≤ length file.now) }
{
    if file.len() < FIRST {
        return None;
    }
    if &file[START..START + 4] != TEXT.as_slice() {
        return None;
    }
    let size = four_at(file, START + 4) as usize;
    Some((FIRST + size).min(file.len()))
}

/// Returns the first chunk of an ID among those before `end`.
fn chunk_before(file: &[u8], end: usize, id: u8) -> Option<Chunk>
    requires { end ≤ length file.now }
    ensures chunk { result ≡ chunk_from end file.now end 0x10208 id }
    ensures within { IfSome result (λ chunk. chunk.at + chunk.size ≤ length file.now) }
{
    let mut at = FIRST;
    for n in 0..end {
        let Some(chunk) = chunk_at(file, end, at) else {
            return None;
        };
        if chunk.id == id {
            return Some(chunk);
        }
        at = chunk.next;
    }
    None
}

/// Returns the first chunk of an ID, or none if the file has none.
#[tactic(auto, unfolding(crate::specs::Chunks::chunk_of))]
fn chunk_of(file: &[u8], id: u8) -> Option<Chunk>
    ensures chunk { result ≡ chunk_of file.now id }
    ensures within { IfSome result (λ chunk. chunk.at + chunk.size ≤ length file.now) }
{
    match chunks_end(file) {
        Some(end) => chunk_before(file, end, id),
        None => None,
    }
}

/// The text of the first chunk of an ID.
#[tactic(auto, unfolding(crate::specs::Chunks::chunk_text))]
pub(crate) fn chunk_text(file: &[u8], id: u8) -> Option<&[u8]>
    ensures { option_copied result ≡ chunk_text file.now id }
{
    let chunk = chunk_of(file, id)?;
    if chunk.kind != LETTERS {
        return None;
    }
    filled(before_zero(&file[chunk.at..chunk.at + chunk.size]))
}

/// The number in the first chunk of an ID.
#[tactic(auto, unfolding(crate::specs::Chunks::chunk_number))]
pub(crate) fn chunk_number(file: &[u8], id: u8) -> Option<u32>
    ensures { result ≡ chunk_number file.now id }
{
    let chunk = chunk_of(file, id)?;
    if chunk.kind == WORD {
        return Some(u32::from(chunk.word));
    }
    if chunk.kind == NUMBER && chunk.size == 4 {
        return Some(four_at(file, chunk.at));
    }
    None
}
