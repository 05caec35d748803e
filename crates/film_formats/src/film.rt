ghost use Rattle.std.specs.Prelude.{◌≡◌, ℕ, ◌<◌, length, take, IfOk};
ghost use Rattle.std.specs.Io.KnownBytes.{Consumes, IsAtEnd};
ghost use Rattle.film_formats.specs.declared.film.Piece.TheVariants.{Whole, End, Cut};
ghost use Rattle.film_formats.specs.Film.{TakesPiece};

use std::io;
use std::io::Read;

/// How the read of a piece of a fixed length, as a frame, ended.
#[derive(Clone, Copy, PartialEq, Eq)]
pub enum Piece {
    /// The piece was read whole.
    Whole,
    /// Nothing was left.
    End,
    /// Only this many bytes were left, fewer than the piece has.
    Cut(usize),
}

/// Reads a piece as long as the buffer, and returns how the read ended.
pub fn read_piece<R: Read>(reader: &mut R, into: &mut [u8]) -> io::Result<Piece>
    requires { 0 < length into.old }
    ensures { IfOk result (TakesPiece (R.remaining reader.old) (R.remaining reader.new) into.new) }
{
    let mut at = 0;
    while at < into.len() {
        let count = reader.read(&mut into[at..])?;
        if count == 0 {
            return Ok(if at == 0 { Piece::End } else { Piece::Cut(at) });
        }
        at += count;
    }
    Ok(Piece::Whole)
}
