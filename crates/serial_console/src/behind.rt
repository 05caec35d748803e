use crate::bytes::Bytes;

/// The sound side with the eight bytes, as the ports of the console. At each call it runs up to the console's stamp. A
/// call is refused if bytes of the sound side are buffered before it has come there.
#[derive(Drop)]
pub struct Rest<S> {
    /// The sound side.
    pub sound: S,
    /// The eight bytes, as its own ports.
    pub bytes: Bytes,
    /// No step of it begins at this stamp or later.
    pub end: u64,
    /// The stamp of the console's last step that emitted.
    pub last: u64,
}
