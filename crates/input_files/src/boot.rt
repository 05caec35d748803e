ghost use Rattle.std.specs.Prelude.{◌≡◌, ◌≢◌, MatchOption, length};

/// Reads the boot ROM of the sound processor, FFC0 to FFFF of its addresses. Returns the bytes of the file if it has
/// 64, else none.
pub fn read_boot(file: &[u8]) -> Option<[u8; 64]>
    ensures { MatchOption result (length file.now ≢ 64) (λ boot. boot ≡ file.now) }
{
    <[u8; 64]>::try_from(file).ok()
}
