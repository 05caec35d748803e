ghost use Rattle.std.specs.Prelude.{◌≤◌, IfSome, OnSome, IsNone, Some};
ghost use Rattle.std.specs.List.{slice_range};
ghost use Rattle.std.specs.Str.{IsCharBoundary};
ghost use Rattle.std.specs.Result.{IsOkAnd};
ghost use Rattle.hex.specs.Hex.{decode_of};
ghost use Rattle.case_text.specs.Number.{ReadsHexadecimal, HasRoom, Puts};

/// Reads a number in hexadecimal digits of either case; `None` if there is another letter or no digit, or
/// if the type can't hold the number. As for `parse`, a plus may come first.
pub fn hexadecimal<T: TryFrom<u64>>(text: &str) -> Option<T>
where
    T::Error: Drop,
    ensures { ReadsHexadecimal T.try_from_gives text.now result }
{
    let number = u64::from_str_radix(text, 16).ok()?;
    T::try_from(number).ok()
}

/// Reads the number in the hexadecimal digits of a word between two of its indices.
pub fn part<T: TryFrom<u64>>(word: &str, from: usize, to: usize) -> Option<T>
where
    T::Error: Drop,
    ensures some { IfSome result (λ x. ReadsHexadecimal T.try_from_gives (slice_range word.now from to) (Some x)) }
    ensures inside { from ≤ to → IsCharBoundary word.now from → IsCharBoundary word.now to →
        ReadsHexadecimal T.try_from_gives (slice_range word.now from to) result }
{
    hexadecimal(word.get(from..to)?)
}

/// Overwrites bytes from an offset on with those that digits spell, two hexadecimal digits each. If they don't fit
/// there, nothing changes; if a letter is not a digit, the bytes from the offset on may have changed.
pub fn put(bytes: &mut [u8], offset: usize, digits: &str) -> Option<()>
    ensures some { OnSome result (IsOkAnd (decode_of digits.now) (Puts bytes.old offset bytes.new)) }
    ensures none { IsNone result → ¬ (IsOkAnd (decode_of digits.now) (HasRoom bytes.old offset)) }
{
    let end = offset.checked_add(digits.len() / 2)?;
    if end > bytes.len() {
        return None;
    }
    hex::decode_to_slice(digits, &mut bytes[offset..end]).ok()
}
