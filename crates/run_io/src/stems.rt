ghost use Rattle.std.specs.Prelude.{◌≡◌, ◌<◌, ◌≤◌, ◌∷◌, ◌==◌, [], List, ℕ, length, position, IfSome, MatchOption};
ghost use Rattle.std.specs.List.{list_all, list_any};
ghost use Rattle.std.specs.Str.{bytes_eq};
ghost use Rattle.run_io.specs.Stems.{items, is_part, bit_of, is_stem, stem_in};

/// The place of the first comma.
fn first_comma(list: &[u8]) -> Option<usize>
    ensures place { result ≡ position (λ byte. byte == 0x2C) list.now }
    ensures inside { IfSome result (λ place. place < length list.now) }
{
    list.iter().position(|byte| *byte == b',')
}

/// Returns the bytes before the first comma, and those after it if there is one.
#[tactic(auto, using(crate::proofs::StemLemmas::last_item, crate::proofs::StemLemmas::first_item))]
fn first_item(list: &[u8]) -> (&[u8], Option<&[u8]>)
    ensures items { MatchOption result.1 (items list.now ≡ result.0.now ∷ []) (λ rest. items list.now ≡ result.0.now ∷ items rest.now) }
    ensures shorter { IfSome result.1 (λ rest. length rest.now < length list.now) }
{
    match first_comma(list) {
        Some(at) => (&list[..at], Some(&list[at + 1..])),
        None => (list, None),
    }
}

/// Whether an item is a voice or the echo.
fn is_part(item: &[u8]) -> bool
    ensures { result ≡ is_part item.now }
{
    if item.len() == 1 && item[0] >= b'0' && item[0] <= b'7' {
        return true;
    }
    item == "echo".as_bytes()
}

/// Whether each item of a list is a voice or the echo.
fn are_parts(list: &[u8]) -> bool
    ensures { result ≡ list_all is_part (items list.now) }
{
    let (item, rest) = first_item(list);
    if !is_part(item) {
        return false;
    }
    match rest {
        Some(rest) => are_parts(rest),
        None => true,
    }
}

/// Whether an item of a list is this one.
fn has_item(list: &[u8], name: &str) -> bool
    ensures { result ≡ list_any (λ item. bytes_eq item name.now) (items list.now) }
{
    let (item, rest) = first_item(list);
    if item == name.as_bytes() {
        return true;
    }
    match rest {
        Some(rest) => has_item(rest, name),
        None => false,
    }
}

/// Returns the bit of a part if the list names it, else 0.
fn bit_of(list: &[u8], name: &str, bit: u16) -> u16
    ensures bit { result ≡ bit_of (items list.now) name.now bit }
    ensures small { result ≤ bit }
{
    if has_item(list, name) { bit } else { 0 }
}

/// Whether a word is a list of voices.
#[tactic(auto, unfolding(crate::specs::Stems::is_stem))]
pub(crate) fn is_stem(word: &str) -> bool
    ensures { result ≡ is_stem word.now }
{
    are_parts(word.as_bytes())
}

/// Returns the number of a list of voices: bit n is voice n, bit 8 the echo.
#[tactic(auto, unfolding(crate::specs::Stems::stem_in))]
pub(crate) fn stem_in(word: &str) -> Option<u16>
    ensures stem { result ≡ stem_in word.now }
    ensures within { IfSome result (λ stem. stem < 512) }
{
    if !is_stem(word) {
        return None;
    }
    let list = word.as_bytes();
    let low = bit_of(list, "0", 1)
        + bit_of(list, "1", 2)
        + bit_of(list, "2", 4)
        + bit_of(list, "3", 8);
    let high = bit_of(list, "4", 16)
        + bit_of(list, "5", 32)
        + bit_of(list, "6", 64)
        + bit_of(list, "7", 128);
    Some(low + high + bit_of(list, "echo", 256))
}
