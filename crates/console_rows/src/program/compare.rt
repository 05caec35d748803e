use crate::program::rows::Outcome;
use shelf::Out;

/// Whether an output has the same name and bytes in two outcomes.
fn is_same_output(one: &Outcome, other: &Outcome, out: Out) -> bool {
    one.shelf.named(out) == other.shelf.named(out)
        && one.shelf.written(out) == other.shelf.written(out)
}

/// Whether video, sound, sums, state and sound file have the same names and bytes in two outcomes.
pub fn is_same(one: &Outcome, other: &Outcome) -> bool {
    is_same_output(one, other, Out::Video)
        && is_same_output(one, other, Out::Sound)
        && is_same_output(one, other, Out::Sums)
        && is_same_output(one, other, Out::State)
        && is_same_output(one, other, Out::Spc)
}

/// Whether two calls returned the same status, printed the same and left the same.
pub fn are_alike(one: &Outcome, other: &Outcome) -> bool {
    one.status == other.status
        && one.shelf.written(Out::Say) == other.shelf.written(Out::Say)
        && is_same(one, other)
}

/// Whether an output holds a prefix of what it holds in another outcome.
fn is_begun_output(part: &Outcome, whole: &Outcome, out: Out) -> bool {
    whole
        .shelf
        .written(out)
        .starts_with(part.shelf.written(out))
}

/// Whether video, sound and sums hold a prefix of what they hold in another outcome.
pub fn is_begun(part: &Outcome, whole: &Outcome) -> bool {
    is_begun_output(part, whole, Out::Video)
        && is_begun_output(part, whole, Out::Sound)
        && is_begun_output(part, whole, Out::Sums)
}
