//! The slivers of eight pixels that the drawn objects have on a row.

ghost use Rattle.std.specs.Prelude.{◌≡◌, ℕ, ◌+◌, ◌*◌, ◌/◌, ◌%◌, ◌<◌, ◌≤◌, List, [], ◌++◌, take, length, nat_lt};
ghost use Rattle.ppu_objects.specs.Objects.{grown};
ghost use Rattle.ppu_objects.specs.Slivers.{sliver_left, is_on_screen, slivers_of, all_slivers};
ghost use Rattle.ppu_objects.specs.declared.slivers.Sliver.{Sliver};

use crate::objects::Object;
use crate::sizes::Sizes;
use arrayvec::ArrayVec;

/// One sliver of an object: its column of eight pixels, from the left on the screen.
#[derive(Clone, Copy, Default)]
pub struct Sliver {
    /// The object.
    pub object: Object,
    /// The column of eight pixels in the object, 0 to 7, from the left on the screen.
    pub column: u8,
}

/// Returns the X at which a sliver begins, modulo 512.
#[inline(always)]
#[tactic(auto, unfolding(crate::specs::Slivers::sliver_left))]
pub fn left_of(o: &Object, column: u8) -> u16
    ensures value { result ≡ sliver_left o.now column }
    ensures small { result < 512 }
{
    ((o.x as u32 + 8 * column as u32) % 512) as u16
}

/// Returns whether a sliver that begins at `left` has a pixel in the row.
#[inline(always)]
#[tactic(auto, unfolding(crate::specs::Slivers::is_on_screen))]
pub fn on_screen(left: u16) -> bool
    ensures { result ≡ is_on_screen left }
{
    left < 256 || left > 504
}

/// Appends a sliver to a list of 34 if it is on the screen and there is room. Returns whether there are more than
/// 34.
#[inline(always)]
#[tactic(auto, unfolding(crate::specs::Objects::grown))]
fn note_sliver(list: &mut ArrayVec<Sliver, 34>, more: bool, does: bool, sliver: Sliver) -> bool
    ensures items { (xs : List Sliver) → list.old.items ≡ take 34 xs → list.new.items ≡ take 34 (grown does sliver xs) }
    ensures more { (xs : List Sliver) → list.old.items ≡ take 34 xs → more ≡ nat_lt 34 (length xs)
        → result ≡ nat_lt 34 (length (grown does sliver xs)) }
{
    if does {
        if list.len() < 34 {
            list.push(sliver);
        } else {
            return true;
        }
    }
    more
}

/// Adds the slivers of one object, left to right.
#[tactic(auto, unfolding(crate::specs::Slivers::slivers_of, crate::specs::Slivers::first_slivers))]
fn add_slivers(sizes: &Sizes, o: &Object, list: &mut ArrayVec<Sliver, 34>, over: bool) -> bool
    ensures items { (xs : List Sliver) → list.old.items ≡ take 34 xs
        → list.new.items ≡ take 34 (xs ++ slivers_of sizes.now o.now) }
    ensures more { (xs : List Sliver) → list.old.items ≡ take 34 xs → over ≡ nat_lt 34 (length xs)
        → result ≡ nat_lt 34 (length (xs ++ slivers_of sizes.now o.now)) }
{
    let columns = (sizes.width(o.large) / 8) as u8;
    let mut more = over;
    for column in 0..columns {
        let sliver = Sliver { object: *o, column };
        more = note_sliver(list, more, on_screen(left_of(o, column)), sliver);
    }
    more
}

/// Gathers the first 34 slivers of some objects, from the last object to the first, in an empty list. Returns
/// whether there are more.
#[tactic(auto, unfolding(crate::specs::Slivers::all_slivers), using(crate::proofs::Firsts::turns))]
pub fn gather_in_time(code: u8, objects: &[Object], list: &mut ArrayVec<Sliver, 34>) -> bool
    requires empty { list.old.items ≡ [] }
    ensures slivers { list.new.items ≡ take 34 (all_slivers code objects.now) }
    ensures time { result ≡ nat_lt 34 (length (all_slivers code objects.now)) }
{
    let sizes = Sizes::of(code);
    let mut more = false;
    for j in 0..objects.len() {
        let o = objects[objects.len() - 1 - j];
        more = add_slivers(&sizes, &o, list, more);
    }
    more
}
