//! The windows of the layers: whether one pixel is inside, and mask rows made of intervals.

ghost use Rattle.std.specs.Prelude.{◌≡◌, ℕ, ◌<◌, ◌≤◌, slice_index, true, false, if◌then◌else◌};
ghost use Rattle.ppu_regs.specs.Picture.{windows_of};
ghost use Rattle.color_window.specs.Windows.{is_within, truth_of, is_inside, mask_of};

use ppu_regs::{Combine, LayerWindows, Ppu, Registers, Window};
use scanline_ops::fill_row;

/// Returns whether the pixel `x` is in the windows of a layer.
///
/// The layers are 1 to 4 for BG1 to BG4, 5 for the objects, and 6 for the colour window.
#[inline(always)]
pub fn inside(p: &Ppu, layer: u8, x: u8) -> bool
    requires first { 1 ≤ layer }
    requires last { layer ≤ 6 }
    ensures { result ≡ is_inside p.now.registers layer x }
{
    inside_windows(p.registers(), layer, x)
}

#[inline(always)]
#[tactic(auto, unfolding(crate::specs::Windows::is_inside))]
fn inside_windows(r: &Registers, layer: u8, x: u8) -> bool
    ensures { result ≡ is_inside r.now layer x }
{
    truth(
        r.windows(layer),
        within(&r.window_one, x),
        within(&r.window_two, x),
    )
}

#[inline(always)]
#[tactic(auto, unfolding(crate::specs::Windows::is_within))]
fn within(window: &Window, x: u8) -> bool
    ensures { result ≡ is_within window.now x }
{
    window.left <= x && x <= window.right
}

#[inline(always)]
#[tactic(auto, unfolding(crate::specs::Windows::truth_of))]
fn truth(w: &LayerWindows, in_one: bool, in_two: bool) -> bool
    ensures { result ≡ truth_of w.now in_one in_two }
{
    let one = w.one_outside != in_one;
    let two = w.two_outside != in_two;
    if w.one_on {
        if w.two_on {
            match w.combine {
                Combine::Or => one || two,
                Combine::And => one && two,
                Combine::Xor => one != two,
                Combine::Xnor => one == two,
            }
        } else {
            one
        }
    } else {
        w.two_on && two
    }
}

#[inline(always)]
#[tactic(auto, unfolding(crate::specs::Windows::mask_of))]
fn mask(truth: bool) -> u8
    ensures { result ≡ mask_of truth }
{
    truth as u8 * 255
}

/// A layer's masks for the four cases of being in the two windows.
#[derive(Clone, Copy)]
struct Cases {
    neither: u8,
    first: u8,
    second: u8,
    both: u8,
}

#[inline(always)]
fn cases_of(w: &LayerWindows) -> Cases
    ensures neither { result.neither ≡ mask_of (truth_of w.now false false) }
    ensures first { result.first ≡ mask_of (truth_of w.now true false) }
    ensures second { result.second ≡ mask_of (truth_of w.now false true) }
    ensures both { result.both ≡ mask_of (truth_of w.now true true) }
{
    Cases {
        neither: mask(truth(w, false, false)),
        first: mask(truth(w, true, false)),
        second: mask(truth(w, false, true)),
        both: mask(truth(w, true, true)),
    }
}

/// Writes one value at the pixels of a window; the others stay.
#[tactic(auto, unfolding(crate::specs::Windows::is_within))]
fn fill_within(window: &Window, value: u8, out: &mut [u8; 256])
    ensures { (x : ℕ) → x < 256 → slice_index out.new x ≡
        (if is_within window.now x then value else slice_index out.old x) }
{
    if window.left <= window.right {
        for x in window.left as usize..window.right as usize + 1 {
            out[x] = value;
        }
    }
}

/// Copies the pixels of a window from another row; the others stay.
#[tactic(auto, unfolding(crate::specs::Windows::is_within))]
fn copy_within(window: &Window, from: &[u8; 256], out: &mut [u8; 256])
    ensures { (x : ℕ) → x < 256 → slice_index out.new x ≡
        (if is_within window.now x then slice_index from.now x else slice_index out.old x) }
{
    if window.left <= window.right {
        for x in window.left as usize..window.right as usize + 1 {
            out[x] = from[x];
        }
    }
}

/// Writes one value at the pixels of a window and another at all others.
#[inline(always)]
fn split(window: &Window, inside: u8, outside: u8, out: &mut [u8; 256])
    ensures { (x : ℕ) → x < 256 → slice_index out.new x ≡ (if is_within window.now x then inside else outside) }
{
    fill_row(outside, out);
    fill_within(window, inside, out);
}

/// Writes FF at each pixel that is in the windows of a layer (1 to 6, as for `inside`), and 0 at each other.
#[tactic(auto, unfolding(crate::specs::Windows::is_inside))]
pub fn mask_row(p: &Ppu, layer: u8, out: &mut [u8; 256])
    requires first { 1 ≤ layer }
    requires last { layer ≤ 6 }
    ensures { (x : ℕ) → x < 256 → slice_index out.new x ≡ mask_of (is_inside p.now.registers layer x) }
{
    let r = p.registers();
    masks(r.windows(layer), &r.window_one, &r.window_two, out);
}

/// Writes a layer's mask row. The pixels outside of window 1 are an interval of window 2, and so are those within
/// it.
#[tactic(auto, using(crate::proofs::Cases::cases))]
fn masks(w: &LayerWindows, one: &Window, two: &Window, out: &mut [u8; 256])
    ensures { (x : ℕ) → x < 256 → slice_index out.new x ≡
        mask_of (truth_of w.now (is_within one.now x) (is_within two.now x)) }
{
    let cases = cases_of(w);
    let mut within_one = [0u8; 256];
    split(two, cases.second, cases.neither, out);
    split(two, cases.both, cases.first, &mut within_one);
    copy_within(one, &within_one, out);
}
