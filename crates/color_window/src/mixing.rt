//! The main screen's colour after colour arithmetic: of one pixel, and of a row.

ghost use Rattle.std.specs.Prelude.{◌≡◌, ℕ, ◌+◌, ◌*◌, ◌/◌, ◌%◌, ◌<◌, ◌≤◌, ◌==◌, Bool, true, false, not, ◌&&◌, ◌||◌};
ghost use Rattle.std.specs.Prelude.{slice_index, if◌then◌else◌};
ghost use Rattle.ppu_regs.specs.declared.registers.WindowPart.TheVariants.{Never};
ghost use Rattle.color_window.specs.Windows.{is_inside};
ghost use Rattle.scanline_ops.specs.RankedPixels.{is_named, is_found};
ghost use Rattle.color_window.specs.Mixing.{holds_at, fixed_colour, mixed, is_mixed, mixed_at, is_front_named};
ghost use Rattle.color_window.specs.Mixing.{front_colour, dot_colour};

use crate::windows::{inside, mask_row};
use ppu_regs::{ColourMath, Dot, Ppu, WindowPart};
use scanline_ops::{is_found_key, join_colours};

#[inline(always)]
#[tactic(auto, unfolding(crate::specs::Mixing::holds_at))]
fn holds_where(part: WindowPart, inside: bool) -> bool
    ensures { result ≡ holds_at part inside }
{
    match part {
        WindowPart::Never => false,
        WindowPart::Outside => !inside,
        WindowPart::Inside => inside,
        WindowPart::Always => true,
    }
}

/// Returns the fixed colour of 2132 COLDATA, 15 bits.
#[inline(always)]
#[tactic(auto, unfolding(crate::specs::Mixing::fixed_colour))]
pub fn fixed(p: &Ppu) -> u16
    ensures { result ≡ fixed_colour p.now.registers.colour }
{
    p.in_range();
    let m = &p.registers().colour;
    m.red as u16 + 32 * m.green as u16 + 1024 * m.blue as u16
}

/// The demands of 2130 CGWSEL and 2131 CGADSUB, at a pixel inside and at one outside of the colour window.
#[derive(Clone, Copy)]
struct Mixer {
    black_inside: bool,
    black_outside: bool,
    stopped_inside: bool,
    stopped_outside: bool,
    by_sub: bool,
    subtracts: bool,
    halves: bool,
    fixed: u16,
}

#[inline(always)]
fn mixer_of(p: &Ppu) -> Mixer
    ensures black_inside { result.black_inside ≡ holds_at p.now.registers.colour.black true }
    ensures black_outside { result.black_outside ≡ holds_at p.now.registers.colour.black false }
    ensures stopped_inside { result.stopped_inside ≡ holds_at p.now.registers.colour.none true }
    ensures stopped_outside { result.stopped_outside ≡ holds_at p.now.registers.colour.none false }
    ensures by_sub { result.by_sub ≡ p.now.registers.colour.sub_screen }
    ensures subtracts { result.subtracts ≡ p.now.registers.colour.subtract }
    ensures halves { result.halves ≡ p.now.registers.colour.halve }
    ensures fixed { result.fixed ≡ fixed_colour p.now.registers.colour }
{
    let fixed = fixed(p);
    let m = &p.registers().colour;
    Mixer {
        black_inside: holds_where(m.black, true),
        black_outside: holds_where(m.black, false),
        stopped_inside: holds_where(m.none, true),
        stopped_outside: holds_where(m.none, false),
        by_sub: m.sub_screen,
        subtracts: m.subtract,
        halves: m.halve,
        fixed,
    }
}

#[inline(always)]
fn either(which: bool, taken: bool, other: bool) -> bool
    ensures { result ≡ (if which then taken else other) }
{
    if which { taken } else { other }
}

#[inline(always)]
fn pick(which: bool, taken: u16, other: u16) -> u16
    ensures { result ≡ (if which then taken else other) }
{
    if which { taken } else { other }
}

/// Returns one pixel of the main screen, by a mixer made of these registers.
#[inline(always)]
#[tactic(auto, unfolding(crate::specs::Mixing::mixed))]
fn mixed_by(
    m: &ColourMath,
    mixer: &Mixer,
    inside: bool,
    main: u16,
    named: bool,
    found: bool,
    sub: u16,
) -> u16
    requires black_inside { mixer.now.black_inside ≡ holds_at m.now.black true }
    requires black_outside { mixer.now.black_outside ≡ holds_at m.now.black false }
    requires stopped_inside { mixer.now.stopped_inside ≡ holds_at m.now.none true }
    requires stopped_outside { mixer.now.stopped_outside ≡ holds_at m.now.none false }
    requires by_sub { mixer.now.by_sub ≡ m.now.sub_screen }
    requires subtracts { mixer.now.subtracts ≡ m.now.subtract }
    requires halves { mixer.now.halves ≡ m.now.halve }
    requires fixed { mixer.now.fixed ≡ fixed_colour m.now }
    ensures { result ≡ mixed m.now inside main named found sub }
{
    let black = either(inside, mixer.black_inside, mixer.black_outside);
    let stopped = either(inside, mixer.stopped_inside, mixer.stopped_outside);
    let base = pick(black, 0, main);
    let other = pick(mixer.by_sub && found, sub, mixer.fixed);
    let halves = mixer.halves && !black && (!mixer.by_sub || found);
    let joined = join_colours(mixer.subtracts, halves, base, other);
    pick(named && !stopped, joined, base)
}

#[inline(always)]
fn is_named_front(p: &Ppu, front: Option<(u8, Dot)>) -> bool
    ensures { result ≡ is_front_named p.now.registers front }
{
    match front {
        None => p.registers().colour.backdrop,
        Some((layer, dot)) => p.registers().screens(layer).arithmetic && dot.math,
    }
}

#[inline(always)]
fn colour_in_front(p: &Ppu, front: Option<(u8, Dot)>) -> u16
    ensures { result ≡ front_colour p.now.cgram front }
{
    match front {
        None => p.cgram()[0],
        Some((_, dot)) => dot.colour,
    }
}

#[inline(always)]
fn colour_of_dot(dot: Option<Dot>) -> u16
    ensures { result ≡ dot_colour dot }
{
    match dot {
        None => 0,
        Some(dot) => dot.colour,
    }
}

/// Returns the main screen's colour at the pixel `x` before brightness.
///
/// `front` is the layer (1 to 4, or 5 for the objects) and the dot in front on the main screen. It is None if only
/// the backdrop is there. `sub` is the dot in front on the sub screen.
#[tactic(auto, unfolding(crate::specs::Mixing::mixed_at))]
pub fn mix(p: &Ppu, x: u8, front: Option<(u8, Dot)>, sub: Option<Dot>) -> u16
    ensures { result ≡ mixed_at p.now x front sub }
{
    let mixer = mixer_of(p);
    mixed_by(
        &p.registers().colour,
        &mixer,
        inside(p, 6, x),
        colour_in_front(p, front),
        is_named_front(p, front),
        sub.is_some(),
        colour_of_dot(sub),
    )
}

/// Mixes a row by a mixer made of these registers.
#[inline(always)]
fn mix_each(
    m: &ColourMath,
    mixer: Mixer,
    inside: &[u8; 256],
    keys: &[u8; 256],
    main: &mut [u16; 256],
    sub_keys: &[u8; 256],
    sub: &[u16; 256],
)
    requires black_inside { mixer.black_inside ≡ holds_at m.now.black true }
    requires black_outside { mixer.black_outside ≡ holds_at m.now.black false }
    requires stopped_inside { mixer.stopped_inside ≡ holds_at m.now.none true }
    requires stopped_outside { mixer.stopped_outside ≡ holds_at m.now.none false }
    requires by_sub { mixer.by_sub ≡ m.now.sub_screen }
    requires subtracts { mixer.subtracts ≡ m.now.subtract }
    requires halves { mixer.halves ≡ m.now.halve }
    requires fixed { mixer.fixed ≡ fixed_colour m.now }
    ensures { (x : ℕ) → x < 256 → slice_index main.new x ≡
        mixed m.now (not (slice_index inside.now x == 0)) (slice_index main.old x)
        (is_named (slice_index keys.now x)) (is_found (slice_index sub_keys.now x)) (slice_index sub.now x) }
{
    for x in 0..256usize {
        main[x] = mixed_by(
            m,
            &mixer,
            inside[x] != 0,
            main[x],
            keys[x] / 8 % 2 == 1,
            is_found_key(sub_keys[x]),
            sub[x],
        );
    }
}

/// Mixes a row by a mixer made of these registers. It is written out by what is done, so that each loop does one
/// thing.
#[inline(always)]
fn mix_kinds(
    m: &ColourMath,
    mixer: Mixer,
    inside: &[u8; 256],
    keys: &[u8; 256],
    main: &mut [u16; 256],
    sub_keys: &[u8; 256],
    sub: &[u16; 256],
)
    requires black_inside { mixer.black_inside ≡ holds_at m.now.black true }
    requires black_outside { mixer.black_outside ≡ holds_at m.now.black false }
    requires stopped_inside { mixer.stopped_inside ≡ holds_at m.now.none true }
    requires stopped_outside { mixer.stopped_outside ≡ holds_at m.now.none false }
    requires by_sub { mixer.by_sub ≡ m.now.sub_screen }
    requires subtracts { mixer.subtracts ≡ m.now.subtract }
    requires halves { mixer.halves ≡ m.now.halve }
    requires fixed { mixer.fixed ≡ fixed_colour m.now }
    ensures { (x : ℕ) → x < 256 → slice_index main.new x ≡
        mixed m.now (not (slice_index inside.now x == 0)) (slice_index main.old x)
        (is_named (slice_index keys.now x)) (is_found (slice_index sub_keys.now x)) (slice_index sub.now x) }
{
    match (mixer.subtracts, mixer.halves) {
        (false, false) => {
            let mixer = Mixer {
                subtracts: false,
                halves: false,
                ..mixer
            };
            mix_each(m, mixer, inside, keys, main, sub_keys, sub)
        }
        (false, true) => {
            let mixer = Mixer {
                subtracts: false,
                halves: true,
                ..mixer
            };
            mix_each(m, mixer, inside, keys, main, sub_keys, sub)
        }
        (true, false) => {
            let mixer = Mixer {
                subtracts: true,
                halves: false,
                ..mixer
            };
            mix_each(m, mixer, inside, keys, main, sub_keys, sub)
        }
        (true, true) => {
            let mixer = Mixer {
                subtracts: true,
                halves: true,
                ..mixer
            };
            mix_each(m, mixer, inside, keys, main, sub_keys, sub)
        }
    }
}

/// Returns whether the colour window has no effect: the main screen is black nowhere, and arithmetic is stopped
/// nowhere.
#[inline(always)]
#[tactic(auto, unfolding(crate::specs::Mixing::holds_at))]
fn is_unwindowed(m: &ColourMath) -> bool
    ensures black { (inside : Bool) → result ≡ true → holds_at m.now.black inside ≡ false }
    ensures none { (inside : Bool) → result ≡ true → holds_at m.now.none inside ≡ false }
{
    match m.black {
        WindowPart::Never => match m.none {
            WindowPart::Never => true,
            _ => false,
        },
        _ => false,
    }
}

/// Mixes a row if the colour window has no effect.
#[tactic(auto, using(crate::proofs::Cases::unwindowed))]
fn mix_unwindowed(
    p: &Ppu,
    keys: &[u8; 256],
    main: &mut [u16; 256],
    sub_keys: &[u8; 256],
    sub: &[u16; 256],
)
    requires black { (inside : Bool) → holds_at p.now.registers.colour.black inside ≡ false }
    requires none { (inside : Bool) → holds_at p.now.registers.colour.none inside ≡ false }
    ensures { (x : ℕ) → x < 256 → slice_index main.new x ≡
        mixed p.now.registers.colour (is_inside p.now.registers 6 x) (slice_index main.old x)
        (is_named (slice_index keys.now x)) (is_found (slice_index sub_keys.now x)) (slice_index sub.now x) }
{
    let mixer = Mixer {
        black_inside: false,
        black_outside: false,
        stopped_inside: false,
        stopped_outside: false,
        ..mixer_of(p)
    };
    mix_kinds(
        &p.registers().colour,
        mixer,
        &[0; 256],
        keys,
        main,
        sub_keys,
        sub,
    );
}

/// Mixes a row by the colour window.
#[tactic(auto, using(crate::proofs::Cases::masks))]
fn mix_windowed(
    p: &Ppu,
    keys: &[u8; 256],
    main: &mut [u16; 256],
    sub_keys: &[u8; 256],
    sub: &[u16; 256],
)
    ensures { (x : ℕ) → x < 256 → slice_index main.new x ≡
        mixed p.now.registers.colour (is_inside p.now.registers 6 x) (slice_index main.old x)
        (is_named (slice_index keys.now x)) (is_found (slice_index sub_keys.now x)) (slice_index sub.now x) }
{
    let mut inside = [0u8; 256];
    mask_row(p, 6, &mut inside);
    mix_kinds(
        &p.registers().colour,
        mixer_of(p),
        &inside,
        keys,
        main,
        sub_keys,
        sub,
    );
}

/// Mixes a row: `keys` and `main` are the main screen's keys and colours, `sub_keys` and `sub` the sub screen's.
pub fn mix_row(
    p: &Ppu,
    keys: &[u8; 256],
    main: &mut [u16; 256],
    sub_keys: &[u8; 256],
    sub: &[u16; 256],
)
    ensures { (x : ℕ) → x < 256 → slice_index main.new x ≡
        mixed p.now.registers.colour (is_inside p.now.registers 6 x) (slice_index main.old x)
        (is_named (slice_index keys.now x)) (is_found (slice_index sub_keys.now x)) (slice_index sub.now x) }
{
    if is_unwindowed(&p.registers().colour) {
        mix_unwindowed(p, keys, main, sub_keys, sub);
    } else {
        mix_windowed(p, keys, main, sub_keys, sub);
    }
}

/// Returns whether a pixel with this key takes part in arithmetic: 1 or 0.
#[inline(always)]
#[tactic(auto, unfolding(crate::specs::Mixing::is_mixed, scanline_ops::specs::RankedPixels::is_named))]
fn mark(m: &ColourMath, stopped_inside: bool, stopped_outside: bool, inside: bool, key: u8) -> u8
    requires stopped_inside { stopped_inside ≡ holds_at m.now.none true }
    requires stopped_outside { stopped_outside ≡ holds_at m.now.none false }
    ensures { result ≡ (if is_mixed m.now inside (is_named key) then 1 else 0) }
{
    let stopped = either(inside, stopped_inside, stopped_outside);
    (key / 8 % 2 == 1 && !stopped) as u8
}

/// Marks the pixels that take part in arithmetic by the row of the colour window: 1 for such a pixel, else 0.
/// Returns whether there are any.
#[inline(always)]
fn mark_each(m: &ColourMath, inside: &[u8; 256], keys: &[u8; 256], marks: &mut [u8; 256]) -> bool
    ensures marks { (x : ℕ) → x < 256 → slice_index marks.new x ≡
        (if is_mixed m.now (not (slice_index inside.now x == 0)) (is_named (slice_index keys.now x)) then 1 else 0) }
    ensures any { (x : ℕ) → x < 256 → result ≡ false → slice_index marks.new x ≡ 0 }
{
    let stopped_inside = holds_where(m.none, true);
    let stopped_outside = holds_where(m.none, false);
    let mut most = 0u8;
    for x in 0..256usize {
        let mark = mark(m, stopped_inside, stopped_outside, inside[x] != 0, keys[x]);
        marks[x] = mark;
        most = mark.max(most);
    }
    most != 0
}

/// Marks the pixels of a row whose colours take part in arithmetic: 1 for such a pixel, else 0. Returns whether
/// there are any. `keys` are the main screen's keys.
#[tactic(auto, using(crate::proofs::Cases::masks))]
pub fn mark_mixed(p: &Ppu, keys: &[u8; 256], marks: &mut [u8; 256]) -> bool
    ensures marks { (x : ℕ) → x < 256 → slice_index marks.new x ≡
        (if is_mixed p.now.registers.colour (is_inside p.now.registers 6 x) (is_named (slice_index keys.now x))
        then 1 else 0) }
    ensures any { (x : ℕ) → x < 256 → result ≡ false → slice_index marks.new x ≡ 0 }
{
    let mut inside = [0u8; 256];
    mask_row(p, 6, &mut inside);
    mark_each(&p.registers().colour, &inside, keys, marks)
}

#[inline(always)]
fn operand_at(by_sub: bool, found: bool, sub: u16, fixed: u16) -> u16
    ensures { result ≡ (if by_sub && found then sub else fixed) }
{
    pick(by_sub && found, sub, fixed)
}

#[inline(always)]
fn halves_at(halves: bool, by_sub: bool, found: bool) -> bool
    ensures { result ≡ (halves && (not by_sub || found)) }
{
    halves && (!by_sub || found)
}

#[inline(always)]
fn pick_marked(marked: u8, taken: u16, other: u16) -> u16
    ensures { result ≡ (if not (marked == 0) then taken else other) }
{
    pick(marked != 0, taken, other)
}

/// Returns one pixel of a main screen that is black nowhere, by a mark of `mark_mixed`.
#[inline(always)]
#[tactic(auto, using(crate::proofs::Cases::marked))]
fn mixed_where(m: &ColourMath, mixer: &Mixer, marked: u8, main: u16, found: bool, sub: u16) -> u16
    requires black { m.now.black ≡ Never }
    requires by_sub { mixer.now.by_sub ≡ m.now.sub_screen }
    requires subtracts { mixer.now.subtracts ≡ m.now.subtract }
    requires halves { mixer.now.halves ≡ m.now.halve }
    requires fixed { mixer.now.fixed ≡ fixed_colour m.now }
    ensures { (inside named : Bool) → marked ≡ (if is_mixed m.now inside named then 1 else 0) →
        result ≡ mixed m.now inside main named found sub }
{
    let operand = operand_at(mixer.by_sub, found, sub, mixer.fixed);
    let halves = halves_at(mixer.halves, mixer.by_sub, found);
    let joined = join_colours(mixer.subtracts, halves, main, operand);
    pick_marked(marked, joined, main)
}

/// Mixes the marked pixels of a row by a mixer made of these registers, if the main screen is black nowhere.
#[inline(always)]
fn mix_marked_each(
    m: &ColourMath,
    mixer: Mixer,
    marks: &[u8; 256],
    main: &mut [u16; 256],
    sub_keys: &[u8; 256],
    sub: &[u16; 256],
)
    requires black { m.now.black ≡ Never }
    requires by_sub { mixer.by_sub ≡ m.now.sub_screen }
    requires subtracts { mixer.subtracts ≡ m.now.subtract }
    requires halves { mixer.halves ≡ m.now.halve }
    requires fixed { mixer.fixed ≡ fixed_colour m.now }
    ensures { (x : ℕ) → x < 256 → (inside named : Bool) →
        slice_index marks.now x ≡ (if is_mixed m.now inside named then 1 else 0) →
        slice_index main.new x ≡ mixed m.now inside (slice_index main.old x) named
        (is_found (slice_index sub_keys.now x)) (slice_index sub.now x) }
{
    for x in 0..256usize {
        main[x] = mixed_where(
            m,
            &mixer,
            marks[x],
            main[x],
            is_found_key(sub_keys[x]),
            sub[x],
        );
    }
}

/// Mixes the marked pixels of a row by a mixer made of these registers, if the main screen is black nowhere. It is
/// written out by what is done, so that each loop does one thing.
#[inline(always)]
fn mix_marked_kinds(
    m: &ColourMath,
    mixer: Mixer,
    marks: &[u8; 256],
    main: &mut [u16; 256],
    sub_keys: &[u8; 256],
    sub: &[u16; 256],
)
    requires black { m.now.black ≡ Never }
    requires by_sub { mixer.by_sub ≡ m.now.sub_screen }
    requires subtracts { mixer.subtracts ≡ m.now.subtract }
    requires halves { mixer.halves ≡ m.now.halve }
    requires fixed { mixer.fixed ≡ fixed_colour m.now }
    ensures { (x : ℕ) → x < 256 → (inside named : Bool) →
        slice_index marks.now x ≡ (if is_mixed m.now inside named then 1 else 0) →
        slice_index main.new x ≡ mixed m.now inside (slice_index main.old x) named
        (is_found (slice_index sub_keys.now x)) (slice_index sub.now x) }
{
    match (mixer.subtracts, mixer.halves) {
        (false, false) => {
            let mixer = Mixer {
                subtracts: false,
                halves: false,
                ..mixer
            };
            mix_marked_each(m, mixer, marks, main, sub_keys, sub)
        }
        (false, true) => {
            let mixer = Mixer {
                subtracts: false,
                halves: true,
                ..mixer
            };
            mix_marked_each(m, mixer, marks, main, sub_keys, sub)
        }
        (true, false) => {
            let mixer = Mixer {
                subtracts: true,
                halves: false,
                ..mixer
            };
            mix_marked_each(m, mixer, marks, main, sub_keys, sub)
        }
        (true, true) => {
            let mixer = Mixer {
                subtracts: true,
                halves: true,
                ..mixer
            };
            mix_marked_each(m, mixer, marks, main, sub_keys, sub)
        }
    }
}

/// Mixes the pixels of a row that `mark_mixed` has marked, if the main screen is black nowhere. `main` are the main
/// screen's colours, `sub_keys` and `sub` the sub screen's keys and colours.
pub fn mix_marked(
    p: &Ppu,
    marks: &[u8; 256],
    main: &mut [u16; 256],
    sub_keys: &[u8; 256],
    sub: &[u16; 256],
)
    requires black { p.now.registers.colour.black ≡ Never }
    ensures { (x : ℕ) → x < 256 → (named : Bool) →
        slice_index marks.now x ≡
        (if is_mixed p.now.registers.colour (is_inside p.now.registers 6 x) named then 1 else 0) →
        slice_index main.new x ≡ mixed p.now.registers.colour (is_inside p.now.registers 6 x) (slice_index main.old x)
        named (is_found (slice_index sub_keys.now x)) (slice_index sub.now x) }
{
    mix_marked_kinds(
        &p.registers().colour,
        mixer_of(p),
        marks,
        main,
        sub_keys,
        sub,
    );
}
