//! Rows of objects, as planes and as dots.

ghost use Rattle.std.specs.Prelude.{◌≡◌, ℕ, ◌+◌, ◌*◌, ◌/◌, ◌%◌, ◌<◌, ◌≤◌, ◌==◌, [], fold, true, length, slice_index};
ghost use Rattle.std.specs.Prelude.{slice_index_or};
ghost use Rattle.ppu_regs.specs.Dots.{no_dot, dot_of};
ghost use Rattle.ppu_objects.specs.Objects.{passes_range};
ghost use Rattle.ppu_objects.specs.Slivers.{drawn_slivers, passes_time, nothing, painted, object_layer_dot};
ghost use Rattle.ppu_objects.specs.Ranks.{object_rank, row_bases, IsOfObjects};
ghost use Rattle.ppu_regs.specs.declared.dots.LayerDot.{LayerDot};
ghost use Rattle.ppu_regs.specs.Dots.{no_dot, dot_of};

use crate::objects::{Object, gather_in_range};
use crate::painting::{paint, put_lines};
use crate::slivers::{Sliver, gather_in_time};
use arrayvec::ArrayVec;
use ppu_regs::{Dot, Over, Ppu, RankedRow};

#[inline(always)]
fn clear(out: &mut RankedRow)
    ensures ranks { (x : ℕ) → x < 256 → slice_index out.new.ranks x ≡ 0 }
    ensures numbers { (x : ℕ) → x < 256 → slice_index out.new.numbers x ≡ 0 }
{
    for x in 0..256usize {
        out.ranks[x] = 0;
        out.numbers[x] = 0;
    }
}

/// Gathers the drawn slivers of a row in an empty list. Returns which limits were passed.
#[tactic(auto, unfolding(crate::specs::Slivers::drawn_slivers, crate::specs::Slivers::passes_time))]
pub fn gather_row(p: &Ppu, row: u16, slivers: &mut ArrayVec<Sliver, 34>) -> Over
    requires row { row < 239 }
    requires empty { slivers.old.items ≡ [] }
    ensures slivers { slivers.new.items ≡ drawn_slivers p.now row }
    ensures range { result.range ≡ passes_range p.now row }
    ensures time { result.time ≡ passes_time p.now row }
{
    let mut objects: ArrayVec<Object, 32> = ArrayVec::new();
    let range = gather_in_range(p, row, &mut objects);
    let time = gather_in_time(p.registers().object_tiles.size, objects.as_slice(), slivers);
    Over { range, time }
}

/// Draws slivers in turn over an empty row, whose pixel x is at place x + 8.
#[inline(always)]
#[tactic(auto, unfolding(crate::specs::Slivers::painted, crate::specs::Ranks::object_rank), using(std::proofs::lemmas::List::Sums::fold_more))]
fn paint_all(
    p: &Ppu,
    row: u16,
    slivers: &[Sliver],
    bases: &[u8; 4],
    named: bool,
    ranks: &mut [u8; 272],
    numbers: &mut [u8; 272],
)
    requires row { row < 239 }
    requires most { length slivers.now ≤ 34 }
    requires bases { (k : ℕ) → slice_index bases.now k ≤ 240 }
    requires ranks_clear { (x : ℕ) → x < 256 → slice_index ranks.old (x + 8) ≡ 0 }
    requires numbers_clear { (x : ℕ) → x < 256 → slice_index numbers.old (x + 8) ≡ 0 }
    ensures ranks { (x : ℕ) → x < 256 → slice_index ranks.new (x + 8) ≡
        object_rank bases.now named (fold (painted p.now row x) nothing slivers.now) }
    ensures numbers { (x : ℕ) → x < 256 → slice_index numbers.new (x + 8) ≡
        (fold (painted p.now row x) nothing slivers.now).number }
{
    let mut lines = [0u8; 272];
    put_lines(p, row, slivers, &mut lines);
    for i in 0..slivers.len() {
        let sliver = slivers[i];
        paint(p, row, &sliver, &lines, 8 * i, bases, named, ranks, numbers);
    }
}

/// Returns a row of zeros with room for eight more at both ends.
#[inline(always)]
fn clear_row() -> [u8; 272]
    ensures { (x : ℕ) → slice_index result x ≡ 0 }
{
    [0; 272]
}

/// Copies the 256 pixels of a row from their places, x + 8.
#[inline(always)]
fn cut(from: &[u8; 272], out: &mut [u8; 256])
    ensures { (x : ℕ) → x < 256 → slice_index out.new x ≡ slice_index from.now (x + 8) }
{
    for x in 0..256usize {
        out[x] = from[x + 8];
    }
}

/// Draws the slivers of a row, if there are any.
#[inline(always)]
#[tactic(auto, unfolding(crate::specs::Ranks::object_rank))]
fn paint_row(
    p: &Ppu,
    row: u16,
    slivers: &[Sliver],
    bases: &[u8; 4],
    named: bool,
    out: &mut RankedRow,
)
    requires row { row < 239 }
    requires most { length slivers.now ≤ 34 }
    requires bases { (k : ℕ) → slice_index bases.now k ≤ 240 }
    ensures ranks { (x : ℕ) → x < 256 → slice_index out.new.ranks x ≡
        object_rank bases.now named (fold (painted p.now row x) nothing slivers.now) }
    ensures numbers { (x : ℕ) → x < 256 → slice_index out.new.numbers x ≡
        (fold (painted p.now row x) nothing slivers.now).number }
{
    if slivers.is_empty() {
        clear(out);
    } else {
        let mut ranks = clear_row();
        let mut numbers = clear_row();
        paint_all(p, row, slivers, bases, named, &mut ranks, &mut numbers);
        cut(&ranks, &mut out.ranks);
        cut(&numbers, &mut out.numbers);
    }
}

/// Writes the drawn slivers of a row as two byte planes.
///
/// `bases` are the rank bytes of the four priorities. Bit 3 is set if `named` and the palette may take part in
/// arithmetic.
#[tactic(auto, unfolding(crate::specs::Slivers::object_layer_dot))]
pub fn paint_drawn(
    p: &Ppu,
    row: u16,
    slivers: &ArrayVec<Sliver, 34>,
    bases: &[u8; 4],
    named: bool,
    out: &mut RankedRow,
)
    requires row { row < 239 }
    requires slivers { slivers.now.items ≡ drawn_slivers p.now row }
    requires bases { (k : ℕ) → slice_index bases.now k ≤ 240 }
    ensures ranks { (x : ℕ) → x < 256 → slice_index out.new.ranks x ≡
        object_rank bases.now named (object_layer_dot p.now row x) }
    ensures numbers { (x : ℕ) → x < 256 → slice_index out.new.numbers x ≡ (object_layer_dot p.now row x).number }
{
    paint_row(p, row, slivers.as_slice(), bases, named, out);
}

/// Writes the objects of a row as two byte planes. Returns which limits were passed.
///
/// `bases` are the rank bytes of the four priorities. Bit 3 is set if `named` and the palette may take part in
/// arithmetic.
pub fn obj_planes(p: &Ppu, row: u16, bases: &[u8; 4], named: bool, out: &mut RankedRow) -> Over
    requires row { row < 239 }
    requires bases { (k : ℕ) → slice_index bases.now k ≤ 240 }
    ensures ranks { (x : ℕ) → x < 256 → slice_index out.new.ranks x ≡
        object_rank bases.now named (object_layer_dot p.now row x) }
    ensures numbers { (x : ℕ) → x < 256 → slice_index out.new.numbers x ≡ (object_layer_dot p.now row x).number }
    ensures range { result.range ≡ passes_range p.now row }
    ensures time { result.time ≡ passes_time p.now row }
{
    let mut slivers: ArrayVec<Sliver, 34> = ArrayVec::new();
    let over = gather_row(p, row, &mut slivers);
    paint_drawn(p, row, &slivers, bases, named, out);
    over
}

/// Returns one pixel of a row as a dot, from its bytes in planes whose rank bytes are those of `obj_row`.
#[inline(always)]
#[tactic(auto, unfolding(crate::specs::Ranks::object_rank, crate::specs::Ranks::rank_byte, ppu_regs::specs::Dots::dot_of, ppu_regs::specs::Dots::colour_of))]
fn dot_at(cgram: &[u16; 256], rank: u8, number: u8) -> Dot
    ensures { (c : LayerDot) → IsOfObjects c → rank ≡ object_rank row_bases true c → number ≡ c.number
        → result ≡ dot_of cgram.now c }
{
    if rank == 0 {
        Dot {
            on: false,
            prio: 0,
            colour: 0,
            math: false,
        }
    } else {
        Dot {
            on: true,
            prio: (rank / 16 + 3) % 4,
            colour: cgram[number as usize],
            math: rank / 8 % 2 == 1,
        }
    }
}

#[inline(always)]
fn dot_in_row(p: &Ppu, row: u16, x: usize, rank: u8, number: u8) -> Dot
    requires rank { rank ≡ object_rank row_bases true (object_layer_dot p.now row x) }
    requires number { number ≡ (object_layer_dot p.now row x).number }
    ensures { result ≡ dot_of p.now.cgram (object_layer_dot p.now row x) }
{
    dot_at(p.cgram(), rank, number)
}

/// Writes the 256 dots of the objects of a row. Returns which limits were passed.
pub fn obj_row(p: &Ppu, row: u16, out: &mut [Dot]) -> Over
    requires row { row < 239 }
    requires room { length out.old ≡ 256 }
    ensures dots { (x : ℕ) → x < 256 → slice_index_or out.new x no_dot ≡
        dot_of p.now.cgram (object_layer_dot p.now row x) }
    ensures range { result.range ≡ passes_range p.now row }
    ensures time { result.time ≡ passes_time p.now row }
{
    let mut planes = RankedRow {
        ranks: [0; 256],
        numbers: [0; 256],
    };
    let over = obj_planes(p, row, &[16, 32, 48, 64], true, &mut planes);
    for x in 0..256usize {
        out[x] = dot_in_row(p, row, x, planes.ranks[x], planes.numbers[x]);
    }
    over
}
