//! The rank of each layer's priority in the order of the mode.

ghost use Rattle.std.specs.Prelude.{◌≡◌, ◌≤◌, ◌==◌, ◌&&◌};
ghost use Rattle.ppu_screens.specs.Order.{order_0, order_1, order_1_front, order_2, order_7, order_7_second, rank_in};
ghost use Rattle.ppu_screens.specs.Order.{rank_at, layer_rank, rank_base};

use ppu_regs::Registers;

#[inline(always)]
fn is_place(layer: u8, priority: u8, of_layer: u8, of_priority: u8) -> bool
    ensures { result ≡ ((of_layer == layer) && (of_priority == priority)) }
{
    of_layer == layer && of_priority == priority
}

/// Returns a rank in mode 0.
#[inline(always)]
fn rank_0(layer: u8, priority: u8) -> u8
    ensures value { result ≡ rank_in order_0 layer priority }
    ensures small { result ≤ 12 }
{
    if is_place(layer, priority, 5, 3) {
        12
    } else if is_place(layer, priority, 1, 1) {
        11
    } else if is_place(layer, priority, 2, 1) {
        10
    } else if is_place(layer, priority, 5, 2) {
        9
    } else if is_place(layer, priority, 1, 0) {
        8
    } else if is_place(layer, priority, 2, 0) {
        7
    } else if is_place(layer, priority, 5, 1) {
        6
    } else if is_place(layer, priority, 3, 1) {
        5
    } else if is_place(layer, priority, 4, 1) {
        4
    } else if is_place(layer, priority, 5, 0) {
        3
    } else if is_place(layer, priority, 3, 0) {
        2
    } else if is_place(layer, priority, 4, 0) {
        1
    } else {
        0
    }
}

/// Returns a rank in mode 1.
#[inline(always)]
fn rank_1(layer: u8, priority: u8) -> u8
    ensures value { result ≡ rank_in order_1 layer priority }
    ensures small { result ≤ 12 }
{
    if is_place(layer, priority, 5, 3) {
        10
    } else if is_place(layer, priority, 1, 1) {
        9
    } else if is_place(layer, priority, 2, 1) {
        8
    } else if is_place(layer, priority, 5, 2) {
        7
    } else if is_place(layer, priority, 1, 0) {
        6
    } else if is_place(layer, priority, 2, 0) {
        5
    } else if is_place(layer, priority, 5, 1) {
        4
    } else if is_place(layer, priority, 3, 1) {
        3
    } else if is_place(layer, priority, 5, 0) {
        2
    } else if is_place(layer, priority, 3, 0) {
        1
    } else {
        0
    }
}

/// Returns a rank in mode 1 with BG3's priority in front of all.
#[inline(always)]
fn rank_1_front(layer: u8, priority: u8) -> u8
    ensures value { result ≡ rank_in order_1_front layer priority }
    ensures small { result ≤ 12 }
{
    if is_place(layer, priority, 3, 1) {
        10
    } else if is_place(layer, priority, 5, 3) {
        9
    } else if is_place(layer, priority, 1, 1) {
        8
    } else if is_place(layer, priority, 2, 1) {
        7
    } else if is_place(layer, priority, 5, 2) {
        6
    } else if is_place(layer, priority, 1, 0) {
        5
    } else if is_place(layer, priority, 2, 0) {
        4
    } else if is_place(layer, priority, 5, 1) {
        3
    } else if is_place(layer, priority, 5, 0) {
        2
    } else if is_place(layer, priority, 3, 0) {
        1
    } else {
        0
    }
}

/// Returns a rank in modes 2 to 6.
#[inline(always)]
fn rank_2(layer: u8, priority: u8) -> u8
    ensures value { result ≡ rank_in order_2 layer priority }
    ensures small { result ≤ 12 }
{
    if is_place(layer, priority, 5, 3) {
        8
    } else if is_place(layer, priority, 1, 1) {
        7
    } else if is_place(layer, priority, 5, 2) {
        6
    } else if is_place(layer, priority, 2, 1) {
        5
    } else if is_place(layer, priority, 5, 1) {
        4
    } else if is_place(layer, priority, 1, 0) {
        3
    } else if is_place(layer, priority, 5, 0) {
        2
    } else if is_place(layer, priority, 2, 0) {
        1
    } else {
        0
    }
}

/// Returns a rank in mode 7.
#[inline(always)]
fn rank_7(layer: u8, priority: u8) -> u8
    ensures value { result ≡ rank_in order_7 layer priority }
    ensures small { result ≤ 12 }
{
    if is_place(layer, priority, 5, 3) {
        5
    } else if is_place(layer, priority, 5, 2) {
        4
    } else if is_place(layer, priority, 5, 1) {
        3
    } else if is_place(layer, priority, 1, 0) {
        2
    } else if is_place(layer, priority, 5, 0) {
        1
    } else {
        0
    }
}

/// Returns a rank in mode 7 with EXTBG.
#[inline(always)]
fn rank_7_second(layer: u8, priority: u8) -> u8
    ensures value { result ≡ rank_in order_7_second layer priority }
    ensures small { result ≤ 12 }
{
    if is_place(layer, priority, 5, 3) {
        7
    } else if is_place(layer, priority, 5, 2) {
        6
    } else if is_place(layer, priority, 2, 1) {
        5
    } else if is_place(layer, priority, 5, 1) {
        4
    } else if is_place(layer, priority, 1, 0) {
        3
    } else if is_place(layer, priority, 5, 0) {
        2
    } else if is_place(layer, priority, 2, 0) {
        1
    } else {
        0
    }
}

#[inline(always)]
#[tactic(auto, unfolding(crate::specs::Order::rank_at))]
fn rank_by(mode: u8, bg3_front: bool, extbg: bool, layer: u8, priority: u8) -> u8
    ensures value { result ≡ rank_at mode bg3_front extbg layer priority }
    ensures small { result ≤ 12 }
{
    if mode == 0 {
        rank_0(layer, priority)
    } else if mode == 1 {
        if bg3_front {
            rank_1_front(layer, priority)
        } else {
            rank_1(layer, priority)
        }
    } else if mode == 7 {
        if extbg {
            rank_7_second(layer, priority)
        } else {
            rank_7(layer, priority)
        }
    } else {
        rank_2(layer, priority)
    }
}

/// Returns the rank, 0 to 12, of a priority of a layer (1 to 4 for BG1 to BG4, 5 for the objects). The greater rank is
/// nearer to the front; it is 0 if the mode hasn't that layer.
#[inline(always)]
#[tactic(auto, unfolding(crate::specs::Order::layer_rank))]
pub fn rank(r: &Registers, layer: u8, priority: u8) -> u8
    ensures value { result ≡ layer_rank r.now layer priority }
    ensures small { result ≤ 12 }
{
    rank_by(r.mode, r.bg3_front, r.settings.extbg, layer, priority)
}

/// Returns the rank byte of a layer's priority: its rank in bits 7-4, and bit 3 if it is `named` for arithmetic.
#[inline(always)]
#[tactic(auto, unfolding(crate::specs::Order::rank_base))]
pub fn base(r: &Registers, layer: u8, priority: u8, named: bool) -> u8
    ensures value { result ≡ rank_base (layer_rank r.now layer priority) named }
    ensures small { result ≤ 200 }
{
    let bit = if named { 8 } else { 0 };
    16 * rank(r, layer, priority) + bit
}
