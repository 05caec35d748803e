// The address map as pages of 8 KiB, made once for each speed of ROM: the byte of the memory at an address, and an
// access's clocks.
ghost use Rattle.std.specs.Prelude.{◌≡◌, ℕ, ◌<◌, ◌≤◌, ◌+◌, ◌/◌, ◌^◌, Bool, false, IfOk, IfSome, length};
ghost use Rattle.console_bus.specs.declared.cart_board.CartBoard.{CartBoard};
ghost use Rattle.console_bus.specs.Memory.{index_of, IsWhole, IsMemoryAt, IsStretch, IsPageOf, ArePages};

use crate::bus::WORK_RAM;
use crate::cart_board::CartBoard;
use cart_map::{Place, clocks, place_in};
use snes_defs::NoMemory;
use std::alloc::Global;
use std::marker::Model;

/// The number of addresses in a page.
const PAGE: u32 = 0x2000;

/// The number of pages of one speed.
const PAGES: u32 = 2048;

/// The access time, in clocks, of a page that isn't memory: longer than a line. So one comparison with the clocks
/// left shows both that an access is to memory and that no event interrupts it.
const NO_MEMORY: u16 = 2000;

/// An access to the memory: its byte and its clocks.
#[derive(Clone, Copy)]
pub struct MemoryAccess {
    /// The number of the byte in the memory: work RAM, then the cartridge's RAM, then its ROM.
    pub at: usize,
    /// The master clocks that the access takes.
    pub clocks: u16,
}

/// A page of 8 KiB of addresses: memory, one byte after another, or `NO_MEMORY`.
#[derive(Clone, Copy)]
pub(crate) struct Page {
    /// The byte of the memory at the first address.
    at: u32,
    /// The clocks of an access.
    clocks: u16,
}

/// A cartridge's board with its pages. Contracts see it as the board and the speed.
#[derive(Drop)]
pub(crate) struct AddressMap {
    board: CartBoard,
    /// The pages while ROM is slow, then those while MEMSEL makes it fast.
    pages: Vec<Page>,
    /// The number of the first page at the speed of now: 0 or `PAGES`.
    first: u32,
}

impl Model for AddressMap {
    ghost use Rattle.std.specs.Prelude.{nat_le};
    ghost use Rattle.console_bus.specs.Memory.{MapState, HasPages};

    ghost Value = { MapState };

    ghost view = { λ m. record { board = m.board; fast = nat_le 2048 m.first } };

    ghost invariant = { λ m. HasPages m.board m.pages.items m.first };
}

impl AddressMap {
    /// Makes the map of a board, where ROM is slow. Fails only if allocation of the pages fails.
    pub(crate) fn new(alloc: Global, board: CartBoard) -> Result<AddressMap, NoMemory>
        requires { 0 < board.rom }
        ensures { IfOk result (λ map. map ≡ record { board = board; fast = false }) }
    {
        let pages = pages_of(alloc, &board)?;
        Ok(AddressMap {
            board,
            pages,
            first: 0,
        })
    }

    /// Returns the board.
    #[inline(always)]
    pub(crate) fn board(&self) -> &CartBoard
        ensures { result.now ≡ self.now.board }
    {
        &self.board
    }

    /// Sets whether ROM is fast.
    #[inline(always)]
    pub(crate) fn set_speed(&mut self, fast: bool)
        ensures { self.new ≡ record self.old { fast = fast } }
    {
        self.first = if fast { PAGES } else { 0 };
    }

    /// Returns the access to the memory at an address. The addresses after it in its page of 8 KiB have the bytes after
    /// that one, at the same clocks. None if the page isn't memory, or an access takes `limit` clocks or more.
    #[inline(always)]
    fn stretch_within(&self, addr: u32, limit: u16) -> Option<MemoryAccess>
        requires addr { addr < 2 ^ 24 }
        requires limit { limit ≤ 2000 }
        ensures stretch { IfSome result
            (λ access. IsStretch self.now.board self.now.fast addr access.at access.clocks) }
        ensures within { IfSome result (λ access. access.clocks < limit) }
        ensures below { IfSome result (λ access. access.at < 2 ^ 33) }
    {
        let page = self.pages[(self.first + addr / PAGE) as usize];
        access(page, addr, limit)
    }

    /// Returns the access to the memory at an address. None if the page of the address isn't memory, or an access
    /// takes `limit` clocks or more.
    #[inline(always)]
    pub(crate) fn memory_within(&self, addr: u32, limit: u16) -> Option<MemoryAccess>
        requires addr { addr < 2 ^ 24 }
        requires limit { limit ≤ 2000 }
        ensures memory { IfSome result
            (λ access. IsMemoryAt self.now.board self.now.fast addr access.at access.clocks) }
        ensures within { IfSome result (λ access. access.clocks < limit) }
    {
        self.stretch_within(addr, limit)
    }

    /// Returns the access to the memory at an address, and so those after it in its page. None if the page isn't
    /// memory.
    #[inline(always)]
    pub(crate) fn stretch_at(&self, addr: u32) -> Option<MemoryAccess>
        requires { addr < 2 ^ 24 }
        ensures stretch { IfSome result
            (λ access. IsStretch self.now.board self.now.fast addr access.at access.clocks) }
        ensures below { IfSome result (λ access. access.at < 2 ^ 33) }
    {
        self.stretch_within(addr, NO_MEMORY)
    }

    /// Returns the access to the memory at an address. None if the page of the address isn't memory.
    #[inline(always)]
    pub(crate) fn memory_at(&self, addr: u32) -> Option<MemoryAccess>
        requires { addr < 2 ^ 24 }
        ensures { IfSome result (λ access. IsMemoryAt self.now.board self.now.fast addr access.at access.clocks) }
    {
        self.memory_within(addr, NO_MEMORY)
    }
}

/// Returns the access at an address of a page. None if it takes `limit` clocks or more.
#[inline(always)]
fn access(page: Page, addr: u32, limit: u16) -> Option<MemoryAccess>
    requires addr { addr < 2 ^ 24 }
    requires limit { limit ≤ 2000 }
    ensures stretch { (board : CartBoard) (fast : Bool) → IsPageOf board fast (addr / 8192) page
        → IfSome result (λ access. IsStretch board fast addr access.at access.clocks) }
    ensures within { IfSome result (λ access. access.clocks < limit) }
    ensures below { IfSome result (λ access. access.at < 2 ^ 33) }
{
    let clocks = page.clocks;
    if clocks >= limit {
        return None;
    }
    Some(MemoryAccess {
        at: page.at as usize + (addr % PAGE) as usize,
        clocks,
    })
}

/// Makes the pages of a board: those of slow ROM, then those of fast ROM.
#[tactic(auto, using(crate::proofs::Pages::one_more))]
fn pages_of(alloc: Global, board: &CartBoard) -> Result<Vec<Page>, NoMemory>
    requires { 0 < board.now.rom }
    ensures count { IfOk result (λ pages. length pages.items ≡ 4096) }
    ensures pages { IfOk result (λ pages. ArePages board.now pages.items) }
{
    let mut pages = Vec::new(alloc);
    'pages: for number in 0..2 * PAGES {
        match pages.push(page_from(board, number % PAGES, PAGES <= number)) {
            Ok(()) => {}
            Err(_) => return Err(NoMemory),
        }
    }
    Ok(pages)
}

/// Returns a page that isn't memory, or isn't one byte after another.
fn no_page() -> Page
    ensures { result.clocks ≡ 2000 }
{
    Page {
        at: 0,
        clocks: NO_MEMORY,
    }
}

/// Returns the page of this number of a board, at a speed of ROM.
fn page_from(board: &CartBoard, number: u32, fast: bool) -> Page
    requires some { 0 < board.now.rom }
    requires number { number < 2048 }
    ensures { IsPageOf board.now fast number result }
{
    let first = PAGE * number;
    let place = place_in(board.map, board.rom, board.ram, first);
    match first_byte(board, place) {
        Some(at) => Page {
            at,
            clocks: clocks(first, fast) as u16,
        },
        None => no_page(),
    }
}

/// Returns the byte of the memory at a place where a page may begin. None if the page would pass the end of its
/// memory, or that memory isn't made of whole pages.
fn first_byte(board: &CartBoard, place: Place) -> Option<u32>
    ensures index { IfSome result (λ at. index_of board.now place ≡ Some at) }
    ensures whole { IfSome result (λ at. IsWhole board.now place) }
{
    match place {
        Place::Wram(i) => fitting(0, i, WORK_RAM),
        Place::Ram(i) if board.ram % PAGE == 0 => fitting(WORK_RAM, i, board.ram as usize),
        Place::Rom(i) if board.rom % PAGE as usize == 0 => {
            fitting(WORK_RAM + board.ram as usize, i, board.rom)
        }
        _ => None,
    }
}

/// Returns the byte `i` of `size`, counted from the memory's start. None if a page from there on passes their end.
fn fitting(before: usize, i: u32, size: usize) -> Option<u32>
    requires { before < 2 ^ 33 }
    ensures at { IfSome result (λ at. at ≡ before + i) }
    ensures fits { IfSome result (λ at. i + 8192 ≤ size) }
{
    if i as usize + PAGE as usize <= size {
        u32::try_from(before + i as usize).ok()
    } else {
        None
    }
}
