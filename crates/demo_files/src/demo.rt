ghost use Rattle.std.specs.Prelude.{◌≡◌, ◌*◌, ◌<◌, ℕ, length, slice_index};
ghost use Rattle.demo_files.specs.Demo.{demo_boot};

use snes_defs::Table;

/// The program: it sets up one voice and its volumes, and replies at port 0 with what comes in there plus 1.
static BOOT: [u8; 64] = [
    0x8f, 0x00, 0xf2, 0x8f, 0x7f, 0xf3, 0x8f, 0x01, 0xf2, 0x8f, 0x7f, 0xf3, 0x8f, 0x07, 0xf2, 0x8f,
    0x7f, 0xf3, 0x8f, 0x0c, 0xf2, 0x8f, 0x7f, 0xf3, 0x8f, 0x1c, 0xf2, 0x8f, 0x7f, 0xf3, 0x8f, 0x3d,
    0xf2, 0x8f, 0x01, 0xf3, 0x8f, 0x6c, 0xf2, 0x8f, 0x3f, 0xf3, 0x8f, 0x4c, 0xf2, 0x8f, 0x01, 0xf3,
    0xe4, 0xf4, 0xbc, 0xc4, 0xf4, 0x2f, 0xf9, 0x00, 0x00, 0x00, 0x00, 0x00, 0x00, 0x00, 0xc0, 0xff,
];

/// The demo's boot ROM, with its address in the last two bytes. It is a program of the sound processor that plays one
/// voice, and replies at port 0 with what comes in there plus 1.
#[tactic(auto, unfolding(crate::specs::Demo::demo_boot))]
pub fn demo_boot_rom() -> [u8; 64]
    ensures { result ≡ demo_boot }
{
    BOOT
}

/// The demo's interpolation table: entry i is 2 i.
pub fn demo_table() -> Table
    ensures size { length result ≡ 512 }
    ensures entries { (i : ℕ) → i < 512 → slice_index result i ≡ 2 * i }
{
    let mut numbers = [0u16; 512];
    for i in 0..512 {
        numbers[i] = 2 * i as u16;
    }
    Table::of(numbers)
}
