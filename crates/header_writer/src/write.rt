//! The two calls.
ghost use Rattle.std.specs.Prelude.{◌≡◌, OnOk, OnErr};
ghost use Rattle.snes_defs.specs.declared.cart.MapKind.TheVariants.{LoRom};
ghost use Rattle.cart_map.specs.declared.refused.CartRefused.TheVariants.{NoHeader};
ghost use Rattle.cart_map.specs.Accept.{image_of, verdict};
ghost use Rattle.header_writer.specs.declared.refused.HeaderRefused.{HeaderRefused};
ghost use Rattle.header_writer.specs.Checksum.{StatesChecksum};
ghost use Rattle.header_writer.specs.Refusal.{refusal, whole_refusal};
ghost use Rattle.header_writer.specs.Written.{with_kind, with_header};

use crate::fields::{TITLE, image_of, put_header, put_kind};
use crate::refusal::{is_unused, refusal};
use crate::refused::HeaderRefused;

/// Writes a whole LoROM header, without RAM, into the file of a cartridge that has none.
///
/// The 32 bytes from 7FC0 of the image must be all 00 or all FF. They become the title, map 20, chips 00, the ROM's
/// size, RAM size 00, country 01 (NTSC), maker 00, version 00, and complement and checksum of the image.
pub fn write_header(file: &mut [u8], title: &[u8; 21]) -> Result<(), HeaderRefused>
    ensures written { OnOk result (file.new ≡ with_header title.now file.old) }
    ensures accepted { OnOk result (verdict file.new ≡ Ok (record { map = LoRom; ram = 0 })) }
    ensures stated { OnOk result (StatesChecksum (image_of file.new)) }
    ensures lacked { OnOk result (verdict file.old ≡ Err NoHeader) }
    ensures taken { OnOk result (whole_refusal (image_of file.old) ≡ None) }
    ensures refused { (cause : HeaderRefused) → result ≡ Err cause → whole_refusal (image_of file.old) ≡ Some cause }
    ensures unchanged { OnErr result (file.new ≡ file.old) }
{
    if let Some(cause) = refusal(image_of(file)) {
        return Err(cause);
    }
    if !is_unused(&image_of(file)[TITLE..TITLE + 32]) {
        return Err(HeaderRefused::InUse);
    }
    put_header(file, title);
    Ok(())
}

/// Writes four bytes of a header, from 7FD5 of the image, into the file of a cartridge that has none.
///
/// They say which cartridge it is: map 20 (LoROM), chips 00, the ROM's size and RAM size 00. What they were is lost.
pub fn write_least(file: &mut [u8]) -> Result<(), HeaderRefused>
    ensures written { OnOk result (file.new ≡ with_kind file.old) }
    ensures accepted { OnOk result (verdict file.new ≡ Ok (record { map = LoRom; ram = 0 })) }
    ensures lacked { OnOk result (verdict file.old ≡ Err NoHeader) }
    ensures taken { OnOk result (refusal (image_of file.old) ≡ None) }
    ensures refused { (cause : HeaderRefused) → result ≡ Err cause → refusal (image_of file.old) ≡ Some cause }
    ensures unchanged { OnErr result (file.new ≡ file.old) }
{
    if let Some(cause) = refusal(image_of(file)) {
        return Err(cause);
    }
    put_kind(file);
    Ok(())
}
