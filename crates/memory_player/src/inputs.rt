ghost use Rattle.std.specs.Prelude.{◌≡◌, ℕ, IfOk, OnOk, IfErr};
ghost use Rattle.shelf.specs.declared.shelves.Input.TheVariants as input;
ghost use Rattle.input_files.specs.Table.{IsTableFile};
ghost use Rattle.snes_commands.specs.Job.{ShowsJob};
ghost use Rattle.snes_commands.specs.Kinds.{AreAccepted, IsCartIn, IsScriptIn};
ghost use Rattle.memory_player.specs.Inputs.{told_of, EndsInput, EndsInputs};

use cart_map::{CartEnd, CartRefused, accept};
use input_files::{ScriptEnd, read_boot, read_script, read_table};
use snes_defs::{Cart, Job, Side, Spans, Table};
use std::alloc::Global;

/// The most bytes of a script.
const SCRIPT_LIMIT: usize = 1_048_576;

/// The bytes of the four files that make a job.
#[derive(Clone, Copy, Drop)]
pub struct Inputs<'a> {
    /// The cartridge.
    pub cart: &'a [u8],
    /// The boot ROM of the SPC700.
    pub boot: &'a [u8],
    /// The interpolation table of the S-DSP.
    pub table: &'a [u8],
    /// The controller script.
    pub script: &'a [u8],
}

/// The reason why an input was not accepted.
#[derive(Clone, Copy, Debug, PartialEq, Eq)]
pub enum Why {
    /// The bytes are not a cartridge of this console.
    Cart(CartRefused),
    /// The boot ROM is not 64 bytes long.
    Boot,
    /// The interpolation table is not 1,024 bytes long (512), or this is its first entry above 2047.
    Table(u16),
    /// The script has more than 1,048,576 bytes (0), or this is its first invalid line, from 1.
    Script(u32),
}

/// The reason why a job was not played to its end.
#[derive(Clone, Copy)]
pub enum End {
    /// More than 36,000 frames were asked for.
    Frames,
    /// An input was not accepted.
    Refused(Why),
    /// Allocation failed.
    NoMemory,
    /// The slice for the bytes of this side is too short for them.
    TooShort(Side),
}

/// Returns the job that the inputs make, with the given number of frames. Its region is that of the script. The inputs
/// are read in their order.
#[tactic(auto, using(crate::proofs::Reading::reads))]
pub fn job_in(alloc: Global, inputs: Inputs<'_>, frames: u32) -> Result<Job, End>
    ensures frames { IfOk result (λ job. job.frames ≡ frames) }
    ensures shows { IfOk result (ShowsJob (told_of inputs.entry.cart.now inputs.entry.boot.now inputs.entry.table.now inputs.entry.script.now) frames) }
    ensures ends { IfErr result (EndsInputs (told_of inputs.entry.cart.now inputs.entry.boot.now inputs.entry.table.now inputs.entry.script.now)) }
{
    let cart = cart_in(alloc, inputs.cart)?;
    let boot = boot_in(inputs.boot)?;
    let table = table_in(inputs.table)?;
    let script = script_in(alloc, inputs.script)?;
    let region = script.region();
    Ok(Job {
        cart,
        boot,
        table,
        script,
        frames,
        region,
    })
}

/// Reads the cartridge in these bytes.
#[tactic(auto, using(crate::proofs::Reading::kinds))]
fn cart_in(alloc: Global, file: &[u8]) -> Result<Cart, End>
    ensures read { IfOk result (IsCartIn file.now) }
    ensures accepted { OnOk result (AreAccepted input.Cart file.now) }
    ensures ends { IfErr result (EndsInput input.Cart file.now) }
{
    let Ok(copy) = Vec::from_slice(alloc, file) else {
        return Err(End::NoMemory);
    };
    match accept(copy) {
        Ok(cart) => Ok(cart),
        Err(CartEnd::Refused(cause)) => Err(End::Refused(Why::Cart(cause))),
        Err(CartEnd::NoMemory) => Err(End::NoMemory),
    }
}

/// Reads the boot ROM in these bytes.
#[tactic(auto, using(crate::proofs::Reading::kinds))]
fn boot_in(file: &[u8]) -> Result<[u8; 64], End>
    ensures read { IfOk result (λ boot. boot ≡ file.now) }
    ensures accepted { OnOk result (AreAccepted input.Boot file.now) }
    ensures ends { IfErr result (EndsInput input.Boot file.now) }
{
    match read_boot(file) {
        Some(boot) => Ok(boot),
        None => Err(End::Refused(Why::Boot)),
    }
}

/// Reads the interpolation table in these bytes.
#[tactic(auto, using(crate::proofs::Reading::kinds))]
fn table_in(file: &[u8]) -> Result<Table, End>
    ensures read { IfOk result (IsTableFile file.now) }
    ensures accepted { OnOk result (AreAccepted input.Table file.now) }
    ensures ends { IfErr result (EndsInput input.Table file.now) }
{
    match read_table(file) {
        Ok(table) => Ok(table),
        Err(entry) => Err(End::Refused(Why::Table(entry))),
    }
}

/// Reads the script in these bytes.
#[tactic(auto, using(crate::proofs::Reading::kinds))]
fn script_in(alloc: Global, file: &[u8]) -> Result<Spans, End>
    ensures read { IfOk result (IsScriptIn file.now) }
    ensures accepted { OnOk result (AreAccepted input.Script file.now) }
    ensures ends { IfErr result (EndsInput input.Script file.now) }
{
    if file.len() > SCRIPT_LIMIT {
        return Err(End::Refused(Why::Script(0)));
    }
    match read_script(alloc, file) {
        Ok(script) => Ok(script),
        Err(ScriptEnd::Line(line)) => Err(End::Refused(Why::Script(line))),
        Err(ScriptEnd::NoMemory) => Err(End::NoMemory),
    }
}
