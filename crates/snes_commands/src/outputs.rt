ghost use Rattle.std.specs.Prelude.{◌≡◌, ◌⊎◌, ℕ, List, [], true, OnOk, IfErr};
ghost use Rattle.shelf.specs.Told.{Holds, HasRisen};
ghost use Rattle.shelf.specs.Shown.{IsCreated, IsUntouched};
ghost use Rattle.run_io.specs.Words.{output_name};
ghost use Rattle.run_io.specs.Form.{order_by, IsName};
ghost use Rattle.run_io.specs.Lists.{AllOf, FirstThat, IsOneOf};
ghost use Rattle.snes_commands.specs.Ends.{are_apart, OnlyTouches, IsFresh};

use run_io::{Asked, output_name};
use shelf::{Failed, Out, Shelf};

/// Creates outputs in their order, under the names that the arguments give them. Err names the one that was not
/// created; those before it were, and those after it were not tried.
pub fn create_all<H: Shelf>(shelf: &mut H, asked: &Asked<'_>, outputs: &[Out]) -> Result<(), Out>
    requires names { AllOf (λ out. IsName (output_name asked.now.pairs.now out)) outputs.now }
    requires apart { are_apart outputs.now ≡ true }
    ensures created { OnOk result (AllOf (IsFresh (order_by asked.now) (H.shown shelf.new)) outputs.now) }
    ensures place { IfErr result (λ failed. FirstThat (IsFresh (order_by asked.now) (H.shown shelf.new)) (λ out. out ≡ failed) outputs.now) }
    ensures failed { IfErr result (λ failed. HasRisen ((H.shown shelf.old).write_faults failed) ((H.shown shelf.new).write_faults failed)) }
    ensures left { AllOf (λ out. IsUntouched (H.shown shelf.old) (H.shown shelf.new) out ⊎ IsFresh (order_by asked.now) (H.shown shelf.new) out) outputs.now }
    ensures only { OnlyTouches outputs.now (H.shown shelf.old) (H.shown shelf.new) }
{
    let Some((out, rest)) = outputs.split_first() else {
        return Ok(());
    };
    match shelf.create(*out, output_name(asked.pairs, *out)) {
        Ok(()) => create_all(shelf, asked, rest),
        Err(Failed) => Err(*out),
    }
}

/// Flushes the outputs in their order. Err names the one that was not written.
pub fn flush_all<H: Shelf>(shelf: &mut H, outputs: &[Out]) -> Result<(), Out>
    requires { are_apart outputs.now ≡ true }
    ensures whole { OnOk result (AllOf (λ out. (H.shown shelf.new).unwritten out ≡ 0) outputs.now) }
    ensures written { (H.shown shelf.new).written ≡ (H.shown shelf.old).written }
    ensures failed { IfErr result (λ failed. IsOneOf outputs.now failed × HasRisen ((H.shown shelf.old).write_faults failed) ((H.shown shelf.new).write_faults failed)) }
    ensures named { (H.shown shelf.new).named ≡ (H.shown shelf.old).named }
    ensures only { OnlyTouches outputs.now (H.shown shelf.old) (H.shown shelf.new) }
{
    let Some((out, rest)) = outputs.split_first() else {
        return Ok(());
    };
    match shelf.flush(*out) {
        Ok(()) => flush_all(shelf, rest),
        Err(Failed) => Err(*out),
    }
}
