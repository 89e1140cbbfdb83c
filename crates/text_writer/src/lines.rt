//! Lines that several texts have.
ghost use Rattle.std.specs.Prelude.{◌≡◌, IfOk, string_bytes};
ghost use Rattle.text_writer.specs.Lines.{do_line};

use net_units::OutOfMemory;
use std::alloc::Global;

/// The line of this many steps of the actor with this name.
pub fn do_line(alloc: Global, actor: &str, count: u64) -> Result<String, OutOfMemory>
    ensures { IfOk result (λ line. string_bytes line ≡ do_line actor.now count) }
{
    Ok(format!(in alloc; "do {actor} {count}\n")?)
}
