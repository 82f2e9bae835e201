// The line of a fault.
ghost use Rattle.std.specs.Prelude.{◌≡◌, IfOk, string_bytes};
ghost use Rattle.lines.specs.Log.{fault_line_of};

use faults::ProgramFault;
use std::alloc::{AllocError, Global};

// Writes the line of the fault: its layer, number and place.
pub fn fault_line(heap: Global, fault: &ProgramFault) -> Result<String, AllocError>
    ensures { IfOk result (λ s. string_bytes s ≡ fault_line_of fault.now) }
{
    format!(in heap; "{fault}\n")
}
