ghost use Rattle.std.specs.Prelude.{◌≡◌};
ghost use Rattle.sd_field.specs.declared.fault.ScriptFault.TheVariants.{NoMemory};
ghost use Rattle.sd_field.specs.declared.fault.FieldFault.TheVariants as FieldFault;

use sd_message::ClearFault;
use std::alloc::AllocFailed;

/// Why bytes are no script. Lines are numbered from 1 and judged in order, and the first bad line decides [this
/// project, docs/FORMATS.md, Field].
#[derive(Clone, Copy)]
pub enum ScriptFault {
    /// The line of this number isn't in the grammar.
    Line(u32),
    /// The leaf on the line of this number isn't in the tree.
    Leaf(u32),
    /// The script has more than 524,288 events.
    Events,
    /// Out of memory.
    NoMemory,
}

impl<T: Drop> From<AllocFailed<T>> for ScriptFault {
    ghost from_gives = { λ _ e. e ≡ NoMemory };

    fn from(_error: AllocFailed<T>) -> ScriptFault {
        ScriptFault::NoMemory
    }
}

/// Why a field stopped [this project, docs/FORMATS.md, Field].
#[derive(Clone, Copy)]
pub enum FieldFault {
    /// The head end refuses the clear packet that a send sends, for this reason.
    Clear(ClearFault),
    /// Out of memory.
    NoMemory,
}

impl From<sd_base::NoMemory> for FieldFault {
    ghost from_gives = { λ _ e. e ≡ FieldFault.NoMemory };

    fn from(_error: sd_base::NoMemory) -> FieldFault {
        FieldFault::NoMemory
    }
}
