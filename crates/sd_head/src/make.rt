ghost use Rattle.std.specs.Prelude.{[], IfOk};
ghost use Rattle.sd_head.specs.After.{IsClearAfter};

use crate::clear::{Clear, FIRST_POSITION, PIDS};
use sd_base::NoMemory;
use sd_message::MOST_PLACES;
use std::alloc::{AllocError, Global};

impl Clear {
    /// Before the first packet. All memory is taken here.
    pub fn new(alloc: Global) -> Result<Clear, NoMemory>
        ensures { IfOk result (λ clear. IsClearAfter [] clear) }
    {
        Ok(empty(alloc)?)
    }
}

fn empty(alloc: Global) -> Result<Clear, AllocError>
    ensures { IfOk result (λ clear. IsClearAfter [] clear) }
{
    Ok(Clear {
        count: 0,
        positions: vec![in alloc; FIRST_POSITION; PIDS]?,
        pids: Vec::with_capacity(alloc, MOST_PLACES)?,
        pmts: vec![in alloc; false; PIDS]?,
    })
}
