ghost use Rattle.std.specs.Prelude.{◌≡◌, ◌≤◌, IfOk};
ghost use Rattle.sd_book.specs.Commands.{last_period};

use sd_base::NoMemory;
use sd_book::{Book, Periods};
use std::alloc::Global;

/// A replay of the book whose next period is q, one of its own.
pub fn replay_from(alloc: Global, book: &Book, q: u32) -> Result<Periods<'_>, NoMemory>
    requires { q ≤ last_period book.now.commands }
    ensures height { IfOk result (λ periods. periods.height ≡ book.now.height) }
    ensures commands { IfOk result (λ periods. periods.commands ≡ book.now.commands) }
    ensures next { IfOk result (λ periods. periods.next ≡ q) }
{
    let mut periods = book.periods(alloc);
    for _ in 0..q {
        periods.next(alloc)?;
    }
    Ok(periods)
}
