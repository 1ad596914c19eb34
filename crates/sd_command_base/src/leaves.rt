ghost use Rattle.std.specs.Prelude.{◌^◌, ◌<◌, All, IfOk};
ghost use Rattle.sd_command_base.specs.Text.{leaves_of_text};
ghost use Rattle.sd_command_base.specs.Outside.{depot_state};
ghost use Rattle.sd_command_base.specs.Reads.{JudgedOutcome, FileOutcome};
ghost use Rattle.sd_command_base.specs.Leaves.{leaves_of_file, leaves_or_status};

use crate::bad_line::bad_leaf;
use crate::files::{MOST_BOOK_BYTES, read_bytes};
use crate::word::Word;
use crate::{LeavesFault, LimitKind, Status};
use sd_ports::Depot;
use sd_tree_keys::{Height, Leaf};
use std::alloc::Global;

/// The leaves of the word's file.
pub fn read_leaves<D: Depot>(
    alloc: Global,
    depot: &mut D,
    word: Word<'_>,
    h: Height,
) -> Result<Vec<Leaf>, Status>
    ensures value { FileOutcome (λ leaves. leaves.items) (leaves_of_file word.entry.number h) word.entry.text.now
        (depot_state D.Depot depot.old) (depot_state D.Depot depot.new) result }
    ensures fits { IfOk result (λ leaves. All (λ u. u < 2 ^ h) leaves.items) }
{
    let bytes = read_bytes(alloc, depot, word, MOST_BOOK_BYTES, LimitKind::BookBytes)?;
    judge_leaves(alloc, word.number, &bytes, h)
}

/// The leaves that the bytes of this word's file say.
fn judge_leaves(alloc: Global, word: u8, bytes: &[u8], h: Height) -> Result<Vec<Leaf>, Status>
    ensures value { JudgedOutcome (λ leaves. leaves.items) (leaves_or_status word h bytes.now
        (leaves_of_text h bytes.now))
        result }
    ensures fits { IfOk result (λ leaves. All (λ u. u < 2 ^ h) leaves.items) }
{
    match crate::read(alloc, bytes, h) {
        Ok(leaves) => Ok(leaves),
        Err(LeavesFault::Line(k)) => Err(Status::BadBook {
            word,
            line: bad_leaf(h, k, bytes),
        }),
        Err(LeavesFault::NoMemory) => Err(Status::NoMemory),
    }
}
