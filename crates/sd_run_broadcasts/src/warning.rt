ghost use Rattle.std.specs.Prelude.{◌≡◌, string_bytes, IfOk};
ghost use Rattle.sd_ports.specs.Bytes.{AppendsPrefix};
ghost use Rattle.sd_run_broadcasts.specs.Said.{no_first_word as without_word, old_messages as of_old_messages};
ghost use Rattle.sd_run_broadcasts.specs.Said.{warned, warning_by};

use sd_command_base::escaped;
use sd_ports::{Sink, write_all};
use std::alloc::{AllocError, Global};
use std::fmt::Write;

// The version of the messages that a receiver that stays on needs.
const NEWEST_MESSAGES: u8 = 3;

/// Writes to `notes` what a user should know of the site of this name: whether it has a line `first-word`, and the
/// version of its messages. It doesn't matter if this fails.
pub(crate) fn warn<N: Sink>(alloc: Global, notes: &mut N, name: &str, has_word: bool, messages: u8)
    ensures { AppendsPrefix (N.held notes.old) (N.held notes.new) (warning_by name.now has_word messages) }
{
    if let Ok(line) = warning(alloc, name, has_word, messages) {
        let _ = write_all(notes, line.as_bytes());
    }
}

/// The warning, or no text.
#[tactic(auto, unfolding(crate::specs::Said::warning_by))]
fn warning(alloc: Global, name: &str, has_word: bool, messages: u8) -> Result<String, AllocError>
    ensures { IfOk result (λ line. string_bytes line ≡ warning_by name.now has_word messages) }
{
    if !has_word {
        no_first_word(alloc, name)
    } else if messages < NEWEST_MESSAGES {
        old_messages(alloc, name, messages)
    } else {
        Ok(String::new(alloc))
    }
}

/// That the site has no line `first-word`.
fn no_first_word(alloc: Global, name: &str) -> Result<String, AllocError>
    ensures { IfOk result (λ line. string_bytes line ≡ warned name.now without_word) }
{
    let name = escaped(alloc, name)?;
    format!(in alloc;
        "sdca: warning: SITE {name}: it has no line first-word; sent twice, it repeats its control words; make sites by next\n"
    )
}

/// That the messages are of this version, before the newest.
fn old_messages(alloc: Global, name: &str, version: u8) -> Result<String, AllocError>
    ensures { IfOk result (λ line. string_bytes line ≡ warned name.now (of_old_messages version)) }
{
    let name = escaped(alloc, name)?;
    format!(in alloc;
        "sdca: warning: SITE {name}: its messages are of version {version}; a box that stays on loses the next broadcast; take messages 3\n"
    )
}
