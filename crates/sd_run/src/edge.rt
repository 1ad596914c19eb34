ghost use Rattle.std.specs.Prelude.{◌≡◌, ◌↔◌, true, option_map};
ghost use Rattle.sd_host.specs.declared.identity.Output.TheVariants.{Unknown};
ghost use Rattle.sd_run.specs.Troubles.{told_trouble, trouble_at};
ghost use Rattle.sd_command_line.specs.CommandLine.{words_of};
ghost use Rattle.sd_command_line.specs.Words.{names_out, order_of, HoldsSecretsBy};

use sd_command_base::Trouble;
use sd_command_line::CommandLine;
use sd_host::{HostDepot, SAME_FILE};
use std::alloc::Global;
use std::fs::Files;
use std::io::ErrorKind;

/// The files of the machine for these words. What they make is its owner's alone if and only if it is a card.
pub(crate) fn depot_for<'a, R: Files + Print>(
    alloc: Global,
    files: &'a R,
    line: &CommandLine<'_>,
) -> HostDepot<'a, R>
    ensures { (result.private ≡ true) ↔ HoldsSecretsBy (order_of (words_of line.now)) }
{
    HostDepot::new(alloc, files, line.holds_secrets())
}

/// Whether a file that the words name is the standard output, also if one of their numbers is refused; or whether OUT
/// may be it, since it can't be looked at.
pub(crate) fn names_output<R: Files + Print>(
    depot: &HostDepot<'_, R>,
    line: &CommandLine<'_>,
) -> bool
    ensures unknown { depot.now.output ≡ Unknown → names_out (words_of line.now) ≡ true → result ≡ true }
{
    may_be_output(depot, line) || line.files().iter().any(|name| depot.is_output(name))
}

/// Whether the words name OUT, and the standard output can't be looked at.
fn may_be_output<R: Files + Print>(depot: &HostDepot<'_, R>, line: &CommandLine<'_>) -> bool
    ensures { (result ≡ true) ↔ ((names_out (words_of line.now) ≡ true) × (depot.now.output ≡ Unknown)) }
{
    line.has_out() && !depot.knows_output()
}

/// The file of which the machine told an error last, and what it said, as a user is told it.
pub(crate) fn trouble_in<'a, R: Files + Print>(
    depot: &'a HostDepot<'_, R>,
) -> Option<(&'a str, Trouble)>
    ensures { option_map (λ told. (told.0.now, told.1)) result ≡ option_map told_trouble depot.now.trouble }
{
    match depot.trouble() {
        Some((name, kind)) => Some((name, trouble_of(kind))),
        None => None,
    }
}

/// An error's kind, as a user is told it.
fn trouble_of(kind: ErrorKind) -> Trouble
    ensures { result ≡ trouble_at kind }
{
    match kind {
        ErrorKind::StorageFull | ErrorKind::QuotaExceeded => Trouble::NoSpace,
        ErrorKind::PermissionDenied => Trouble::Denied,
        ErrorKind::IsADirectory => Trouble::Folder,
        ErrorKind::BrokenPipe | ErrorKind::ConnectionReset => Trouble::Gone,
        ErrorKind::ReadOnlyFilesystem => Trouble::ReadOnly,
        ErrorKind::FileTooLarge => Trouble::TooLarge,
        ErrorKind::FilesystemLoop | ErrorKind::InvalidFilename => Trouble::Loop,
        SAME_FILE => Trouble::Input,
        _ => Trouble::Other,
    }
}
