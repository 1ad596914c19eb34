ghost use Rattle.std.specs.Prelude.{◌≡◌};
ghost use Rattle.sd_command_base.specs.Outcome.{IsEnding, status_of};
ghost use Rattle.sd_run_broadcasts.specs.Receive.{ending_status as status_of_ending};

use sd_command_base::Status;
use sd_spec::Ending;

/// The status of how a stream ended for the receiver of this leaf.
pub fn ending_status(leaf: u32, ending: Ending) -> Status
    ensures ending { IsEnding result }
    ensures value { result ≡ status_of_ending leaf ending }
{
    match ending {
        Ending::Opened => Status::Done,
        Ending::Revoked(period) => Status::Revoked { leaf, period },
        Ending::Unheard(period) => Status::Unheard { leaf, period },
        Ending::NoCat => Status::NoCat,
        Ending::Unclosed(number) => Status::Unclosed(number),
        Ending::Gaps(packets) => Status::Gaps(packets),
    }
}

/// The result of a stream that was read to its end.
pub fn ending_result(leaf: u32, ending: Ending) -> Result<(), Status>
    ensures ending { IsEnding (status_of result) }
    ensures value { status_of result ≡ status_of_ending leaf ending }
{
    match ending_status(leaf, ending) {
        Status::Done => Ok(()),
        status => Err(status),
    }
}
