//! What it says of the files that a run is done.

ghost use Rattle.std.specs.Prelude.{◌≡◌, List, Some, Ok};
ghost use Rattle.sd_base.specs.Types.{Bytes};
ghost use Rattle.sd_ports.specs.Files.{Files};
ghost use Rattle.sd_engine.specs.Stream.{packets_of};
ghost use Rattle.sd_law_broadcast.specs.Synced.{AreBytes};
ghost use Rattle.sd_law_field.specs.Fielded.{IsGoodField};
ghost use Rattle.sd_command_base.specs.Outside.{IoState};
ghost use Rattle.sd_command_base.specs.Results.{RunResult};
ghost use Rattle.sd_command_base.specs.Spec.{FileArgument, Readings};
ghost use Rattle.sd_command_line.specs.Words.{ApartOf, FieldOf, order_of};
ghost use Rattle.sd_run.specs.Meaning.{meaning};
ghost use Rattle.sd_law_run.specs.Fielded.{IsFielded, IsGoodFieldRun};
ghost use Rattle.sd_law_run.specs.Pairs.{IsApart};

use sd_command_base::Status;

/// If `apart` succeeds in a file system whose contents the model knows, its files were two sites and their books. For
/// the broadcasts of the two, whatever their clear streams are, the premises of the laws on several broadcasts are met:
/// they are of one master and one tree, no control word is of both, and in each period that both use their books revoke
/// the same leaves.
pub fn done_pairs_are_apart()
    ensures { (words : List Bytes) (site book other more : FileArgument) (files : Files) (a b : IoState) →
        order_of words ≡ Ok (ApartOf site book other more) → a.place.files ≡ Some files →
        RunResult (meaning words) a b Status.Done → IsApart words files a b }
{}

/// If `field` succeeds in a file system whose contents the model knows, its files were a site whose tree is low enough,
/// a clear stream and a script within their limits. If each number of the clear stream is a byte's, it printed exactly
/// the lines of what is confirmed to its receivers.
pub fn done_fields_had_good_files()
    ensures { (words : List Bytes) (site clear script : FileArgument) (files : Files) (a b : IoState) →
        order_of words ≡ Ok (FieldOf site clear script) → a.place.files ≡ Some files →
        RunResult (meaning words) a b Status.Done → IsFielded words files a b }
{}

/// What the files of a good run of `field` say is a good field, of which the laws on fields speak, if each number of
/// the clear stream is a byte's.
pub fn good_field_runs_are_good_fields()
    ensures { (words : List Bytes) (given : Readings) (good : IsGoodFieldRun words given) → AreBytes good.bytes →
        IsGoodField good.fields (packets_of good.bytes) good.events }
{}
