//! Good arguments and good files mean work. `run` does that work if no I/O error occurs and memory suffices.
ghost use Rattle.std.specs.Prelude.{◌≡◌, ◌⊎◌, ◌≤◌, ◌<◌, ◌^◌, ◌++◌, ℕ, List, [], Some, None, Ok, Err, length};
ghost use Rattle.sd_book.specs.Text.{text_of_book};
ghost use Rattle.sd_lsd.specs.Fields.{layer_bytes, layer_card_of};
ghost use Rattle.sd_run_books.specs.AccountsCommand.{accounts_value, making_then, accounts_line};
ghost use Rattle.sd_run_books.specs.Apart.{apart_text, plan_clash};
ghost use Rattle.sd_run_books.specs.Layered.{layering};
ghost use Rattle.sd_cover_tracing.specs.Trace.{trace_of};
ghost use Rattle.sd_run_books.specs.Opens.{opening};
ghost use Rattle.sd_run_books.specs.Trace.{revoked_last, trace_text};
ghost use Rattle.sd_law_field.specs.Trials.{opened_lines};
ghost use Rattle.sd_command_base.specs.Printed.{printing};
ghost use Rattle.sd_run_broadcasts.specs.Trial.{trial_meaning};
ghost use Rattle.sd_run_books.specs.Air.{planning};
ghost use Rattle.sd_law_run.specs.Good.{IsGoodApart, IsGoodPlan};
ghost use Rattle.sd_law_run.specs.Good.{IsGoodAccounts, IsGoodBooks, IsGoodLayered, IsGoodLcard, IsGoodOpens};
ghost use Rattle.sd_law_run.specs.Good.{IsGoodTrace, IsGoodBook, IsGoodNext, IsGoodTwin, origin_told};
ghost use Rattle.sd_book.specs.Limits.{IsWithinLimits};
ghost use Rattle.sd_law_run.specs.Left.{HasMark, HasOut, IsAsBefore};
ghost use Rattle.sd_engine.specs.Stream.{packets_of};
ghost use Rattle.sd_law_field.specs.Fielded.{confirmed_lines};
ghost use Rattle.sd_law_run.specs.Fielded.{IsGoodFieldRun};
ghost use Rattle.sd_law_run.specs.Tried.{IsGoodTrial, IsTried, plan_tried};
ghost use Rattle.sd_book.specs.Commands.{revoked};
ghost use Rattle.sd_book.specs.declared.command.Command.{Command};
ghost use Rattle.sd_cover_tracing.specs.Cover.{cover_of};
ghost use Rattle.sd_cover_tracing.specs.Partition.{IsPartition, IsSmall};
ghost use Rattle.sd_tree_keys.specs.Leaves.{unrevoked};
ghost use Rattle.sd_site_cards.specs.CardFields.{card_bytes, card_of, site_card};
ghost use Rattle.sd_ports.specs.Files.{Files};
ghost use Rattle.sd_engine.specs.Sample.{sample_of};
ghost use Rattle.sd_command_base.specs.declared.status.Clash.{Clash as ClashKind};
ghost use Rattle.sd_command_base.specs.declared.status.Status.TheVariants.{Clash};
ghost use Rattle.sd_command_base.specs.Results.{RunResult};
ghost use Rattle.sd_command_base.specs.Spec.{FileArgument, contents_of};
ghost use Rattle.sd_command_base.specs.Outside.{IoState};
ghost use Rattle.sd_command_base.specs.Work.{NoSteps, Uncounted, Work, work_of_text};
ghost use Rattle.sd_run_books.specs.Cover.{covering};
ghost use Rattle.sd_law_run.specs.Good.{IsGoodCover, IsGoodCard, IsGoodSample, IsGoodTables, plan_told, IsGoodHead};
ghost use Rattle.sd_command_base.specs.Made.{making, new_work};
ghost use Rattle.sd_site_cards.specs.Chain.{twin_site};
ghost use Rattle.sd_site_cards.specs.Written.{site_text};
ghost use Rattle.sd_run_books.specs.Next.{next_made};
ghost use Rattle.sd_run_streams.specs.Messages.{monitoring};
ghost use Rattle.sd_run_books.specs.Fingerprint.{fingerprint_in, fingerprint_of};
ghost use Rattle.sd_run_books.specs.Show.{shown_line, told_show};
ghost use Rattle.sd_site_cards.specs.Files.{check_in};
ghost use Rattle.sd_law_run.specs.Good.{IsGoodMessages, IsGoodShow};
ghost use Rattle.sd_run_streams.specs.Tables.{inspecting};
ghost use Rattle.std.specs.List.{concat};
ghost use Rattle.sd_base.specs.Types.{Bytes, Packets, SystemId, Key, Height, LeafNumber, PeriodNumber};
ghost use Rattle.sd_engine.specs.Taken.{packets_taken};
ghost use Rattle.sd_spec.specs.Sent.{broadcast};
ghost use Rattle.sd_run_broadcasts.specs.Head.{sending, sent_of, sent_status};
ghost use Rattle.sd_run.specs.Meaning.{meaning};
ghost use Rattle.sd_spec.specs.Plan.{Plan, IsPlan};
ghost use Rattle.sd_spec.specs.Refused.{IsSendable};
ghost use Rattle.sd_law_broadcast.specs.Packets.{AreWholePackets};
ghost use Rattle.sd_law_broadcast.specs.Synced.{AreBytes};
ghost use Rattle.sd_run_broadcasts.specs.Receive.{receiving};
ghost use Rattle.sd_law_run.specs.Good.{IsGoodReceive};
ghost use Rattle.sd_law_run.specs.Opened.{IsBroadcastTo, IsReceivedOut};

use sd_command_base::Status;

/// `cover SITE BOOK` over a site and a book prints the sets of each period.
pub fn good_covers_are_printed()
    ensures { (words : List Bytes) (files : Files) (good : IsGoodCover words (contents_of files)) →
        (meaning words (contents_of files)).result ≡ Ok (covering good.fields.height good.commands) }
{}

/// `card SITE LEAF OUT` over a site with the leaf makes its card.
#[tactic(auto, using(crate::proofs::Goodness::card_good))]
pub fn good_cards_are_made()
    ensures { (words : List Bytes) (files : Files) (good : IsGoodCard words (contents_of files)) →
        (meaning words (contents_of files)).result ≡ Ok (making Uncounted good.out
        (card_bytes (site_card good.fields good.leaf.value))) }
{}

/// `sample NUMBER PACKETS OUT` makes the sample stream.
#[tactic(auto, using(crate::proofs::Goodness::sample_good))]
pub fn samples_are_made()
    ensures { (words : List Bytes) (files : Files) (good : IsGoodSample words) →
        (meaning words (contents_of files)).result ≡ Ok (making NoSteps good.out (sample_of good.number good.packets)) }
{}

/// `tables STREAM` over a stream of packets prints the lines of its tables, and is done.
#[tactic(auto, using(crate::proofs::Goodness::tables_good))]
pub fn good_tables_are_printed()
    ensures { (words : List Bytes) (files : Files) (good : IsGoodTables words (contents_of files)) →
        ((meaning words (contents_of files)).result ≡ Ok (inspecting good.bytes))
        × ((inspecting good.bytes).ends ≡ Status.Done) }
{}

/// `messages SITE STREAM` over a site and a stream of packets prints the lines of its messages, and is done.
#[tactic(auto, using(crate::proofs::Monitors::messages_good))]
pub fn good_messages_are_printed()
    ensures { (words : List Bytes) (files : Files) (good : IsGoodMessages words (contents_of files)) →
        ((meaning words (contents_of files)).result ≡ Ok (monitoring good.fields good.bytes))
        × ((monitoring good.fields good.bytes).ends ≡ Status.Done) }
{}

/// `show CARD` over a card prints its line: its height, leaf and system, the check at the end of its file, and the
/// fingerprint that its first secret gives.
#[tactic(auto, using(crate::proofs::Monitors::show_good))]
pub fn good_cards_are_shown()
    ensures { (words : List Bytes) (files : Files) (good : IsGoodShow words (contents_of files)) →
        (meaning words (contents_of files)).result ≡ Ok (work_of_text (shown_line good.fields.height good.fields.leaf
        good.fields.ca (check_in (card_bytes good.fields)) (fingerprint_in (card_bytes good.fields)))) }
{}

/// The line of the card of a leaf names the leaf, the tree's height and the system that the card was made for, and has
/// the fingerprint of the master that it was made of.
#[tactic(auto, using(crate::proofs::Monitors::made_shown))]
pub fn made_cards_are_shown()
    ensures { (word : ℕ) (master : Key) (ca : SystemId) (d : Height) (u : LeafNumber) → ca < 2 ^ 16 → 1 ≤ d → d ≤ 20 →
        u < 2 ^ d → told_show word (card_bytes (card_of master ca d u))
        ≡ Ok (shown_line d u ca (check_in (card_bytes (card_of master ca d u))) (fingerprint_of master)) }
{}

/// `head SITE BOOK CLEAR OUT` over a site, a book and a clear stream makes its broadcast, and is done.
pub fn good_streams_are_broadcast()
    ensures { (words : List Bytes) (files : Files) (good : IsGoodHead words (contents_of files)) →
        ((meaning words (contents_of files)).result ≡ Ok (sending (plan_told good) good.out good.bytes))
        × (concat (broadcast (plan_told good) (packets_taken good.bytes)) ≡ sent_of (plan_told good) good.bytes)
        × (Status.Done ≡ sent_status (plan_told good) good.bytes) }
{}

/// `accounts SITE ACCOUNTS OUT` over a site and accounts makes the book that their lines make, and reports them.
#[tactic(auto, using(crate::proofs::Kept::accounts_kept))]
pub fn good_accounts_are_kept()
    ensures { (words : List Bytes) (files : Files) (good : IsGoodAccounts words (contents_of files)) →
        (meaning words (contents_of files)).result ≡ Ok (making_then good.out (text_of_book good.commands)
        (accounts_line (accounts_value good.fields.height good.bytes good.commands))) }
{}

/// `book SITE BOOK COMMANDS OUT` over a site and two books makes the book of the first's commands and then the
/// second's.
#[tactic(auto, using(crate::proofs::Kept::books_joined))]
pub fn good_books_are_joined()
    ensures { (words : List Bytes) (files : Files) (good : IsGoodBooks words (contents_of files)) →
        (meaning words (contents_of files)).result
        ≡ Ok (making NoSteps good.out (text_of_book (good.before ++ good.added))) }
{}

/// The book that `accounts` or `book` makes is one that each other command reads, as the same commands.
#[tactic(auto, using(crate::proofs::Goodness::made_good))]
pub fn made_books_are_read()
    ensures { (d : Height) (commands : List Command) → d ≤ 20 → IsWithinLimits d commands →
        IsGoodBook (Some (text_of_book commands)) d commands }
{}

/// `layered SITE BOOK WIDTH` over a site and a book prints the useful sets of each period.
#[tactic(auto, using(crate::proofs::Layers::layered_good))]
pub fn good_layers_are_printed()
    ensures { (words : List Bytes) (files : Files) (good : IsGoodLayered words (contents_of files)) →
        (meaning words (contents_of files)).result ≡ Ok (layering good.fields.height good.width.value good.commands) }
{}

/// `plan SITE BOOK PACKETS PIDS` over a site that has a control word for each packet, and a book, prints what the
/// broadcast takes.
#[tactic(auto, using(crate::proofs::Operators::air_good))]
pub fn good_plans_are_printed()
    ensures { (words : List Bytes) (files : Files) (good : IsGoodPlan words (contents_of files)) →
        (meaning words (contents_of files)).result ≡ Ok (planning
        (record { site = good.fields; commands = good.commands }) good.packets.value good.pids.value) }
{}

/// `apart SITE BOOK SITE BOOK` with two sites and their books prints both lines if the two don't clash, and is refused
/// with their clash if they do.
#[tactic(auto, using(crate::proofs::Operators::apart_good, crate::proofs::Operators::apart_clashes))]
pub fn good_sites_are_judged()
    ensures apart { (words : List Bytes) (files : Files) (good : IsGoodApart words (contents_of files)) →
        plan_clash (record { site = good.fields; commands = good.commands })
        (record { site = good.other_fields; commands = good.more_commands }) ≡ None →
        (meaning words (contents_of files)).result ≡ Ok (work_of_text (apart_text
        (record { site = good.fields; commands = good.commands })
        (record { site = good.other_fields; commands = good.more_commands }))) }
    ensures clash { (words : List Bytes) (files : Files) (good : IsGoodApart words (contents_of files))
        (clash : ClashKind) →
        plan_clash (record { site = good.fields; commands = good.commands })
        (record { site = good.other_fields; commands = good.more_commands }) ≡ Some clash →
        (meaning words (contents_of files)).result ≡ Err (Clash clash) }
{}

/// `next SITE BOOK WORDS OUT` over a site of the chain's end and a book that begins with its own makes the next site,
/// and prints its periods.
#[tactic(auto, using(crate::proofs::Chained::next_good))]
pub fn good_nexts_are_made()
    ensures { (words : List Bytes) (files : Files) (good : IsGoodNext words (contents_of files)) →
        (meaning words (contents_of files)).result
        ≡ Ok (new_work (next_made (origin_told good) good.count.value) good.out) }
{}

/// `twin SITE WORDS OUT` over a site of thirteen lines makes the site of a broadcast at the same time.
#[tactic(auto, using(crate::proofs::Chained::twin_good))]
pub fn good_twins_are_made()
    ensures { (words : List Bytes) (files : Files) (good : IsGoodTwin words (contents_of files)) →
        (meaning words (contents_of files)).result ≡ Ok (new_work
        (record { bytes = site_text (twin_site good.count.value good.fields) good.line; pieces = [] }) good.out) }
{}

/// `lcard SITE LEAF WIDTH OUT` over a site with the leaf makes its layer card.
#[tactic(auto, using(crate::proofs::Layers::lcard_good))]
pub fn good_layer_cards_are_made()
    ensures { (words : List Bytes) (files : Files) (good : IsGoodLcard words (contents_of files)) →
        (meaning words (contents_of files)).result ≡ Ok (making Uncounted good.out (layer_bytes
        (layer_card_of good.fields.master good.fields.ca good.fields.height good.width.value good.leaf.value))) }
{}

/// `opens SITE BOOK LEAVES` over good files prints the sets of each period, and which of them the leaves' cards open.
#[tactic(auto, using(crate::proofs::Pooled::opens_good))]
pub fn good_pools_are_printed()
    ensures { (words : List Bytes) (files : Files) (good : IsGoodOpens words (contents_of files)) →
        (meaning words (contents_of files)).result ≡ Ok (opening good.fields.height good.pooled good.commands) }
{}

/// `trace SITE BOOK LEAVES` over good files prints the trace of a box with the leaves' cards in the last period.
#[tactic(auto, using(crate::proofs::Pooled::trace_good))]
pub fn good_traces_are_printed()
    ensures { (words : List Bytes) (files : Files) (good : IsGoodTrace words (contents_of files)) →
        (meaning words (contents_of files)).result ≡ Ok (work_of_text (trace_text
        (trace_of good.fields.height good.coalition (revoked_last good.fields.height good.commands)))) }
{}

/// `trial SITE BOOK CLEAR` over a good site, a good book and a clear stream prints the lines of what is opened.
#[tactic(auto, using(crate::proofs::Tried::trial_good))]
pub fn good_trials_are_printed()
    ensures { (words : List Bytes) (files : Files) (good : IsGoodTrial words (contents_of files)) →
        (meaning words (contents_of files)).result ≡ Ok (printing (Ok
        (opened_lines (plan_tried good) (packets_taken good.bytes) (2 ^ good.fields.height)))) }
{}

/// `field SITE CLEAR SCRIPT` over a good site, a clear stream and a script prints the lines of what is confirmed to its
/// receivers.
#[tactic(auto, using(crate::proofs::Fielded::field_good))]
pub fn good_fields_are_printed()
    ensures { (words : List Bytes) (files : Files) (good : IsGoodFieldRun words (contents_of files)) →
        AreBytes good.bytes →
        (meaning words (contents_of files)).result ≡ Ok (printing (Ok
        (confirmed_lines good.fields (packets_of good.bytes) good.events (2 ^ good.fields.height)))) }
{}

/// If `trial` succeeds in a file system whose contents the model knows, its files were a good site, a good book and a
/// clear stream. It printed exactly the lines of what is opened.
#[tactic(auto, using(crate::proofs::Trials::trial_tried))]
pub fn done_trials_had_good_files()
    ensures { (site book clear : FileArgument) (files : Files) (a b : IoState) → a.place.files ≡ Some files →
        RunResult (trial_meaning site book clear) a b Status.Done → IsTried site book clear files a b }
{}

/// After a run in a file system whose contents the model knows, whatever its answer, one of three things holds. All
/// files are as they were, and none was made. Or the mark of the work that the arguments and files mean, which only
/// `air` has, was made new and empty. Or OUT of the work was made, with a prefix of its due contents, after the mark if
/// there is one. All other files are as they were.
pub fn no_file_changes_but_out()
    ensures { (words : List Bytes) (files : Files) (a b : IoState) (answer : Status) →
        a.place.files ≡ Some files → RunResult (meaning words) a b answer →
        IsAsBefore files a.place b.place
        ⊎ (HasMark files (meaning words (contents_of files)).result a.place b.place
        ⊎ HasOut files (meaning words (contents_of files)).result a.place b.place) }
{}

/// The sets of a period are disjoint and unite to exactly the leaves that aren't revoked in it. It is one set if none
/// is revoked, and at most 2r - 1 sets if r > 0 are [Naor, Naor, Lotspiech 2001, 3.2].
pub fn printed_sets_unite()
    ensures { (d : Height) (q : PeriodNumber) (commands : List Command) → d ≤ 20 →
        IsPartition d (cover_of d (revoked d commands q)) (unrevoked d (revoked d commands q))
        × IsSmall (cover_of d (revoked d commands q)) (length (revoked d commands q)) }
{}

/// `receive CARD STREAM OUT` over a card and any stream makes what the card opens of it, and ends as the stream does.
#[tactic(auto, using(crate::proofs::Broadcasts::receive_good))]
pub fn streams_are_received()
    ensures { (words : List Bytes) (files : Files) (good : IsGoodReceive words (contents_of files)) →
        (meaning words (contents_of files)).result ≡ Ok (receiving good.fields good.out good.bytes) }
{}

/// Take any broadcast, of any site, book within the limits and clear packets that can be sent. `receive` with the card
/// of a leaf writes exactly the clear packets of the periods in which the leaf isn't revoked. It ends as done, or as
/// revoked in the first of the broadcast's periods in which the leaf is. For each period in which the leaf isn't
/// revoked it takes at most as many steps of the generator as the tree is high, and no others.
#[tactic(auto, using(crate::proofs::Broadcasts::broadcast_opened))]
pub fn broadcasts_are_opened_by_the_entitled()
    ensures { (plan : Plan) (u : LeafNumber) (clear : Packets) (words : List Bytes) (files : Files) → IsPlan plan →
        IsSendable plan.site clear → AreWholePackets clear → u < 2 ^ plan.site.height →
        (sent : IsBroadcastTo plan u clear words (contents_of files)) →
        (work : Work) × ((meaning words (contents_of files)).result ≡ Ok work) ×
        IsReceivedOut plan u clear sent.out work }
{}
