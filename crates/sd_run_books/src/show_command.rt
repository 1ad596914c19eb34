//! `show CARD`: what a card's file is, without its keys.

ghost use Rattle.std.specs.Prelude.{ℕ, string_bytes};
ghost use Rattle.sd_command_base.specs.Outside.{depot_state, io_state_at};
ghost use Rattle.sd_command_base.specs.Reads.{JudgedOutcome, FileOutcome};
ghost use Rattle.sd_command_base.specs.Outcome.{Implements, status_of};
ghost use Rattle.sd_command_base.specs.Shown.{shown_word};
ghost use Rattle.sd_run_books.specs.Show.{line_of_file, show_meaning, told_show};

use crate::show_line::line_of;
use sd_command_base::{Status, Word, card_fault, print_text, read_card_bytes};
use sd_ports::{Depot, Sink};
use sd_site_cards::Card;
use std::alloc::Global;

/// Does `show CARD`.
#[inline(never)]
pub fn show<D: Depot, P: Sink>(
    alloc: Global,
    depot: &mut D,
    print: &mut P,
    card: Word<'_>,
) -> Result<(), Status>
    ensures { (steps : ℕ) → Implements (show_meaning (shown_word card.entry))
        (io_state_at D.Depot P.Sink depot.old print.old steps)
        (io_state_at D.Depot P.Sink depot.new print.new steps) (status_of result) }
{
    let line = read_line(alloc, depot, card)?;
    print_text(print, line.as_bytes())
}

/// The line of the card in the word's file.
fn read_line<D: Depot>(alloc: Global, depot: &mut D, word: Word<'_>) -> Result<String, Status>
    ensures { FileOutcome (λ line. string_bytes line) (line_of_file word.entry.number) word.entry.text.now
        (depot_state D.Depot depot.old) (depot_state D.Depot depot.new) result }
{
    let bytes = read_card_bytes(alloc, depot, word)?;
    judge_card(alloc, word.number, &bytes)
}

/// The line of the card that the bytes of this word's file are.
fn judge_card(alloc: Global, word: u8, bytes: &[u8]) -> Result<String, Status>
    ensures { JudgedOutcome (λ line. string_bytes line) (told_show word bytes.now) result }
{
    match Card::read(alloc, bytes) {
        Ok(card) => Ok(line_of(alloc, &card, bytes)?),
        Err(fault) => Err(card_fault(word, fault)),
    }
}
