ghost use Rattle.std.specs.Prelude.{◌≡◌};
ghost use Rattle.sd_command_base.specs.Exits.{code_of};

use crate::{BadLine, Excerpt, StreamRefusal};
use sd_base::NoMemory;
use sd_book::BookLimit;
use sd_message::{ClearFault, StreamFault};
use sd_site_cards::{CardFault, SiteFault};
use std::alloc::AllocError;

/// The outcome of a run of the program (docs/FORMATS.md, Exits). Arguments are numbered from 0, the command.
#[derive(Clone, Copy)]
pub enum Status {
    /// Exit 0: the work is done. The command's text is printed and its file made.
    Done,
    /// Exit 1: unknown command, wrong number of arguments, text not in UTF-8, or OUT is an input.
    Usage,
    /// Exit 2: the file that this argument names does not exist; for OUT, its folder does not exist.
    Missing(u8),
    /// Exit 3: the receiver is revoked in this period, the first such period of which it heard. The stream is closed.
    Revoked {
        leaf: u32,
        period: u32,
    },
    /// Exit 4: an I/O error at a file.
    DepotFault,
    /// Exit 5: an I/O error while printing.
    PrintFault,
    /// Exit 6: the site file that this argument names is refused. The text is that of the line that the fault names.
    BadSite {
        word: u8,
        fault: SiteFault,
        text: Excerpt,
    },
    /// Exit 7: this line of the file that this argument names is refused, the first such line.
    BadBook {
        word: u8,
        line: BadLine,
    },
    /// Exit 8: the card's file that this argument names is refused.
    BadCard {
        word: u8,
        fault: CardFault,
    },
    /// Exit 9: a packet of the clear stream is refused.
    BadClear(StreamRefusal<ClearFault>),
    /// Exit 10: a packet of the stream is refused.
    BadStream(StreamRefusal<StreamFault>),
    /// Exit 11: a limit is exceeded.
    Limit(LimitKind),
    /// Exit 12: out of memory.
    NoMemory,
    /// Exit 13: the receiver did not hear its entitlement for this period. The stream is closed, some section of the
    /// period was never seen, and no section that was seen entitles the leaf.
    Unheard {
        leaf: u32,
        period: u32,
    },
    /// Exit 14: the stream ends before its closing ECM is complete. This is the number of the next ECM awaited.
    Unclosed(u64),
    /// Exit 15: this number of clear packets is missing from OUT, of those that the closing ECM counts. The stream is
    /// closed.
    Gaps(u64),
    /// Exit 16: the stream has no CAT for this card.
    NoCat,
    /// Exit 17: this argument is not a decimal number, or is out of range.
    BadWord(u8),
    /// Exit 18: two broadcasts must not share one set of cards.
    Clash(Clash),
    /// Exit 19: this argument must not be OUT. Nothing is made.
    BadOut {
        word: u8,
        cause: OutCause,
    },
    /// Exit 20: a run of `air` used the site: the file with its name and `.used` is there. Nothing is made.
    SiteUsed,
    /// Exit 21: BOOK is not the book of the site's line 13, or does not begin with it.
    OtherBook,
    /// Exit 22: no number or no control word of the site is left for this packet of the clear stream. OUT has the
    /// broadcast of the packets before it, with its closing message.
    SiteUsedUp(u64),
}

impl Status {
    /// The program's exit status.
    pub fn code(self) -> u8
        ensures { result ≡ code_of self }
    {
        match self {
            Status::Done => 0,
            Status::Usage => 1,
            Status::Missing(_) => 2,
            Status::Revoked { .. } => 3,
            Status::DepotFault => 4,
            Status::PrintFault => 5,
            Status::BadSite { .. } => 6,
            Status::BadBook { .. } => 7,
            Status::BadCard { .. } => 8,
            Status::BadClear(_) => 9,
            Status::BadStream(_) => 10,
            Status::Limit(_) => 11,
            Status::NoMemory => 12,
            Status::Unheard { .. } => 13,
            Status::Unclosed(_) => 14,
            Status::Gaps(_) => 15,
            Status::NoCat => 16,
            Status::BadWord(_) => 17,
            Status::Clash(_) => 18,
            Status::BadOut { .. } => 19,
            Status::SiteUsed => 20,
            Status::OtherBook => 21,
            Status::SiteUsedUp(_) => 22,
        }
    }
}

/// What is over its limit.
#[derive(Clone, Copy)]
pub enum LimitKind {
    /// A site file has at most 4,096 bytes.
    SiteBytes,
    /// A book file has at most 33,554,432 bytes.
    BookBytes,
    /// A card's file has at most 8,192 bytes.
    CardBytes,
    /// A limit of a book.
    Book(BookLimit),
    /// A site's tree may be at most 6 high for a trial.
    TrialHeight,
    /// A clear stream may have at most 65,536 packets for a trial.
    TrialPackets,
    /// At most 65,536 leaves may be revoked while leaves are traced.
    Traced,
    /// A site's tree may be at most 6 high for a field.
    FieldHeight,
    /// A clear stream may have at most 3,080,192 bytes, those of 16,384 packets, for a field.
    FieldPackets,
    /// A field's script may have at most 524,288 events.
    FieldEvents,
}

/// Why two broadcasts may not go out under one set of cards. Sites are numbered from 1.
#[derive(Clone, Copy)]
pub enum Clash {
    /// Their trees have two heights.
    Heights,
    /// They have two masters.
    Masters,
    /// This site's range of control words is empty.
    NoWords(u8),
    /// This is the least control word that both ranges have.
    SharedWord(u32),
    /// In this period, the first of both in which their books disagree, this leaf is the least that one book revokes
    /// and the other doesn't.
    Books { leaf: u32, period: u32 },
}

/// Why an argument must not be OUT, the site that is made of a site.
#[derive(Clone, Copy)]
pub enum OutCause {
    /// A file, link or folder has its name already.
    There,
    /// Its name is not that of SITE with the last number one higher.
    Name,
}

impl From<NoMemory> for Status {
    ghost use Rattle.std.specs.Prelude.{◌≡◌};
    ghost use Rattle.sd_command_base.specs.declared.status.Status.TheVariants as variants;

    ghost from_gives = { λ _ status. status ≡ variants.NoMemory };

    fn from(_fault: NoMemory) -> Status {
        Status::NoMemory
    }
}

impl From<AllocError> for Status {
    ghost use Rattle.std.specs.Prelude.{◌≡◌};
    ghost use Rattle.sd_command_base.specs.declared.status.Status.TheVariants as variants;

    ghost from_gives = { λ _ status. status ≡ variants.NoMemory };

    fn from(_error: AllocError) -> Status {
        Status::NoMemory
    }
}
