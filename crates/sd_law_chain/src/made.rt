//! What the commands make of the file of a site of a chain: `next` and `twin` the next site, `head` its broadcast.

ghost use Rattle.std.specs.Prelude.{◌≡◌, ◌↔◌, ◌≤◌, ℕ, List, length, Some, Ok};
ghost use Rattle.sd_base.specs.Types.{Bytes};
ghost use Rattle.sd_site_cards.specs.Written.{is_first_site, none_fewer};
ghost use Rattle.sd_book.specs.declared.command.Command.{Command};
ghost use Rattle.sd_book.specs.Text.{book_of};
ghost use Rattle.sd_command_base.specs.Files.{most_book_bytes, own_book_of_file};
ghost use Rattle.sd_command_base.specs.Shown.{NumberArgument};
ghost use Rattle.sd_command_base.specs.Spec.{FileArgument, Readings};
ghost use Rattle.sd_command_base.specs.Work.{Work};
ghost use Rattle.sd_run_books.specs.Chain.{commands_said, line_of_book};
ghost use Rattle.sd_run_books.specs.Next.{next_meaning};
ghost use Rattle.sd_run_books.specs.Twin.{twin_meaning};
ghost use Rattle.sd_law_chain.specs.Chain.{IsLike, IsTaken, Link, Next, Twin};
ghost use Rattle.sd_law_chain.specs.Made.{IsFileOf, IsNewNext, work_made};

/// Suppose that SITE's file says a site and its book. Then `next` and `twin` make a file exactly if the call is taken
/// and
/// OUT is new and follows SITE, and the file is that of the site that the call makes from this one.
pub fn calls_make_the_next_site()
    ensures next { (link : Link) (site book out : FileArgument) (words : NumberArgument) (given : Readings)
        (text bytes : Bytes) → given site ≡ Some text → IsFileOf is_first_site link text → given book ≡ Some bytes →
        1 ≤ words.value →
        ((next_meaning site book words out given).result ≡ Ok (work_made link (Next bytes words.value) out)) ↔
        (IsTaken link (Next bytes words.value) × IsNewNext site out given) }
    ensures next_alone { (link : Link) (site book out : FileArgument) (words : NumberArgument) (given : Readings)
        (text bytes : Bytes) (work : Work) → given site ≡ Some text → IsFileOf is_first_site link text →
        given book ≡ Some bytes → 1 ≤ words.value → (next_meaning site book words out given).result ≡ Ok work →
        work ≡ work_made link (Next bytes words.value) out }
    ensures twin { (link : Link) (site out : FileArgument) (words : NumberArgument) (given : Readings) (text : Bytes) →
        given site ≡ Some text → IsFileOf none_fewer link text → 1 ≤ words.value →
        ((twin_meaning site words out given).result ≡ Ok (work_made link (Twin words.value) out)) ↔
        (IsTaken link (Twin words.value) × IsNewNext site out given) }
    ensures twin_alone { (link : Link) (site out : FileArgument) (words : NumberArgument) (given : Readings)
        (text : Bytes) (work : Work) → given site ≡ Some text → IsFileOf none_fewer link text → 1 ≤ words.value →
        (twin_meaning site words out given).result ≡ Ok work → work ≡ work_made link (Twin words.value) out }
{}

/// The book that `head` takes with the site of a link has the number of bytes and the digest of the link's book, and
/// its
/// commands are those that its lines say.
pub fn heads_take_the_book_of_the_site()
    ensures { (link : Link) (word : ℕ) (bytes : Bytes) (commands : List Command) →
        ((own_book_of_file word link.site.height (Some (line_of_book link.book)) (Some bytes)).result ≡ Ok commands) ↔
        ((length bytes ≤ most_book_bytes) × IsLike bytes link.book
        × (book_of link.site.height bytes ≡ Ok (commands_said bytes)) × (commands ≡ commands_said bytes)) }
{}
