//! Sites that `next` and `twin` make one after the other.

ghost use Rattle.std.specs.Prelude.{◌≡◌, ◌+◌, ◌<◌, ◌≤◌, ℕ, List, Some, length, slice_get};
ghost use Rattle.sd_base.specs.Types.{Bytes};
ghost use Rattle.sd_site_cards.specs.Written.{IsSayable};
ghost use Rattle.sd_law_broadcast.specs.Runs.{HasWords};
ghost use Rattle.sd_run_books.specs.Chain.{line_of_book};
ghost use Rattle.sd_law_chain.specs.Chain.{AreOneSet, Call, IsChain, IsNextAt, Link, chain_book, site_at, words_asked};

/// Control words rise from site to site, with none between, and each call gives its site as many as were asked for.
/// First periods never fall, and rise at each `next`. All sites are of one tree, one master and one channel, and a file
/// can say each.
pub fn chains_rise()
    ensures words { (root : Link) (calls : List Call) (i j : ℕ) → IsChain root calls → i < j → j ≤ length calls →
        (site_at root calls i).last_word < (site_at root calls j).first_word }
    ensures follow { (root : Link) (calls : List Call) (n : ℕ) → IsChain root calls → n < length calls →
        (site_at root calls (n + 1)).first_word ≡ (site_at root calls n).last_word + 1 }
    ensures some { (root : Link) (calls : List Call) (j : ℕ) → IsChain root calls → 1 ≤ j → j ≤ length calls →
        HasWords (site_at root calls j) }
    ensures count { (root : Link) (calls : List Call) (n : ℕ) (call : Call) → IsChain root calls →
        slice_get calls n ≡ Some call → (site_at root calls (n + 1)).last_word + 1
        ≡ (site_at root calls (n + 1)).first_word + words_asked call }
    ensures periods { (root : Link) (calls : List Call) (i j : ℕ) → IsChain root calls → i ≤ j → j ≤ length calls →
        (site_at root calls i).first_period ≤ (site_at root calls j).first_period }
    ensures next { (root : Link) (calls : List Call) (i n j : ℕ) (bytes : Bytes) → IsChain root calls → i < n → n ≤ j →
        j ≤ length calls → IsNextAt calls n bytes →
        (site_at root calls i).first_period < (site_at root calls j).first_period }
    ensures set { (root : Link) (calls : List Call) (j : ℕ) → IsChain root calls → j ≤ length calls →
        AreOneSet root.site (site_at root calls j) }
    ensures messages { (root : Link) (calls : List Call) (j : ℕ) → IsChain root calls → 1 ≤ j → j ≤ length calls →
        (site_at root calls j).messages ≡ 3 }
    ensures sayable { (root : Link) (calls : List Call) (j : ℕ) → IsChain root calls → j ≤ length calls →
        IsSayable (site_at root calls j) (line_of_book (chain_book root calls j)) }
{}
