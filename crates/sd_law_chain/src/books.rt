//! Books that only grow, unless two texts that were compared are a collision of SHA-256.

ghost use Rattle.std.specs.Prelude.{◌≡◌, ◌⊎◌, ◌≤◌, ◌++◌, List, All, Contains};
ghost use Rattle.sd_base.specs.Types.{Bytes};
ghost use Rattle.sd_ports.specs.Bytes.{IsPrefix};
ghost use Rattle.sd_run_books.specs.Chain.{commands_said};
ghost use Rattle.sd_law_chain.specs.Chain.{IsTrueChain, AreTrue, Call, Collides, EndsLines, HaveOwnSites, IsChain};
ghost use Rattle.sd_law_chain.specs.Chain.{IsChainOnAir};
ghost use Rattle.sd_law_chain.specs.Chain.{Link, OnAir};

/// What is appended to a text that is empty or ends with a line feed appends to its commands.
#[tactic(auto, using(crate::proofs::Lines::commands_joined))]
pub fn lines_grow()
    ensures { (a b : Bytes) → EndsLines a → commands_said (a ++ b) ≡ commands_said a ++ commands_said b }
{}

/// One of the pairs that were compared is a collision, or each text that was compared is the one that it was to be:
/// then each broadcast's book begins with the books of the broadcasts of earlier sites. Nothing is asked of SHA-256.
pub fn books_grow()
    ensures { (root : Link) (calls : List Call) (airs : List OnAir) → IsChain root calls →
        All (IsChainOnAir root calls) airs → Collides root calls airs
        ⊎ (AreTrue root calls airs × ((a b : OnAir) → Contains airs a → Contains airs b → a.number ≤ b.number →
        IsPrefix a.book b.book)) }
{}

/// One of the pairs that were compared is a collision, or the chain is kept, if each site is for one broadcast.
pub fn chains_with_books_are_kept()
    ensures { (root : Link) (calls : List Call) (airs : List OnAir) → IsChain root calls →
        All (IsChainOnAir root calls) airs → HaveOwnSites airs →
        Collides root calls airs ⊎ IsTrueChain root calls airs }
{}
