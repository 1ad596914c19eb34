//! What is sent with the sites of a chain meets the premises of the laws on several broadcasts.

ghost use Rattle.std.specs.Prelude.{◌≡◌, ◌≢◌, ℕ, List, None, Some, All, slice_get};
ghost use Rattle.sd_law_broadcast.specs.Runs.{AllAgree, HaveOwnWords, IsRun};
ghost use Rattle.sd_law_broadcast.specs.Known.{AreOneTree};
ghost use Rattle.sd_run_books.specs.Apart.{plan_clash};
ghost use Rattle.sd_law_chain.specs.Chain.{IsTrueChain, Call, HaveOwnSites, IsChain, IsChainOnAir, Link, OnAir};
ghost use Rattle.sd_law_chain.specs.Chain.{chain_plan, runs_of};

/// `apart` takes each two broadcasts.
pub fn chains_are_apart()
    ensures { (root : Link) (calls : List Call) (airs : List OnAir) (i j : ℕ) (a b : OnAir) →
        IsTrueChain root calls airs → i ≢ j → slice_get airs i ≡ Some a → slice_get airs j ≡ Some b →
        plan_clash (chain_plan root calls a) (chain_plan root calls b) ≡ None }
{}

/// The broadcasts are runs of one master and one tree. If each site is for one broadcast, no two have a control word in
/// common. If the books are those of the sites and grew, they agree on the periods that broadcasts share.
pub fn chains_meet_the_premises()
    ensures runs { (root : Link) (calls : List Call) (airs : List OnAir) → IsChain root calls →
        All (IsChainOnAir root calls) airs → All (IsRun root.site.master) (runs_of root calls airs) }
    ensures tree { (root : Link) (calls : List Call) (airs : List OnAir) → IsChain root calls →
        All (IsChainOnAir root calls) airs → AreOneTree root.site.height (runs_of root calls airs) }
    ensures words { (root : Link) (calls : List Call) (airs : List OnAir) → IsChain root calls →
        All (IsChainOnAir root calls) airs → HaveOwnSites airs → HaveOwnWords (runs_of root calls airs) }
    ensures agree { (root : Link) (calls : List Call) (airs : List OnAir) → IsTrueChain root calls airs →
        AllAgree (runs_of root calls airs) }
{}
