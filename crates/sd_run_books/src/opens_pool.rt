use sd_base::NoMemory;
use sd_command_base::{Listing, cover_sets};
use sd_cover_tracing::opens;
use sd_tree_keys::{Height, Leaf, SetName};
use std::alloc::Global;

/// The cover of each period, and of each of its sets whether the pooled cards of these leaves open it.
#[derive(Drop)]
pub(crate) struct Pool {
    pub(crate) leaves: Vec<Leaf>,
}

impl Listing for Pool {
    ghost use Rattle.std.specs.Prelude.{◌^◌, ◌<◌, All};
    ghost use Rattle.sd_cover_tracing.specs.Cover.{cover_of};
    ghost use Rattle.sd_run_books.specs.Opens.{pool_end};

    ghost fits = { λ x h. All (λ u. u < 2 ^ h) x.leaves.items };

    ghost sets = { λ _ h revoked. cover_of h revoked };

    ghost ends = { λ x h name. pool_end h x.leaves.items name };

    fn listed(&self, alloc: Global, h: Height, revoked: &[Leaf]) -> Result<Vec<SetName>, NoMemory> {
        cover_sets(alloc, h, revoked)
    }

    fn end(&self, h: Height, name: SetName) -> &'static str {
        if opens(h, &self.leaves, name) {
            " open\n"
        } else {
            " shut\n"
        }
    }
}
