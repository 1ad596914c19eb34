use sd_base::NoMemory;
use sd_command_base::{Listing, cover_sets};
use sd_tree_keys::{Height, Leaf, SetName};
use std::alloc::Global;

/// The cover of each period, its sets by their names alone.
#[derive(Drop)]
pub(crate) struct Bare;

impl Listing for Bare {
    ghost use Rattle.sd_cover_tracing.specs.Cover.{cover_of};
    ghost use Rattle.sd_command_base.specs.Periods.{bare_end};

    ghost fits = { λ _ _. Unit {0} };

    ghost sets = { λ _ h revoked. cover_of h revoked };

    ghost ends = { λ _ _ name. bare_end name };

    fn listed(&self, alloc: Global, h: Height, revoked: &[Leaf]) -> Result<Vec<SetName>, NoMemory> {
        cover_sets(alloc, h, revoked)
    }

    fn end(&self, _h: Height, _name: SetName) -> &'static str {
        "\n"
    }
}
