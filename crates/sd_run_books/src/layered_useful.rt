use sd_base::NoMemory;
use sd_command_base::Listing;
use sd_cover_tracing::CoverFault;
use sd_lsd::{Width, layered_cover};
use sd_tree_keys::{HIGHEST, Height, Leaf, SetName};
use std::alloc::Global;

/// The cover by useful sets of each period, in layers of a width, its sets by their names alone.
#[derive(Drop)]
pub(crate) struct UsefulSets {
    pub(crate) width: Width,
}

impl Listing for UsefulSets {
    ghost use Rattle.std.specs.Prelude.{◌≤◌};
    ghost use Rattle.sd_lsd.specs.Cover.{layer_cover_of};
    ghost use Rattle.sd_command_base.specs.Periods.{bare_end};

    ghost fits = { λ x h. x.width ≤ h };

    ghost sets = { λ x h revoked. layer_cover_of h x.width revoked };

    ghost ends = { λ _ _ name. bare_end name };

    #[tactic(auto, using(crate::proofs::LayerCovers::cover_of_height))]
    fn listed(&self, alloc: Global, h: Height, revoked: &[Leaf]) -> Result<Vec<SetName>, NoMemory> {
        prove!(h.get() <= HIGHEST);
        prove!(1 <= self.width.get());
        match layered_cover(alloc, h, self.width, revoked) {
            Ok(sets) => Ok(sets),
            Err(CoverFault::NoMemory) => Err(NoMemory),
            Err(CoverFault::TooMany) => unreachable!(),
        }
    }

    fn end(&self, _h: Height, _name: SetName) -> &'static str {
        "\n"
    }
}
