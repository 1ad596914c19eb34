ghost use Rattle.std.specs.Prelude.{◌≡◌};
ghost use Rattle.sd_site_cards.specs.SiteFields.{site_fields_of, run_name_of};

use crate::site::{NAMING_MESSAGES, Site};

impl Site {
    /// The name that a run's messages tell: its first control word in version 3, and none in versions 1 and 2.
    #[tactic(auto, unfolding(crate::specs::SiteFields::run_name_of))]
    pub fn name(&self) -> Option<u32>
        ensures { result ≡ run_name_of (site_fields_of self.now) }
    {
        if self.messages == NAMING_MESSAGES {
            Some(self.first_word)
        } else {
            None
        }
    }
}
