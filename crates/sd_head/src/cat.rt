ghost use Rattle.std.specs.Prelude.{◌≡◌};
ghost use Rattle.sd_packet.specs.Packing.{section_packet};
ghost use Rattle.sd_psi.specs.OurCat.{cat_section};

use sd_message::pack;
use sd_packet::Packet;
use sd_psi::{CAT_HEADER, CAT_PID, Tuning, cat_descriptor};
use sd_site_cards::Site;

/// The packet of the site's CAT, with counter 0 (this project, docs/FORMATS.md, Tables).
#[tactic(auto, unfolding(sd_psi::specs::OurCat::cat_section))]
pub fn cat_packet(site: &Site) -> Packet
    ensures { result ≡ section_packet (cat_section site.now.ca site.now.emm site.now.ecm) 1 0 }
{
    let tuning = Tuning {
        emm: site.emm,
        ecm: site.ecm,
    };
    pack(&CAT_HEADER, &cat_descriptor(site.ca, tuning), CAT_PID, 0)
}
