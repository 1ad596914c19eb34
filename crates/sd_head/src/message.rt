ghost use Rattle.std.specs.Prelude.{◌≡◌, ◌≤◌};
ghost use Rattle.sd_site_cards.specs.SiteFields.{site_fields_of};
ghost use Rattle.sd_spec.specs.Plan.{since_of};
ghost use Rattle.sd_head.specs.Messages.{head_of_ecm};

use crate::CryptoPeriod;
use sd_message::EcmHead;
use sd_site_cards::Site;

/// What the control message of this number says in a crypto period after so many clear packets, beside its positions
/// (this project, docs/FORMATS.md, Messages).
#[tactic(auto, unfolding(crate::specs::Messages::head_of_ecm))]
pub fn message_head(
    site: &Site,
    crypto: &CryptoPeriod,
    clear: u32,
    number: u32,
    closing: bool,
) -> EcmHead
    ensures { result ≡ head_of_ecm (site_fields_of site.now) crypto.now clear number closing }
{
    EcmHead {
        version: site.messages,
        number,
        period: crypto.period,
        word: crypto.number,
        clear,
        since: since(site.messages, site.cryptos, number),
        run: site.name(),
        closing,
        wrapped: crypto.wrapped,
        check: crypto.check,
    }
}

// The first message from which on all packets up to this one have one control word, and in version 1 the one before.
#[tactic(auto, using(crate::proofs::Telling::since_first, crate::proofs::Telling::since_later, crate::proofs::Telling::since_one))]
fn since(version: u8, cryptos: u32, number: u32) -> u32
    requires some { 1 ≤ cryptos }
    ensures { result ≡ since_of version cryptos number }
{
    if number == 0 {
        0
    } else if version > 1 {
        (number - 1) / cryptos * cryptos
    } else {
        number - 1
    }
}
