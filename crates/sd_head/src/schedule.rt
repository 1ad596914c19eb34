ghost use Rattle.std.specs.Prelude.{◌≡◌, ◌-◌, ◌%◌, ◌^◌, ◌==◌, ◌<◌, true, IfOk, OnOk, OnErr};
ghost use Rattle.sd_site_cards.specs.SiteFields.{site_fields_of};
ghost use Rattle.sd_spec.specs.Plan.{crypto_length, crypto_of, word_of};
ghost use Rattle.sd_head.specs.Kept.{plan_of, IsPeriodState};
ghost use Rattle.sd_head.specs.Messages.{number_due};
ghost use Rattle.sd_head.specs.Schedule.{begins_with, IsPeriodAt};

use crate::Entitling;
use sd_base::{NoMemory, Steps};
use sd_site_cards::Site;
use std::sync::ledger::Ledger;

/// What stands before a packet.
#[derive(Clone, Copy)]
pub struct Inserted {
    /// The number of the message, if one stands there.
    pub message: Option<u32>,
    /// Whether a crypto period begins there.
    pub begins: bool,
}

/// Begins the crypto period that begins with packet k, if one does, and says what stands before the packet.
pub fn begin<L: Ledger>(
    entitling: &mut Entitling,
    site: &Site,
    k: u32,
    steps: &mut Steps<L>,
) -> Result<Inserted, NoMemory>
    requires at { IsPeriodAt (plan_of site.now entitling.old.book) k entitling.old }
    requires word { word_of (site_fields_of site.now) k < 2 ^ 32 }
    ensures book { entitling.new.book ≡ entitling.old.book }
    ensures value { OnOk result
        (IsPeriodState (plan_of site.now entitling.old.book) (crypto_of (site_fields_of site.now) k) entitling.new) }
    ensures message { IfOk result (λ inserted. inserted.message ≡ number_due (site_fields_of site.now) k) }
    ensures begins { IfOk result (λ inserted. inserted.begins ≡ (k % crypto_length (site_fields_of site.now) == 0)) }
    ensures fault { OnErr result (begins_with (plan_of site.now entitling.old.book) k ≡ true) }
{
    if k % site.every != 0 {
        return Ok(Inserted {
            message: None,
            begins: false,
        });
    }
    let number = k / site.every;
    let message = Some(number);
    if number % site.cryptos != 0 {
        return Ok(Inserted {
            message,
            begins: false,
        });
    }
    entitling.begin(site, number / site.cryptos, steps)?;
    Ok(Inserted {
        message,
        begins: true,
    })
}

/// Begins the first crypto period where the stream of so many packets ends with none.
pub fn finish<L: Ledger>(
    entitling: &mut Entitling,
    site: &Site,
    count: u32,
    steps: &mut Steps<L>,
) -> Result<(), NoMemory>
    requires { IsPeriodAt (plan_of site.now entitling.old.book) count entitling.old }
    ensures book { entitling.new.book ≡ entitling.old.book }
    ensures value { OnOk result
        (IsPeriodState (plan_of site.now entitling.old.book) (crypto_of (site_fields_of site.now) (count - 1))
        entitling.new) }
    ensures fault { OnErr result (count ≡ 0) }
{
    if count != 0 {
        return Ok(());
    }
    entitling.begin(site, 0, steps)
}
