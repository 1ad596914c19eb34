//! One section of a period: it is judged, and then kept.

ghost use Rattle.std.specs.Prelude.{◌≡◌, ◌+◌, ◌≤◌, ◌<◌, ◌==◌, ◌∷◌, false, List, None, OnOk, is_some, if◌then◌else◌, ℕ};
ghost use Rattle.std.specs.Prelude.{Option, IsNone, option_map};
ghost use Rattle.sd_message.specs.EmmForm.{IsEmm, AreSets};
ghost use Rattle.sd_message.specs.EmmSpelled.{listed_entries};
ghost use Rattle.sd_site_cards.specs.CardFields.{CardFields, card_fields_of};
ghost use Rattle.sd_spec.specs.Heard.{Heard, Entitles};
ghost use Rattle.sd_spec.specs.Stretches.{current, sections_seen};
ghost use Rattle.sd_spec.specs.Keys.{first_key, key_from, key_at};
ghost use Rattle.sd_spec.specs.Offered.{emm_offering, is_mixed, key_offering};
ghost use Rattle.sd_spec.specs.Taken.{takes_key};
ghost use Rattle.sd_message.specs.declared.emm_format.TheConstants.{MOST_ENTRIES};
ghost use Rattle.sd_cipher.specs.Wrapping.{wrapped};
ghost use Rattle.sd_receive.specs.PeriodKeys.{IsEntitled, IsStateAt, IsEmmJudged, HasFault, is_said_otherwise};
ghost use Rattle.sd_receive.specs.PeriodKeys.{key_kept};
ghost use Rattle.sd_receive.specs.PeriodKeys.{with_key};

use crate::emm::PeriodKeys;
use crate::emm::header::PeriodHeader;
use sd_base::Steps;
use sd_cipher::unwrap_checked;
use sd_message::{Emm, EmmFault, StreamFault};
use sd_site_cards::Card;
use std::sync::ledger::Ledger;

impl PeriodKeys {
    /// Judges a section of entitlements, packet `number` of the stream, and puts the key of its period in place of
    /// `key`, if that key isn't known yet. A section of an earlier period is right.
    ///
    /// It returns `BadEmm` with `Mixed` if the section disagrees with earlier ones of its period, and `WrongKey` if the
    /// key has another check value than the section names.
    pub fn judge<L: Ledger>(
        &self,
        card: &Card,
        number: u64,
        emm: &Emm,
        key: &mut Option<[u8; 32]>,
        steps: &mut Steps<L>,
    ) -> Result<(), StreamFault>
        requires form { IsEmm emm.now }
        requires sets { AreSets card.now.height emm.now.sets (listed_entries emm.now) }
        ensures ok { OnOk result ((tr : List Heard) → IsEntitled (card_fields_of card.now) tr self.now →
            IsEmmJudged (card_fields_of card.now) number tr emm.now key.new) }
        ensures fault { (tr : List Heard) → IsEntitled (card_fields_of card.now) tr self.now →
            HasFault result (emm_offering (card_fields_of card.now) number tr emm.now).fault }
        ensures rise { steps.old ≤ steps.new }
        ensures steps { (tr : List Heard) → IsEntitled (card_fields_of card.now) tr self.now → steps.new ≤
            steps.old + (if takes_key (card_fields_of card.now) tr emm.now then card.now.height else 0) }
    {
        if emm.period < self.period {
            return Ok(());
        }
        if self.differs(emm) {
            return Err(StreamFault::BadEmm(number, EmmFault::Mixed));
        }
        // A key that is known isn't copied for each section of its period.
        if self.knows_key(emm.period) {
            return Ok(());
        }
        good_key_in(card, number, emm, key, steps)
    }

    /// Keeps a section that was judged, and its key if that of its period isn't known yet. A section of an earlier
    /// period changes nothing.
    #[inline(always)]
    pub fn keep(&mut self, emm: &Emm, key: Option<[u8; 32]>)
        requires { IsEmm emm.now }
        ensures { (card : CardFields) (n : ℕ) (tr : List Heard) → IsEntitled card tr self.old →
            IsEmmJudged card n tr emm.now key → IsEntitled card (Entitles emm.now ∷ tr) self.new }
    {
        if emm.period < self.period {
            return;
        }
        if !self.knows_key(emm.period) {
            self.advance(emm.period);
            self.key = key;
        }
        self.mark(emm);
    }

    // Whether a section disagrees with those seen before it on the current period. One of a later period doesn't.
    fn differs(&self, emm: &Emm) -> bool
        ensures { result ≡
            (if self.now.period == emm.now.period then is_said_otherwise self.now.header emm.now else false) }
    {
        match self.header {
            Some(header) => emm.period == self.period && header != PeriodHeader::of(emm),
            None => false,
        }
    }

    // Whether this is the current period, and its key is known.
    fn knows_key(&self, period: u32) -> bool
        ensures { result ≡ is_some (key_kept self.now period) }
    {
        period == self.period && self.key.is_some()
    }

    // Keeps a section of the current period, whose key is kept.
    fn mark(&mut self, emm: &Emm)
        ensures { (card : CardFields) (tr : List Heard) (before : Option (List ℕ)) →
            IsStateAt card tr emm.now.period (with_key self.old before) →
            current tr ≤ emm.now.period → is_mixed (sections_seen emm.now.period tr) emm.now ≡ false →
            emm.now.index < emm.now.sections →
            self.old.key ≡ first_key (key_at card tr emm.now.period) (key_from card emm.now) →
            IsEntitled card (Entitles emm.now ∷ tr) self.new }
    {
        self.header = Some(PeriodHeader::of(emm));
        self.marks[usize::from(emm.index)] = true;
    }
}

/// The period key in the first entry whose set has the card's leaf, still wrapped, after the key of that set. It takes
/// at most as many steps of the generator as the tree is high, and none if there is no such entry.
pub fn wrapped_key_in<L: Ledger>(
    card: &Card,
    emm: &Emm,
    steps: &mut Steps<L>,
) -> Option<([u8; 32], [u8; 32])>
    requires count { emm.now.count ≤ MOST_ENTRIES }
    requires sets { AreSets card.now.height emm.now.sets (listed_entries emm.now) }
    ensures value { option_map (λ pair. wrapped pair.0 emm.now.period pair.1) result
        ≡ key_from (card_fields_of card.now) emm.now }
    ensures steps { (steps.old ≤ steps.new) × (steps.new ≤ steps.old + card.now.height) }
    ensures unchanged { IsNone result → steps.new ≡ steps.old }
{
    for entry in emm.listed() {
        if let Some(key) = card.key_for(entry.name, steps) {
            return Some((key, entry.wrapped));
        }
    }
    None
}

/// Puts the period key in the first entry whose set has the card's leaf, if there is one, in place of `key`. `WrongKey`
/// if its check value isn't the one in the section; `number` is the section's packet.
pub fn good_key_in<L: Ledger>(
    card: &Card,
    number: u64,
    emm: &Emm,
    key: &mut Option<[u8; 32]>,
    steps: &mut Steps<L>,
) -> Result<(), StreamFault>
    requires count { emm.now.count ≤ MOST_ENTRIES }
    requires sets { AreSets card.now.height emm.now.sets (listed_entries emm.now) }
    ensures value { OnOk result (key.new ≡ key_from (card_fields_of card.now) emm.now) }
    ensures fault { HasFault result (key_offering number emm.now (key_from (card_fields_of card.now) emm.now)).fault }
    ensures steps { (steps.old ≤ steps.new) × (steps.new ≤ steps.old + card.now.height) }
    ensures unchanged { key_from (card_fields_of card.now) emm.now ≡ None → steps.new ≡ steps.old }
{
    let Some(pair) = wrapped_key_in(card, emm, steps) else {
        *key = None;
        return Ok(());
    };
    match unwrap_checked(&pair.0, u64::from(emm.period), &pair.1, &emm.check) {
        Ok(own) => {
            *key = Some(own);
            Ok(())
        }
        Err(found) => Err(StreamFault::WrongKey {
            packet: number,
            period: emm.period,
            found,
            due: emm.check,
        }),
    }
}
