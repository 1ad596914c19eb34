//! The current period and those before it.

ghost use Rattle.std.specs.Prelude.{◌≡◌, ◌≤◌, [], ◌∷◌, List, Some, None, IfOk, find, is_none, ◌&&◌, if◌then◌else◌};
ghost use Rattle.std.specs.Option.{option_or};
ghost use Rattle.sd_site_cards.specs.CardFields.{CardFields};
ghost use Rattle.sd_message.specs.EcmParts.{Message};
ghost use Rattle.sd_message.specs.declared.ecm_part.EcmPart.{EcmPart};
ghost use Rattle.sd_spec.specs.Heard.{Heard, Controls};
ghost use Rattle.sd_spec.specs.Stretches.{completes};
ghost use Rattle.sd_spec.specs.Ending.{periods_told, is_unkeyed};
ghost use Rattle.sd_receive.specs.PeriodKeys.{IsEntitled, IsStateAt, is_told_revoked, all_marked, key_kept};

use crate::emm::PeriodKeys;
use crate::emm::header::{SECTIONS, are_all_marked, reset_marks};
use sd_base::NoMemory;
use std::alloc::Global;

impl PeriodKeys {
    /// Before anything was heard. All memory is allocated here.
    pub fn new(alloc: Global) -> Result<PeriodKeys, NoMemory>
        ensures { IfOk result (λ keys. (card : CardFields) → IsEntitled card [] keys) }
    {
        let Ok(marks) = vec![in alloc; false; SECTIONS] else {
            return Err(NoMemory);
        };
        Ok(PeriodKeys {
            period: 0,
            header: None,
            marks,
            told: false,
            key: None,
            revoked: None,
            unkeyed: None,
        })
    }

    /// The current entitlement period, 0 before anything was heard.
    pub fn period(&self) -> u32
        ensures { result ≡ self.now.period }
    {
        self.period
    }

    /// The key of a period, if it is the current one and its key is known.
    pub fn key_of(&self, period: u32) -> Option<[u8; 32]>
        ensures { result ≡ key_kept self.now period }
    {
        if period == self.period {
            self.key
        } else {
            None
        }
    }

    /// Takes a complete control message of this period, which must not be before the current one.
    pub fn message(&mut self, period: u32)
        requires { self.old.period ≤ period }
        ensures { (card : CardFields) (tr : List Heard) (part : EcmPart) (message : Message) →
            IsEntitled card tr self.old → completes tr (Controls part) ≡ Some message → message.period ≡ period →
            IsEntitled card (Controls part ∷ tr) self.new }
    {
        self.advance(period);
        self.told = true;
    }

    /// The first period of a complete control message of which all sections were seen and no key is known.
    pub fn revoked(&self) -> Option<u32>
        ensures { (card : CardFields) (tr : List Heard) → IsEntitled card tr self.now →
            result ≡ find (is_told_revoked card tr) (periods_told tr) }
    {
        self.or_this(self.revoked, self.shuts_out())
    }

    /// The first period of a complete control message of which no key is known.
    pub fn unkeyed(&self) -> Option<u32>
        ensures { (card : CardFields) (tr : List Heard) → IsEntitled card tr self.now →
            result ≡ find (is_unkeyed card tr) (periods_told tr) }
    {
        self.or_this(self.unkeyed, self.lacks_key())
    }

    // The first of the earlier periods, or else the current one if it is such a one.
    fn or_this(&self, first: Option<u32>, is_such: bool) -> Option<u32>
        ensures { result ≡ option_or first (if is_such then Some self.now.period else None) }
    {
        first.or(is_such.then_some(self.period))
    }

    // Whether a complete control message was of the current period, and its key isn't known.
    fn lacks_key(&self) -> bool
        ensures { result ≡ (self.now.told && is_none self.now.key) }
    {
        self.told && self.key.is_none()
    }

    // Whether a complete control message was of the current period, its key isn't known, and all its sections were
    // seen.
    fn shuts_out(&self) -> bool
        ensures { result ≡
            ((self.now.told && is_none self.now.key) && all_marked self.now.header self.now.marks.items) }
    {
        self.lacks_key() && are_all_marked(&self.marks, self.header)
    }

    // Makes this period the current one, if it isn't yet. The one before it is judged.
    pub(crate) fn advance(&mut self, period: u32)
        requires { self.old.period ≤ period }
        ensures { (card : CardFields) (tr : List Heard) → IsEntitled card tr self.old →
            IsStateAt card tr period self.new }
    {
        if period == self.period {
            return;
        }
        let revoked = self.revoked();
        let unkeyed = self.unkeyed();
        reset_marks(&mut self.marks, self.header);
        self.period = period;
        self.header = None;
        self.told = false;
        self.key = None;
        self.revoked = revoked;
        self.unkeyed = unkeyed;
    }

    /// Forgets all that was heard.
    pub fn reset(&mut self)
        ensures { (card : CardFields) (tr : List Heard) → IsEntitled card tr self.old → IsEntitled card [] self.new }
    {
        reset_marks(&mut self.marks, self.header);
        self.period = 0;
        self.header = None;
        self.told = false;
        self.key = None;
        self.revoked = None;
        self.unkeyed = None;
    }
}
