ghost use Rattle.std.specs.Prelude.{◌≡◌, ℕ, List, length};
ghost use Rattle.sd_tree_keys.specs.Keys.{control_word_of};
ghost use Rattle.sd_site_cards.specs.SiteFields.{SiteFields};
ghost use Rattle.sd_spec.specs.Plan.{word_of};
ghost use Rattle.sd_spec.specs.Carried.{carried, parity_of};
ghost use Rattle.sd_head.specs.declared.clear.Clear.{Clear as Clears};
ghost use Rattle.sd_head.specs.After.{IsClearAfter};
ghost use Rattle.sd_head.specs.Follows.{MayFollow};

use crate::judged::Judged;
use sd_cipher::{Parity, scramble};
use sd_packet::Packet;

impl<'a> Judged<'a> {
    /// Makes of the packet, of which this was learned, what it becomes in the crypto period whose control word has this
    /// number and is this (docs/FORMATS.md, Broadcast).
    pub fn carry(&self, packet: &mut Packet, number: u32, word: &[u8; 32])
        requires { (site : SiteFields) × (clear : Clears) × MayFollow site clear packet.old self.now }
        ensures { (site : SiteFields) (clear : Clears) (before : List (List ℕ)) →
            MayFollow site clear packet.old self.now → IsClearAfter before clear →
            number ≡ word_of site (length before) →
            word.now ≡ control_word_of site.master number →
            packet.new ≡ carried site before packet.old }
    {
        match self {
            Judged::Passed(_) => {}
            Judged::Pmt(_, carried) => *packet = *carried,
            Judged::Scrambled(next) => scramble(packet, word, next.position, parity(number)),
        }
    }
}

// The parity of a control word's number.
fn parity(number: u32) -> Parity
    ensures { result ≡ parity_of number }
{
    if number % 2 == 0 {
        Parity::Even
    } else {
        Parity::Odd
    }
}
