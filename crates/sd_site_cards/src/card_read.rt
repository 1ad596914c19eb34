ghost use Rattle.std.specs.Prelude.{◌≡◌, ◌+◌, ◌≤◌, Some, None, length, IfOk, MatchResult};
ghost use Rattle.sd_site_cards.specs.CardFields.{CardFields, IsCard, card_fields_of, card_bytes};
ghost use Rattle.sd_site_cards.specs.CardFaults.{height_in, card_leaf, length_at as length_of, fault_in, IsFaultOf};

use crate::card::Card;
use crate::card_fault::CardFault;
use crate::count::count_at;
use crate::format::{CA_AT, HEIGHT_AT, LEAF_AT, MAGIC, SECRETS_AT, VERSION, VERSION_AT};
use crate::{CHECK_BYTES, SECRET_BYTES, byte_at, checks, four_at, secrets_in, two_at};
use sd_tree_keys::{Height, Leaf};
use std::alloc::Global;

impl Card {
    /// The card that a file's bytes say.
    pub fn read(alloc: Global, bytes: &[u8]) -> Result<Card, CardFault>
        // What is read is a card's file that says this.
        ensures sound { IfOk result (λ card.
            IsCard (card_fields_of card) × (bytes.now ≡ card_bytes (card_fields_of card))) }
        // What is a card's file is read, unless memory is out.
        ensures complete { (card : CardFields) → IsCard card → bytes.now ≡ card_bytes card →
            MatchResult result (λ read. card_fields_of read ≡ card) (λ fault. fault ≡ CardFault.NoMemory) }
        // Which fault it is.
        ensures fault { MatchResult result (λ _. fault_in bytes.now ≡ None) (λ fault. IsFaultOf bytes.now fault) }
    {
        whole(alloc, bytes)
    }
}

// The clause `complete` of `read` follows from these.
fn whole(alloc: Global, bytes: &[u8]) -> Result<Card, CardFault>
    ensures sound { IfOk result (λ card.
        IsCard (card_fields_of card) × (bytes.now ≡ card_bytes (card_fields_of card))) }
    ensures fault { MatchResult result (λ _. fault_in bytes.now ≡ None) (λ fault. IsFaultOf bytes.now fault) }
{
    let (height, leaf) = judge(bytes)?;
    let secrets = secrets_in(alloc, bytes, SECRETS_AT)?;
    Ok(Card {
        height,
        leaf,
        ca: two_at(bytes, CA_AT),
        secrets,
    })
}

// The height and the leaf of bytes with which nothing is wrong.
#[tactic(auto, unfolding(crate::specs::CardFaults::fault_in))]
fn judge(bytes: &[u8]) -> Result<(Height, Leaf), CardFault>
    ensures fault { MatchResult result (λ _. fault_in bytes.now ≡ None) (λ fault. fault_in bytes.now ≡ Some fault) }
    ensures value { IfOk result (λ named. (named.0 ≡ height_in bytes.now) × (named.1 ≡ card_leaf bytes.now)) }
    ensures length { IfOk result (λ _. SECRETS_AT + CHECK_BYTES ≤ length bytes.now) }
{
    if !bytes.starts_with(&MAGIC) {
        return Err(CardFault::Magic);
    }
    if byte_at(bytes, VERSION_AT) != VERSION {
        return Err(CardFault::Version);
    }
    let height = Height::new(byte_at(bytes, HEIGHT_AT)).ok_or(CardFault::Height)?;
    let leaf = Leaf::new(height, four_at(bytes, LEAF_AT)).ok_or(CardFault::Leaf)?;
    if bytes.len() != length_at(height) {
        return Err(CardFault::Length);
    }
    let (found, due) = checks(bytes);
    if found != due {
        return Err(CardFault::Check { found, due });
    }
    Ok((height, leaf))
}

// The number of bytes of a card at this height.
#[tactic(auto, unfolding(crate::specs::CardFaults::length_at))]
fn length_at(h: Height) -> usize
    ensures value { result ≡ length_of h }
    ensures fits { SECRETS_AT + CHECK_BYTES ≤ result }
{
    SECRETS_AT + SECRET_BYTES * count_at(h) + CHECK_BYTES
}
