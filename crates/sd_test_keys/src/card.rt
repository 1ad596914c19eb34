ghost use Rattle.std.specs.Prelude.{◌≡◌, ◌<◌};

use crate::known::{altered, site};
use hex::FromHex;
use sd_base::Steps;
use sd_site_cards::{Card, CardFault};
use sd_tree_keys::{Height, Leaf, SetName};
use sha2::{Digest, Sha256};
use std::alloc::{AllocError, Global};
use std::marker::Brand;
use std::sync::ledger::{Blank, Ledger};
use std::test::*;

// The cards of leaf 0 at height 1 and of leaf 5 at height 3.
const LEAF_0: &str =
    "5344434401010000000012349a9aea255b8e54be50fc2cb5d0b83ebf64120b12e68d82699face4ee860511dc0938\
    f5db1e2e38332732e7da82f1ad3e4ce6cfe09cd3dfda4ac268d6eabfa59acd2c720852888ed655d22a5c8a4d7d2f";

const LEAF_5: &str =
    "5344434401030000000512349a9aea255b8e54be50fc2cb5d0b83ebf64120b12e68d82699face4ee860511dc0957\
    476ca37572a1dcc65a3f00d57deed46e69c2e91426478f712417fb92a56bb3b4a9ec141e3e6c5f7f1d34c7932d34\
    ee14f724fd68a98b2f9fdcb508de0f48aa94e29d22fc6666b24e1ad2794a4f1f1519d5126f9de69bdeaf722cfee0\
    075900407c5f5709ab0b475c92082dca33bfd94d089bfb1948a03cae4d5b75ad14e548954a872ea73ecca7c88349\
    a7d5558ea323dfebd65bf59142ace49371da03b064c53490a01b870e7120925ffd7ce8b20d840d83d052c5668db7\
    62ab8dbdeede813ac7b7ad90ee38b89d1475ba747af7";

// The card of a leaf at this height, and its key for a set.
fn counted<L: Ledger>(
    alloc: Global,
    d: u8,
    u: u32,
    set: (u32, u32),
    blank: Blank,
) -> Option<(Card, Option<[u8; 32]>)>
    requires name { blank.name ≡ L.name }
    requires parts { blank.parts ≡ L.parts }
    requires some { 0 < blank.parts }
{
    let height = Height::new(d)?;
    let leaf = Leaf::new(height, u)?;
    let site = site(height);
    let mut steps = Steps::<L>::new(blank);
    let card = Card::make(alloc, &site, leaf, &mut steps).ok()?;
    let name = SetName::new(card.height(), set.0, set.1)?;
    let key = card.key_for(name, &mut steps);
    Some((card, key))
}

fn made(alloc: Global, d: u8, u: u32, set: (u32, u32)) -> Option<(Card, Option<[u8; 32]>)> {
    counted::<Brand>(alloc, d, u, set, Blank::new(1))
}

// The bytes of a card, in hexadecimal.
fn text_of(alloc: Global, card: &Card) -> Result<String, Fail> {
    let bytes = card.write(alloc).ok().ok_or("memory is left")?;
    Ok(hex::encode(alloc, &bytes)?)
}

// A height, a leaf, and the leaf's card.
static WRITTEN: [(u8, u32, &str); 2] = [(1, 0, LEAF_0), (3, 5, LEAF_5)];

// The card, written and read again.
fn read_again(alloc: Global, card: &Card) -> Result<Card, Fail> {
    let bytes = card.write(alloc).ok().ok_or("memory is left")?;
    Ok(Card::read(alloc, &bytes).ok().ok_or("it is a card")?)
}

#[test]
fn cards_are_written_and_read_again(rt: HostRuntime) -> Result<(), Fail> {
    for (d, u, text) in &WRITTEN {
        let (card, _) = made(rt.alloc(), *d, *u, (0, 0)).ok_or("the leaf has a card")?;
        assert!(rt; text_of(rt.alloc(), &card)?.as_str() == *text);
        let again = read_again(rt.alloc(), &card)?;
        let numbers = (again.height().get(), again.leaf().get(), again.ca());
        assert!(rt; numbers == (*d, *u, 0x1234));
        assert!(rt; text_of(rt.alloc(), &again)?.as_str() == *text);
    }
    Ok(())
}

// A height, a leaf, how long its card is, and the SHA-256 of the card.
static TALL: [(u8, u32, usize, &str); 3] = [
    (
        10,
        515,
        1820,
        "431f55dd8536a13036bcb9edd665afdf39a426acb6bf60ee001cb7a0b619d46d",
    ),
    (
        20,
        12345,
        6780,
        "33f8db1f7633b12de2b8976fe46d7a73e9537dd24e04137cfe070f05aec66e94",
    ),
    (
        20,
        1048575,
        6780,
        "bfcbc774a9f50e0917519d412c998ec26d8d7a84e5ad4da24446ab561b63d50e",
    ),
];

#[test]
fn cards_of_tall_trees(rt: HostRuntime) -> Result<(), Fail> {
    for (d, u, length, sum) in &TALL {
        let (card, _) = made(rt.alloc(), *d, *u, (0, 0)).ok_or("the leaf has a card")?;
        let bytes = card.write(rt.alloc()).ok().ok_or("memory is left")?;
        let digest = hex::encode(rt.alloc(), &Sha256::digest(&bytes))?;
        assert!(rt; bytes.len() == *length && digest.as_str() == *sum);
    }
    Ok(())
}

// A set, and the key that leaf 5 has for it.
static KEYS: [((u32, u32), Option<&str>); 4] = [
    (
        (1, 8),
        Some("59e5e3230efc287d9ebd5ba455d48d75626cbdfe63c4742b3a727a098df50ed8"),
    ),
    (
        (1, 2),
        Some("fb3c0871556cfbf6382e48a5ec01f4d2616380b1b4cafdfc2679399c1d9b5769"),
    ),
    ((1, 6), None),
    (
        (0, 0),
        Some("9a9aea255b8e54be50fc2cb5d0b83ebf64120b12e68d82699face4ee860511dc"),
    ),
];

#[test]
fn keys_of_leaf_5(rt: HostRuntime) -> Result<(), Fail> {
    for (set, key) in &KEYS {
        let (_, found) = made(rt.alloc(), 3, 5, *set).ok_or("the leaf has a card")?;
        let due = key.and_then(|text| <[u8; 32] as FromHex>::from_hex(text).ok());
        assert!(rt; found == due, "the key of {} and {}", set.0, set.1);
    }
    Ok(())
}

const WRONG_CHECK: CardFault = CardFault::Check {
    found: [
        0x81, 0x3a, 0xc7, 0xb7, 0xad, 0x90, 0xee, 0x38, 0xb8, 0x9d, 0x14, 0x75, 0xba, 0x74, 0x7a,
        0xf7,
    ],
    due: [
        0x6c, 0xcf, 0xa5, 0xc4, 0xa2, 0x56, 0x81, 0xcd, 0x5d, 0x8b, 0xc4, 0xce, 0x0f, 0xae, 0x3a,
        0x13,
    ],
};

// The byte at a place, the length, and the fault.
static FAULTS: [(usize, u8, usize, CardFault); 8] = [
    (235, 0xdf, 252, WRONG_CHECK),
    (252, 0, 251, CardFault::Length),
    (252, 0, 253, CardFault::Length),
    (252, 0, 0, CardFault::Magic),
    (4, 2, 252, CardFault::Version),
    (5, 0, 252, CardFault::Height),
    (5, 21, 252, CardFault::Height),
    (9, 8, 252, CardFault::Leaf),
];

#[test]
fn the_first_bad_field_decides(rt: HostRuntime) -> Result<(), Fail> {
    for (at, byte, len, fault) in &FAULTS {
        let bytes = altered(rt.alloc(), LEAF_5, *at, *byte, *len)?;
        let found = Card::read(rt.alloc(), &bytes).err();
        assert!(rt; found == Some(*fault), "byte {at} of {len}");
    }
    Ok(())
}
