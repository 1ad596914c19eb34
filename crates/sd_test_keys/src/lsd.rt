ghost use Rattle.std.specs.Prelude.{◌≡◌, ◌<◌};

use crate::known::site;
use sd_base::Steps;
use sd_law_covers::layered_names;
use sd_lsd::{LayerCard, Width};
use sd_tree_keys::{Height, Leaf, Name};
use sha2::{Digest, Sha256};
use std::alloc::{AllocError, Global};
use std::marker::Brand;
use std::sync::ledger::{Blank, Ledger};
use std::test::*;

// The layer card of leaf 5 at height 3 and width 2.
const LEAF_5: &str =
    "53444c430103020000000512349a9aea255b8e54be50fc2cb5d0b83ebf64120b12e68d82699face4ee860511dc09\
    57476ca37572a1dcc65a3f00d57deed46e69c2e91426478f712417fb92a56bb3b4a9ec141e3e6c5f7f1d34c7932d\
    34ee14f724fd68a98b2f9fdcb508de0f48aa94e29d22fc6666b24e1ad2794a4f1f1519d5126f9de69bdeaf722cfe\
    e0075900407c5f5709ab0b475c92082dca33bfd94d089bfb1948a03cae4d5b75ad14e564c53490a01b870e712092\
    5ffd7ce8b20d840d83d052c5668db762ab8dbdeede6c15884372b27ea8bac7a70c1b7409db";

// The layer card of a leaf at this height and width.
fn counted<L: Ledger>(alloc: Global, at: (u8, u8, u32), blank: Blank) -> Option<LayerCard>
    requires name { blank.name ≡ L.name }
    requires parts { blank.parts ≡ L.parts }
    requires some { 0 < blank.parts }
{
    let height = Height::new(at.0)?;
    let width = Width::new(height, at.1)?;
    let leaf = Leaf::new(height, at.2)?;
    let site = site(height);
    let mut steps = Steps::<L>::new(blank);
    LayerCard::make(alloc, &site, width, leaf, &mut steps).ok()
}

fn made(alloc: Global, at: (u8, u8, u32)) -> Option<LayerCard> {
    counted::<Brand>(alloc, at, Blank::new(1))
}

// The bytes of a layer card, in hexadecimal.
fn text_of(alloc: Global, card: &LayerCard) -> Result<String, Fail> {
    let bytes = card.write(alloc).ok().ok_or("memory is left")?;
    Ok(hex::encode(alloc, &bytes)?)
}

#[test]
fn a_layer_card_is_written(rt: HostRuntime) -> Result<(), Fail> {
    let card = made(rt.alloc(), (3, 2, 5)).ok_or("the leaf has a card")?;
    assert!(rt; text_of(rt.alloc(), &card)?.as_str() == LEAF_5);
    Ok(())
}

// A width, how long the layer card of leaf 77777 at height 20 is, and the SHA-256 of the card.
static TALL: [(u8, usize, &str); 2] = [
    (
        5,
        2941,
        "58b8e2b3b81b99ef07e3dca4437af7ed2ed7f4e2ebf14a4a13ca6379204b7cbb",
    ),
    (
        20,
        6781,
        "3dfcfa2c65c8e7743cde2ed34a62f9cd9e10fc1640e1e7ac7bc77c94897610e8",
    ),
];

#[test]
fn layer_cards_of_tall_trees(rt: HostRuntime) -> Result<(), Fail> {
    for (w, length, sum) in &TALL {
        let card = made(rt.alloc(), (20, *w, 77_777)).ok_or("the leaf has a card")?;
        let bytes = card.write(rt.alloc()).ok().ok_or("memory is left")?;
        let digest = hex::encode(rt.alloc(), &Sha256::digest(&bytes))?;
        assert!(rt; bytes.len() == *length && digest.as_str() == *sum);
    }
    Ok(())
}

// The names of leaf 5.
static NAMES: [Name; 6] = [
    Name::Whole,
    Name::Pair { i: 1, w: 2 },
    Name::Pair { i: 1, w: 7 },
    Name::Pair { i: 1, w: 12 },
    Name::Pair { i: 3, w: 7 },
    Name::Pair { i: 6, w: 12 },
];

fn names_of_leaf_5(alloc: Global) -> Option<Vec<Name>> {
    let h = Height::new(3)?;
    layered_names(alloc, h, Width::new(h, 2)?, Leaf::new(h, 5)?).ok()
}

#[test]
fn names_of_leaf_5_in_layers(rt: HostRuntime) -> Result<(), Fail> {
    let names = names_of_leaf_5(rt.alloc()).ok_or("the leaf has names")?;
    assert!(rt; names[..] == NAMES[..]);
    Ok(())
}
