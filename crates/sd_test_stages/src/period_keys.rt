ghost use Rattle.std.specs.Prelude.{◌≡◌, ◌<◌, IfSome};
ghost use Rattle.sd_message.specs.EmmForm.{IsEmm, AreSets};
ghost use Rattle.sd_message.specs.EmmSpelled.{listed_entries};

use crate::packets::{ALL, beginning};
use hex::FromHex;
use sd_base::Steps;
use sd_message::{Emm, EmmFault, StreamFault, read_emm};
use sd_packet::Packet;
use sd_receive::PeriodKeys;
use sd_section::seal;
use sd_site_cards::Card;
use std::alloc::Global;
use std::marker::Brand;
use std::sync::ledger::{Blank, Ledger};

// The cards of leaves 0 and 5 at height 3, and packets of entitlements for their tree, as an independent implementation
// wrote them.
const LEAF_0: &str =
    "5344434401030000000012349a9aea255b8e54be50fc2cb5d0b83ebf64120b12e68d82699face4ee860511dc0938f5db1e2e\
    38332732e7da82f1ad3e4ce6cfe09cd3dfda4ac268d6eabfa59ab342ded9ec0c6429af0728e4d7cc230aa9b240bd7b668550\
    8645c9c756f37c6f0135799ab8c694ef3440af71e7b6efda56a9b412a3317dbcf9a6176da916bf13294ece16c2e41604c23e\
    8fe92448dbb6167694cc2436ee322f6615c94c8e9028fb6a8a9230ac0c7e65288d89f5c32b2bab5fbaf35e3602c60446efa8\
    4f2b9563f16ef9480a25e9576d5fc3023e24ba9f562a4a309d483a4724be88217fed2d1c81ab7160c1c8841c3e07b388132b\
    d63b";

const LEAF_5: &str =
    "5344434401030000000512349a9aea255b8e54be50fc2cb5d0b83ebf64120b12e68d82699face4ee860511dc0957476ca375\
    72a1dcc65a3f00d57deed46e69c2e91426478f712417fb92a56bb3b4a9ec141e3e6c5f7f1d34c7932d34ee14f724fd68a98b\
    2f9fdcb508de0f48aa94e29d22fc6666b24e1ad2794a4f1f1519d5126f9de69bdeaf722cfee0075900407c5f5709ab0b475c\
    92082dca33bfd94d089bfb1948a03cae4d5b75ad14e548954a872ea73ecca7c88349a7d5558ea323dfebd65bf59142ace493\
    71da03b064c53490a01b870e7120925ffd7ce8b20d840d83d052c5668db762ab8dbdeede813ac7b7ad90ee38b89d1475ba74\
    7af7";

static EMMS: [&str; 4] = [
    // Period 0 for all leaves.
    ALL,
    // Period 1 for S(1,13), which is all leaves but 5.
    "4741f0110082b04c0000c10000000000010000000100011dcd30913b9a37b4772694d78c1d7f2f01000000010000000d4062\
    1ebefd0ad73fdbb9424fcff1c70b283394080d07271cc4ef665bbc77b8c623d6d618",
    // Period 1 for S(2,10) and S(3,13).
    "4741f0110082b0740000c10000000000010000000200011dcd30913b9a37b4772694d78c1d7f2f02000000020000000acc7d\
    d1da30b366dacfc375a25c1eefda3bdfff21964f96e6bdf02bc33d5107a8000000030000000d0d0d4aaa279bcfa14330d266\
    f00b2e978250f34440205724a03f0fd9aae19b7c187d8ff8",
    // Period 2 for S(1,13).
    "4741f0120082b04c0000c1000000000002000000010001ef2ba7e918e6f8a6dafb68acdc729f2001000000010000000d292e\
    4769d12111815b65367d141eff655523d92548c9294cbdaefce54921883ff0e1c59e",
];

// The section of a row, whose check value's first byte is changed by some bits.
fn emm_of(card: &Card, row: usize, bits: u8) -> Option<Emm>
    ensures { IfSome result (λ emm. IsEmm emm × AreSets card.now.height emm.sets (listed_entries emm)) }
{
    let text = EMMS.get(row)?;
    let mut bytes = beginning(text)?;
    bytes[23] ^= bits;
    let length = usize::from(u16::from_be_bytes([bytes[6], bytes[7]]) % 4096);
    let section = bytes.get_mut(5..8 + length)?;
    if section.len() >= 4 {
        seal(section);
    }
    let packet = Packet::new(bytes)?;
    emm_in(card, &packet)
}

fn emm_in(card: &Card, packet: &Packet) -> Option<Emm>
    ensures { IfSome result (λ emm. IsEmm emm × AreSets card.now.height emm.sets (listed_entries emm)) }
{
    match read_emm(card.height(), packet) {
        Ok(Some(emm)) => Some(emm),
        _ => None,
    }
}

// The card of a leaf.
fn card_of(alloc: Global, leaf: u32) -> Option<Card> {
    let text = match leaf {
        0 => LEAF_0,
        5 => LEAF_5,
        _ => return None,
    };
    let bytes = <[u8; 252]>::from_hex(text).ok()?;
    Card::read(alloc, &bytes).ok()
}

// The key, the first revoked period and the first without a key after the rows of some runs, where each section is
// followed by a message of its period.
type Kept = (Option<[u8; 32]>, Option<u32>, Option<u32>);

type Row = (usize, u8);

fn heard<L: Ledger>(
    card: &Card,
    runs: &[&[Row]],
    keys: &mut PeriodKeys,
    steps: &mut Steps<L>,
) -> Option<Result<Kept, StreamFault>> {
    for rows in runs {
        keys.reset();
        for (row, bits) in *rows {
            let emm = emm_of(card, *row, *bits)?;
            let mut key = None;
            match keys.judge(card, 9, &emm, &mut key, steps) {
                Ok(()) => keys.keep(&emm, key),
                Err(fault) => return Some(Err(fault)),
            }
            if keys.period() <= emm.period {
                keys.message(emm.period);
            }
        }
    }
    Some(Ok((keys.key_of(keys.period()), keys.revoked(), keys.unkeyed())))
}

fn counted<L: Ledger>(
    alloc: Global,
    leaf: u32,
    runs: &[&[Row]],
    blank: Blank,
) -> Option<Result<Kept, StreamFault>>
    requires name { blank.name ≡ L.name }
    requires parts { blank.parts ≡ L.parts }
    requires some { 0 < blank.parts }
{
    let mut steps = Steps::<L>::new(blank);
    let mut keys = PeriodKeys::new(alloc).ok()?;
    heard(&card_of(alloc, leaf)?, runs, &mut keys, &mut steps)
}

fn kept(alloc: Global, leaf: u32, runs: &[&[Row]]) -> Option<Result<Kept, StreamFault>> {
    counted::<Brand>(alloc, leaf, runs, Blank::new(1))
}

// The keys of periods 0, 1 and 2.
static KEYS: [&str; 3] = [
    "e9d9e51b1cde0cbaccbda5ec3d4ae31f9272291f6616d93ba6aa026ccbfa0936",
    "58051f549ecdc36b3be133e50897d53baa1554ef7dc846a1e1fd585066a595be",
    "b06c0d43278e31db25b9e7674bed115c89e00d759ad4b0251f8c9851a3f7608e",
];

fn key_of(period: Option<usize>) -> Option<[u8; 32]> {
    <[u8; 32] as FromHex>::from_hex(KEYS.get(period?)?).ok()
}

// Whether a leaf has the key of one period, or none, after the rows of some runs, and another is the first revoked one.
fn is_kept(
    alloc: Global,
    leaf: u32,
    runs: &[&[Row]],
    period: Option<usize>,
    revoked: Option<u32>,
) -> bool {
    let key = key_of(period);
    key.is_some() == period.is_some()
        && kept(alloc, leaf, runs) == Some(Ok((key, revoked, revoked)))
}

// The leaf, the rows, of which period there is a key after them, the first period that is revoked.
static KEPT: [(u32, &[Row], Option<usize>, Option<u32>); 8] = [
    (5, &[], None, None),
    (5, &[(0, 0)], Some(0), None),
    (5, &[(0, 0), (0, 0), (1, 0)], None, Some(1)),
    (5, &[(0, 0), (1, 0), (3, 0)], None, Some(1)),
    // A section of a past period is passed.
    (5, &[(1, 0), (0, 0)], None, Some(1)),
    (5, &[(0, 0), (3, 0)], None, Some(2)),
    (0, &[(0, 0), (1, 0)], Some(1), None),
    (0, &[(0, 0), (2, 0), (3, 0)], Some(2), None),
];

#[test]
fn keys_and_periods_are_kept(rt: HostRuntime) {
    for (leaf, rows, period, revoked) in &KEPT {
        assert!(rt; is_kept(rt.alloc(), *leaf, &[*rows], *period, *revoked));
    }
}

// The leaf, the rows of each run, of which period there is a key after them, the first period that is revoked.
static FORGOTTEN: [(u32, &[&[Row]], Option<usize>, Option<u32>); 4] = [
    (5, &[&[(0, 0), (1, 0)], &[]], None, None),
    // A section of a lower period than those of the run before.
    (5, &[&[(0, 0), (3, 0)], &[(0, 0)]], Some(0), None),
    // A section that says otherwise than one of the run before.
    (0, &[&[(1, 0)], &[(2, 0)]], Some(1), None),
    (5, &[&[(0, 0)], &[(1, 0)]], None, Some(1)),
];

#[test]
fn what_was_heard_of_another_run_is_forgotten(rt: HostRuntime) {
    for (leaf, runs, period, revoked) in &FORGOTTEN {
        assert!(rt; is_kept(rt.alloc(), *leaf, runs, *period, *revoked));
    }
}

// Why leaf 5 refuses one of these rows, if it does.
fn refusal(alloc: Global, rows: &[Row]) -> Option<StreamFault> {
    kept(alloc, 5, &[rows])?.err()
}

// The fault of a section whose check value's first byte is changed by one bit.
fn wrong_key() -> Option<StreamFault> {
    let found = <[u8; 16] as FromHex>::from_hex("8e7c98755d4f1259303e2c26f84665c7").ok()?;
    let mut due = found;
    due[0] ^= 1;
    Some(StreamFault::WrongKey {
        packet: 9,
        period: 0,
        found,
        due,
    })
}

#[test]
fn sections_that_say_otherwise_are_refused(rt: HostRuntime) {
    let refused = refusal(rt.alloc(), &[(0, 1)]);
    assert!(rt; refused.is_some() && refused == wrong_key());
    let mixed = StreamFault::BadEmm(9, EmmFault::Mixed);
    assert!(rt; refusal(rt.alloc(), &[(1, 0), (2, 0)]) == Some(mixed));
}
