ghost use Rattle.std.specs.Prelude.{◌≡◌, ◌<◌};

use crate::known::master;
use sd_base::Steps;
use sd_tree_keys::{
    check_value, control_word, descend, is_above, middle, period_key, root_label, whole_key,
};
use std::marker::Brand;
use std::sync::ledger::{Blank, Ledger};

// The bytes as a number, the first byte highest.
fn number(bytes: &[u8]) -> u128 {
    let mut number = 0;
    for byte in bytes {
        number = number << 8 | u128::from(*byte);
    }
    number
}

type Halves = (u128, u128);

fn halves(hash: &[u8; 32]) -> Halves {
    (number(&hash[..16]), number(&hash[16..]))
}

// The label and the key of a pair of nodes.
fn counted<L: Ledger>(i: u32, j: u32, blank: Blank) -> Option<(Halves, Halves)>
    requires name { blank.name ≡ L.name }
    requires parts { blank.parts ≡ L.parts }
    requires some { 0 < blank.parts }
{
    let mut steps = Steps::<L>::new(blank);
    if 1 <= i && i <= j && is_above(i, j) {
        let label = descend(&root_label(&master(), i), i, j, &mut steps);
        Some((halves(&label.0), halves(&middle(&label, &mut steps))))
    } else {
        None
    }
}

fn pair(i: u32, j: u32) -> Option<(Halves, Halves)> {
    counted::<Brand>(i, j, Blank::new(1))
}

// Hashes, each as two numbers of 16 bytes.
const NODE_524288: Halves = (
    0x196d704d54d5d4254ad46b286c856bca,
    0x61c05e0e285b4619ac20e68ee433c462,
);

const WHOLE_KEY: Halves = (
    0x9a9aea255b8e54be50fc2cb5d0b83ebf,
    0x64120b12e68d82699face4ee860511dc,
);

const PERIOD_256: Halves = (
    0xb5ab77fe27249b35af7409ec4b7ea6a3,
    0xa1ed2feb786905f9bb37490f5c0baf00,
);

const WORD_4294967295: Halves = (
    0xa10e29f7905be39188dcbe72c554be83,
    0x82895265d095d8c81e490f013422382d,
);

// A pair of nodes, its label and its key.
static PAIRS: [(u32, u32, Option<(Halves, Halves)>); 4] = [
    (
        1,
        13,
        Some((
            (
                0x63b4e117086347255283da4db2a136c1,
                0x77238518ad9fe01f3a2a66cdb78cb933,
            ),
            (
                0xec8a1538ef286b0f1d9c79fb6426c66f,
                0x9516a27c2da9fc9562387d2b4d0f75bf,
            ),
        )),
    ),
    (
        3,
        12,
        Some((
            (
                0x48954a872ea73ecca7c88349a7d5558e,
                0xa323dfebd65bf59142ace49371da03b0,
            ),
            (
                0xa0219e9d2a0b688b1e4c57469a2bfb17,
                0x39dd879d2e5203a633a07140d6a71610,
            ),
        )),
    ),
    (
        1,
        2097151,
        Some((
            (
                0x48dede0015a5d35fbc356c979ccc2cf7,
                0xc091a99b6c0fd383505b6054462c8989,
            ),
            (
                0x06b94fc900a3fb057928c5668bbd19b0,
                0x7e9b2f77b1d623822dd8bfc1183d2731,
            ),
        )),
    ),
    (2, 13, None),
];

// Whether the master's label of a node, its keys and its control word are so.
fn has_hashes(master: &[u8; 32]) -> bool {
    halves(&root_label(master, 524288).0) == NODE_524288
        && halves(&whole_key(master)) == WHOLE_KEY
        && halves(&period_key(master, 256)) == PERIOD_256
        && halves(&control_word(master, u32::MAX)) == WORD_4294967295
}

// Whether the check values of the master's keys are so.
fn has_checks(master: &[u8; 32]) -> bool {
    number(&check_value(&whole_key(master))) == 0xbdf6d2d5d2e5015346f79d69446d9e46
        && number(&check_value(&period_key(master, 1))) == 0x1dcd30913b9a37b4772694d78c1d7f2f
}

#[test]
fn labels_and_keys_of_a_site(rt: HostRuntime) {
    let master = master();
    assert!(rt; has_hashes(&master));
    assert!(rt; has_checks(&master));
    for (i, j, label_and_key) in &PAIRS {
        assert!(rt; pair(*i, *j) == *label_and_key, "({i},{j})");
    }
}
