use crate::session::{first_wrong, shelf};
use sd_test_texts::SITE;
use std::alloc::AllocError;

// Books, and sites of a chain whose first period is 1 and 9.
const FILES: &str = "
$ empty
$ changes
revoke 5
period
period
subscribe 5
revoke 2
$ later
height 3
master 000102030405060708090a0b0c0d0e0f101112131415161718191a1b1c1d1e1f
ca 1234
emm 496
ecm 497
ecm-every 200
crypto-ecms 2
period-cryptos 1
messages 3
first-word 1
last-word 9
first-period 1
$ last
height 3
master 000102030405060708090a0b0c0d0e0f101112131415161718191a1b1c1d1e1f
ca 1234
emm 496
ecm 497
ecm-every 200
crypto-ecms 2
period-cryptos 1
messages 3
first-word 1
last-word 9
first-period 9
";

// The master's fingerprint: SHA-256 of SHA-256 of the master and `A`, and of `V`, its first 16 bytes.
const STEPS: &str = r#"
$ status site empty 7 | 0
master bdf6d2d5d2e5015346f79d69446d9e46
period 0 receiver 7 entitled
$ status site changes 5 | 0
master bdf6d2d5d2e5015346f79d69446d9e46
period 0 receiver 5 revoked
period 2 receiver 5 entitled
$ status site changes 3 | 0
master bdf6d2d5d2e5015346f79d69446d9e46
period 0 receiver 3 entitled
$ status later changes 5 | 0
master bdf6d2d5d2e5015346f79d69446d9e46
period 1 receiver 5 revoked
period 2 receiver 5 entitled
$ status later changes 2 | 0
master bdf6d2d5d2e5015346f79d69446d9e46
period 1 receiver 2 entitled
period 2 receiver 2 revoked
$ status last changes 2 | 0
master bdf6d2d5d2e5015346f79d69446d9e46
period 9 receiver 2 revoked
$ status site changes 8 | 17
word 3 is out of range
$ card site 5 card | 0
$ show card | 0
{"card":"plain","check":"813ac7b7ad90ee38b89d1475ba747af7","height":3,"labels":6,"leaf":5,"master":"bdf6d2d5d2e5015346f79d69446d9e46","system":4660}
"#;

#[test]
fn receivers_are_followed(rt: HostRuntime) -> Result<(), AllocError> {
    let alloc = rt.alloc();
    let mut depot = shelf(alloc, SITE, "", FILES, "")?;
    let wrong = first_wrong(alloc, &mut depot, STEPS)?;
    assert!(rt; wrong.is_empty(), "{wrong}");
    Ok(())
}
