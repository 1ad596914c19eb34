use crate::session::{first_wrong, shelf};
use sd_test_texts::SITE;
use std::alloc::AllocError;

// Changes of the card of leaf 5. A card of which a field is changed has the check of its new bytes.
const FAULTS: &str = "
$ show changed | 8 | | changed = card 3=cut
card: magic
$ show changed | 8 | | changed = card 4=cut
card: version
$ show changed | 8 | 4a500f6bcb8d4537 | changed = card 4=02 236=19a0b10449f9f47be924e6af8da05018
card: version
$ show changed | 8 | 22bdae472d0287df | changed = card 5=00 236=4aaba59fd00ebd2a2ed48d8f4269f67e
card: height
$ show changed | 8 | e8da366be628903e | changed = card 5=15 236=c47eb7b695916d6f4902e7d2e6d42751
card: height
$ show changed | 8 | f2de01bee058f5cf | changed = card 9=08 236=d87e2aead2ba2cacf3483d6111c52c30
card: leaf
$ show changed | 8 | a4c002b371c15b55 | changed = card 251=cut
card: length
$ show changed | 8 | 1ebaef8e7620c7bc | changed = card 5=04 236=8fcade047ca74f2a31923330c25b9c62
card: length
$ show changed | 8 | 3654abfa30d8cd00 | changed = card 60=d5
card: check 813ac7b7ad90ee38b89d1475ba747af7 2c64f5f41206393e335e657ca91b0117
";

#[test]
fn faults_of_cards_are_shown_by_name(rt: HostRuntime) -> Result<(), AllocError> {
    let alloc = rt.alloc();
    let mut depot = shelf(alloc, SITE, "", "", "card site 5 card")?;
    let wrong = first_wrong(alloc, &mut depot, FAULTS)?;
    assert!(rt; wrong.is_empty(), "{wrong}");
    Ok(())
}
