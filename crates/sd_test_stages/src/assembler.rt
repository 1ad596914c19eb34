ghost use Rattle.std.specs.Prelude.{IfSome};
ghost use Rattle.sd_message.specs.EcmForm.{IsEcm};

use crate::packets::packet;
use sd_message::{EcmFault, EcmPart, Place, read_ecm};
use sd_receive::{EcmAssembler, EcmProgress};

// Both parts of a message that an independent implementation wrote, up to the stuffing.
const FIRST: &str =
    "4741f11e0081b0b30000c10001000003f6000000090000001d00030d40008fdac453c8c8cbf4729ec8fd90ce1e2529cf41c7257a1f16\
     ddcb7562aad6fafbc882e2a41f76bd11f8e94eed67ccbc9f0d049e005225c6944a05ab00fb0ce8ba5c07a200401b45b863094800feec\
     2c822d0bc50088e2f6f3c90c6500e9d4e9b37d0e10007c7bab16960e81001030b024a80ee70031ad7e7ede0fac0042cbf9245a155e00\
     2e83b41a18175e00f6a23515a318d1005b5a8b13477337e24e";

const SECOND: &str =
    "4741f1150081b0530000c10101000003f6000000090000001d00030d40008fdac453c8c8cbf4729ec8fd90ce1e2529cf41c7257a1f16\
     ddcb7562aad6fafbc882e2a41f76bd11f8e94eed67ccbc9f011f69001edd7124b87db89aa8";

// The part that a packet is, which begins so.
fn part_in(text: &str) -> Option<EcmPart>
    ensures { IfSome result IsEcm }
{
    read_ecm(&packet(text)?).ok()?
}

// How many positions come with the part that begins so, where it completes a message, or 0.
fn places_after(assembler: &mut EcmAssembler, text: &str) -> Option<usize> {
    let part = part_in(text)?;
    match assembler.take(9, &part) {
        Ok(EcmProgress::Complete(_)) => Some(assembler.coming().len()),
        _ => Some(0),
    }
}

// Whether so many positions come with each of these parts, one after the other.
fn come(assembler: &mut EcmAssembler, turns: &[(&str, usize)]) -> bool {
    for (text, count) in turns {
        if places_after(assembler, text) != Some(*count) {
            return false;
        }
    }
    true
}

// Whether the message is collected once.
fn is_collected(assembler: &mut EcmAssembler) -> bool {
    // Part 1 alone, and after part 0; part 0 anew, and after the message is complete.
    if !come(
        assembler,
        &[(SECOND, 0), (FIRST, 0), (FIRST, 0), (SECOND, 14)],
    ) || assembler.last().is_some()
    {
        return false;
    }
    assembler.settle();
    let last = Place {
        pid: 8041,
        position: 132564198584,
    };
    let number = assembler.last().map(|head| head.number);
    (number, assembler.places().last().copied()) == (Some(1014), Some(last))
        && come(assembler, &[(FIRST, 0), (SECOND, 0)])
}

#[test]
fn messages_are_collected(rt: HostRuntime) {
    let mut assembler = EcmAssembler::new(rt.alloc()).expect(&rt, "memory");
    assert!(rt; is_collected(&mut assembler));
}

// Whether the collected message is forgotten, and a part of it.
fn is_forgotten(assembler: &mut EcmAssembler) -> bool {
    if !come(assembler, &[(FIRST, 0), (SECOND, 14)]) {
        return false;
    }
    assembler.settle();
    // Anew after the message, and between its parts.
    assembler.reset();
    if assembler.last().is_some()
        || !assembler.places().is_empty()
        || !come(assembler, &[(FIRST, 0)])
    {
        return false;
    }
    assembler.reset();
    come(assembler, &[(SECOND, 0), (FIRST, 0), (SECOND, 14)])
}

#[test]
fn collected_messages_are_forgotten(rt: HostRuntime) {
    let mut assembler = EcmAssembler::new(rt.alloc()).expect(&rt, "memory");
    assert!(rt; is_forgotten(&mut assembler));
}

// Whether a message that goes back, to a period before the current one, leaves the parts before its last one.
fn is_left(assembler: &mut EcmAssembler) -> Option<bool> {
    if !come(assembler, &[(FIRST, 0)]) {
        return Some(false);
    }
    let part = part_in(SECOND)?;
    let is_back = match assembler.take(10, &part) {
        Err(fault) => fault == EcmFault::Back,
        Ok(_) => false,
    };
    Some(is_back && come(assembler, &[(SECOND, 14)]))
}

#[test]
fn refused_parts_change_nothing(rt: HostRuntime) {
    let mut assembler = EcmAssembler::new(rt.alloc()).expect(&rt, "memory");
    assert!(rt; is_left(&mut assembler) == Some(true));
}
