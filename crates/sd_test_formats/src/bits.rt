use sd_base::{fields, get, set};
use sd_law_formats::fields::{get_after_set, set_of_get};

#[test]
fn a_header_is_read(rt: HostRuntime) {
    let header = [0x47, 0x41, 0x23, 0x9A];
    fields! {
        &header;
        sync_byte: 0, 8;
        error: 8, 1;
        unit_start: 9, 1;
        priority: 10, 1;
        pid: 11, 13;
        scrambling: 24, 2;
        adaptation: 26, 2;
        counter: 28, 4;
    }
    let read = [
        sync_byte, error, unit_start, priority, pid, scrambling, adaptation, counter,
    ];
    assert!(rt; read == [0x47, 0, 1, 0, 0x123, 2, 1, 10]);
    // 32 bits that touch five bytes
    let bytes = [0x12, 0x34, 0x56, 0x78, 0x9A];
    assert!(rt; get::<4, 32>(&bytes) == 0x2345_6789);
}

#[test]
fn a_header_is_written(rt: HostRuntime) {
    // Each field among ones and among zeros: no other bit is changed.
    let mut among_ones = [0xFF; 4];
    fields! { &mut among_ones; pid: 11, 13 = 0x123; scrambling: 24, 2 = 2; }
    let mut among_zeros = [0; 4];
    fields! { &mut among_zeros; pid: 11, 13 = 0x1FFF; counter: 28, 4 = 10; }
    assert!(rt; among_ones == [0xFF, 0xE1, 0x23, 0xBF] && among_zeros == [0x00, 0x1F, 0xFF, 0x0A]);
    let mut five = [0xF0, 0, 0, 0, 0x0F];
    set::<4, 32>(&mut five, 0x2345_6789);
    assert!(rt; five == [0xF2, 0x34, 0x56, 0x78, 0x9F]);
    // What is written is read, and what is read may be written.
    assert!(rt; get_after_set::<9, 5>(&mut five, 21) == 21);
    let before = five;
    set_of_get::<7, 13>(&mut five);
    assert!(rt; five == before);
}
