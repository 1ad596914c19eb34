use crate::packets::{Change, changed, flipped, packet_of};
use hex::FromHex;
use sd_message::{EcmFault, EcmPart, MOST_PLACES, Place, part_count, read_ecm, write_ecm};
use sd_packet::Packet;
use std::alloc::Global;
use std::ops::Range;
use std::test::*;

// A part that an independent implementation wrote, and its packet up to its stuffing.
struct Row {
    version: u8,
    number: u32,
    period: u32,
    word: u32,
    clear: u32,
    since: u32,
    run: Option<u32>,
    closing: bool,
    part: u8,
    last_part: u8,
    wrapped: &'static str,
    check: &'static str,
    positions: &'static [(u16, u64)],
    packet: &'static str,
}

static ROWS: [Row; 19] = [
    Row {
        version: 1,
        number: 0,
        period: 0,
        word: 0,
        clear: 0,
        since: 0,
        run: None,
        closing: false,
        part: 0,
        last_part: 0,
        wrapped: "02eef1dce9a97720b765ee814bfd192c23861ff0f1deeff10f7afb1e7bd5a849",
        check: "c11797519f5f8e11a9080b9ed6607272",
        positions: &[],
        packet: "4741f1140080b04b0000c10000000000000000000000000000000000000002eef1dce9a97720b765ee814bfd192c23861ff0\
                f1deeff10f7afb1e7bd5a849c11797519f5f8e11a9080b9ed660727200367490ac",
    },
    Row {
        version: 1,
        number: 1,
        period: 0,
        word: 0,
        clear: 200,
        since: 0,
        run: None,
        closing: false,
        part: 0,
        last_part: 0,
        wrapped: "6682bbbb66a6e9b949b2d21a30e2641c265e6eb1f4430b125468c6302b38b757",
        check: "3085294b1e2d9a320ffe227acf4837b3",
        positions: &[(256, 159), (257, 65), (4096, 17)],
        packet: "4741f11a0080b0630000c10000000000010000000000000000000000c8006682bbbb66a6e9b949b2d21a30e2641c265e6eb1\
                f4430b125468c6302b38b7573085294b1e2d9a320ffe227acf4837b303010000000000009f01010000000000411000000000\
                0000119e493e13",
    },
    Row {
        version: 1,
        number: 3,
        period: 1,
        word: 1,
        clear: 600,
        since: 2,
        run: None,
        closing: true,
        part: 0,
        last_part: 0,
        wrapped: "b4a2f094a951a7ae403bc06e531e90215e49bf45ada2c76b00b84d792f900e8b",
        check: "4f7b67895a45d6f3e0f1643b90256e48",
        positions: &[(256, 281474976710655)],
        packet: "4741f1100081b0530000c100000000000300000001000000010000025801b4a2f094a951a7ae403bc06e531e90215e49bf45\
                ada2c76b00b84d792f900e8b4f7b67895a45d6f3e0f1643b90256e48010100ffffffffffff26362082",
    },
    Row {
        version: 1,
        number: 1013,
        period: 9,
        word: 27,
        clear: 200000,
        since: 1012,
        run: None,
        closing: false,
        part: 0,
        last_part: 0,
        wrapped: "c8b8a92d0ce8e22411cbbde8f1bc4d182de3b01c9f8cb0ef6e325f5df19d9980",
        check: "5313889c4c04d762cf43660911930195",
        positions: &[
            (597, 798504419324),
            (652, 213015765935),
            (1405, 406964225645),
            (1734, 458738682031),
            (2009, 492498882413),
            (2023, 157333129824),
            (2247, 329068568053),
            (2777, 723813207947),
            (2938, 172068352485),
            (3561, 325881963265),
            (4244, 281022784659),
            (4576, 3430653209),
            (5990, 576498223104),
        ],
        packet: "4741f11c0081b0b30000c10000000003f5000000090000001b00030d4000c8b8a92d0ce8e22411cbbde8f1bc4d182de3b01c\
                9f8cb0ef6e325f5df19d99805313889c4c04d762cf436609119301950d025500b9ea927ffc028c003198baa3af057d005ec0\
                f5466d06c6006acef4c8af07d90072ab388f6d07e70024a1c90a6008c7004c9e03ddf50ad900a886a10f8b0b7a00281012b1\
                e50de9004be0142301109400416e43649311e00000cc7b9d191766008639f8c8007e87a66c",
    },
    Row {
        version: 1,
        number: 1014,
        period: 9,
        word: 29,
        clear: 200000,
        since: 1013,
        run: None,
        closing: false,
        part: 0,
        last_part: 1,
        wrapped: "8fdac453c8c8cbf4729ec8fd90ce1e2529cf41c7257a1f16ddcb7562aad6fafb",
        check: "c882e2a41f76bd11f8e94eed67ccbc9f",
        positions: &[
            (1182, 352821089354),
            (1451, 1078253369948),
            (1954, 275335460963),
            (2376, 1094884033069),
            (3013, 587923387337),
            (3173, 1004299465597),
            (3600, 534650754710),
            (3713, 69536326824),
            (3815, 213364145886),
            (4012, 286889944154),
            (5470, 199778114072),
            (5982, 1059283342755),
            (6353, 392361087815),
        ],
        packet: "4741f11e0081b0b30000c10001000003f6000000090000001d00030d40008fdac453c8c8cbf4729ec8fd90ce1e2529cf41c7\
                257a1f16ddcb7562aad6fafbc882e2a41f76bd11f8e94eed67ccbc9f0d049e005225c6944a05ab00fb0ce8ba5c07a200401b\
                45b863094800feec2c822d0bc50088e2f6f3c90c6500e9d4e9b37d0e10007c7bab16960e81001030b024a80ee70031ad7e7e\
                de0fac0042cbf9245a155e002e83b41a18175e00f6a23515a318d1005b5a8b13477337e24e",
    },
    Row {
        version: 1,
        number: 1014,
        period: 9,
        word: 29,
        clear: 200000,
        since: 1013,
        run: None,
        closing: false,
        part: 1,
        last_part: 1,
        wrapped: "8fdac453c8c8cbf4729ec8fd90ce1e2529cf41c7257a1f16ddcb7562aad6fafb",
        check: "c882e2a41f76bd11f8e94eed67ccbc9f",
        positions: &[(8041, 132564198584)],
        packet: "4741f1150081b0530000c10101000003f6000000090000001d00030d40008fdac453c8c8cbf4729ec8fd90ce1e2529cf41c7\
                257a1f16ddcb7562aad6fafbc882e2a41f76bd11f8e94eed67ccbc9f011f69001edd7124b87db89aa8",
    },
    Row {
        version: 1,
        number: 1030,
        period: 9,
        word: 61,
        clear: 200000,
        since: 1029,
        run: None,
        closing: false,
        part: 0,
        last_part: 2,
        wrapped: "863c21734259242e0151703c47090a817530e24f7fc117efa71c4548d4c8015b",
        check: "02e5dc63036fd9385b071da31e4c9483",
        positions: &[
            (295, 543399325861),
            (342, 408884786562),
            (663, 155507401692),
            (758, 400625257146),
            (1109, 957799869149),
            (1173, 999244846649),
            (2428, 479259905102),
            (2559, 102416871556),
            (2769, 312174809646),
            (2974, 554055923427),
            (3033, 71595363809),
            (3035, 517234271876),
            (3163, 1086620328187),
        ],
        packet: "4741f1110081b0b30000c1000200000406000000090000003d00030d4000863c21734259242e0151703c47090a817530e24f\
                7fc117efa71c4548d4c8015b02e5dc63036fd9385b071da31e4c94830d0127007e851fb0a50156005f336eb5820297002434\
                f6a3dc02f6005d47204aba045500df01522add049500e8a7a25639097c006f961dcc4e09ff0017d88570840ad10048af1192\
                2e0b9e0081004e76e30bd90010ab6a8de10bdb00786d90a6840c5b00fcff9e60fb706d895d",
    },
    Row {
        version: 1,
        number: 1030,
        period: 9,
        word: 61,
        clear: 200000,
        since: 1029,
        run: None,
        closing: false,
        part: 1,
        last_part: 2,
        wrapped: "863c21734259242e0151703c47090a817530e24f7fc117efa71c4548d4c8015b",
        check: "02e5dc63036fd9385b071da31e4c9483",
        positions: &[
            (3719, 703120620747),
            (3763, 1060388374149),
            (3774, 476598879635),
            (3926, 271162225928),
            (4048, 321722359409),
            (4495, 670360214763),
            (4823, 1063176217283),
            (4865, 992944599764),
            (5069, 651137639079),
            (5150, 279553007491),
            (5610, 260523695293),
            (6134, 566488027360),
            (6297, 313737546326),
        ],
        packet: "4741f1190081b0b30000c1010200000406000000090000003d00030d4000863c21734259242e0151703c47090a817530e24f\
                7fc117efa71c4548d4c8015b02e5dc63036fd9385b071da31e4c94830d0e8700a3b5413ccb0eb300f6e41286850ebe006ef7\
                81c5930f56003f228735080fd0004ae8259e71118f009c14951ceb12d700f78a3da2c3130100e7301c32d413cd00979ad3e2\
                a7141e004116a85f8315ea003ca86c1cbd17f60083e55150e0189900490c370a567ce72dec",
    },
    Row {
        version: 1,
        number: 1030,
        period: 9,
        word: 61,
        clear: 200000,
        since: 1029,
        run: None,
        closing: false,
        part: 2,
        last_part: 2,
        wrapped: "863c21734259242e0151703c47090a817530e24f7fc117efa71c4548d4c8015b",
        check: "02e5dc63036fd9385b071da31e4c9483",
        positions: &[
            (6329, 451923595333),
            (6793, 690230123156),
            (6889, 125919489579),
            (7169, 206353884269),
        ],
        packet: "4741f1110081b06b0000c1020200000406000000090000003d00030d4000863c21734259242e0151703c47090a817530e24f\
                7fc117efa71c4548d4c8015b02e5dc63036fd9385b071da31e4c94830418b9006938bed0451a8900a0b4ebda941ae9001d51\
                62ee2b1c0100300ba6646d6fc1505c",
    },
    Row {
        version: 2,
        number: 1,
        period: 0,
        word: 0,
        clear: 200,
        since: 0,
        run: None,
        closing: false,
        part: 0,
        last_part: 0,
        wrapped: "8229606edb4eb380c6745a1a0ef112fb4f37fd1a5ac322f2eb828187831d8c40",
        check: "16f21bec8b49a29a6bf944da8fbb98bb",
        positions: &[(256, 159), (257, 65), (4096, 17)],
        packet: "4741f1110084b0670000c10000000000010000000000000000000000c800000000008229606edb4eb380c6745a1a0ef112fb\
                4f37fd1a5ac322f2eb828187831d8c4016f21bec8b49a29a6bf944da8fbb98bb03010000000000009f010100000000004110\
                000000000000119c817a38",
    },
    Row {
        version: 2,
        number: 2,
        period: 1,
        word: 1,
        clear: 400,
        since: 0,
        run: None,
        closing: false,
        part: 0,
        last_part: 0,
        wrapped: "3933c5b07ef90f02305a8ff3b58c90f2c6a5ba584e42c0eb236e29888aeeb14a",
        check: "bfa8807f785e1fc8f7f055a5753372b8",
        positions: &[(256, 303), (257, 115), (4096, 19)],
        packet: "4741f1120085b0670000c100000000000200000001000000010000019000000000003933c5b07ef90f02305a8ff3b58c90f2\
                c6a5ba584e42c0eb236e29888aeeb14abfa8807f785e1fc8f7f055a5753372b803010000000000012f010100000000007310\
                00000000000013807638cc",
    },
    Row {
        version: 2,
        number: 3,
        period: 1,
        word: 1,
        clear: 600,
        since: 2,
        run: None,
        closing: true,
        part: 0,
        last_part: 0,
        wrapped: "3933c5b07ef90f02305a8ff3b58c90f2c6a5ba584e42c0eb236e29888aeeb14a",
        check: "bfa8807f785e1fc8f7f055a5753372b8",
        positions: &[(256, 447), (257, 165), (4096, 21)],
        packet: "4741f1130085b0670000c100000000000300000001000000010000025800000002013933c5b07ef90f02305a8ff3b58c90f2\
                c6a5ba584e42c0eb236e29888aeeb14abfa8807f785e1fc8f7f055a5753372b80301000000000001bf01010000000000a510\
                0000000000001554a21909",
    },
    Row {
        version: 2,
        number: 6,
        period: 2,
        word: 2,
        clear: 240,
        since: 3,
        run: None,
        closing: false,
        part: 0,
        last_part: 1,
        wrapped: "ac4874446c195930fb444ed85e64001a816f52753e56b767f7e629e8acd38524",
        check: "bc169e5df6f281d0db5e496724b6c420",
        positions: &[
            (256, 123),
            (257, 23),
            (258, 23),
            (259, 23),
            (260, 23),
            (261, 23),
            (262, 23),
            (263, 23),
            (264, 23),
            (265, 23),
            (266, 23),
            (267, 23),
        ],
        packet: "4741f1160084b0af0000c10001000000060000000200000002000000f00000000300ac4874446c195930fb444ed85e64001a\
                816f52753e56b767f7e629e8acd38524bc169e5df6f281d0db5e496724b6c4200c010000000000007b010100000000001701\
                0200000000001701030000000000170104000000000017010500000000001701060000000000170107000000000017010800\
                00000000170109000000000017010a000000000017010b00000000001779c6402f",
    },
    Row {
        version: 2,
        number: 6,
        period: 2,
        word: 2,
        clear: 240,
        since: 3,
        run: None,
        closing: false,
        part: 1,
        last_part: 1,
        wrapped: "ac4874446c195930fb444ed85e64001a816f52753e56b767f7e629e8acd38524",
        check: "bc169e5df6f281d0db5e496724b6c420",
        positions: &[(268, 23), (269, 23), (270, 23), (271, 22), (4096, 23)],
        packet: "4741f1170084b0770000c10101000000060000000200000002000000f00000000300ac4874446c195930fb444ed85e64001a\
                816f52753e56b767f7e629e8acd38524bc169e5df6f281d0db5e496724b6c42005010c000000000017010d00000000001701\
                0e000000000017010f000000000016100000000000001741884403",
    },
    Row {
        version: 3,
        number: 0,
        period: 1,
        word: 2,
        clear: 0,
        since: 0,
        run: Some(2),
        closing: false,
        part: 0,
        last_part: 0,
        wrapped: "9d331461fca0601d0d2a4d1e1ee5d59d2379e975793a2c4aa8ae15082309dd27",
        check: "bc169e5df6f281d0db5e496724b6c420",
        positions: &[],
        packet: "4741f1100088b0530000c10000000000000000000100000002000000000000000000000002009d331461fca0601d0d2a4d1e1e\
                e5d59d2379e975793a2c4aa8ae15082309dd27bc169e5df6f281d0db5e496724b6c42000905316ad",
    },
    Row {
        version: 3,
        number: 1,
        period: 1,
        word: 2,
        clear: 200,
        since: 0,
        run: Some(2),
        closing: false,
        part: 0,
        last_part: 0,
        wrapped: "9d331461fca0601d0d2a4d1e1ee5d59d2379e975793a2c4aa8ae15082309dd27",
        check: "bc169e5df6f281d0db5e496724b6c420",
        positions: &[(256, 159), (257, 65), (4096, 17)],
        packet: "4741f1110088b06b0000c10000000000010000000100000002000000c80000000000000002009d331461fca0601d0d2a4d1e1e\
                e5d59d2379e975793a2c4aa8ae15082309dd27bc169e5df6f281d0db5e496724b6c42003010000000000009f010100000000004\
                110000000000000112e1599a6",
    },
    Row {
        version: 3,
        number: 3,
        period: 1,
        word: 3,
        clear: 600,
        since: 2,
        run: Some(2),
        closing: true,
        part: 0,
        last_part: 0,
        wrapped: "e118513884f5db6ccd67474cb26228a1ec18e2f34754600595ba3f8ad1552eeb",
        check: "587a224989055a6bc416e85f0ddcf48b",
        positions: &[(256, 447), (257, 165), (4096, 21)],
        packet: "4741f1130089b06b0000c1000000000003000000010000000300000258000000020000000201e118513884f5db6ccd67474cb2\
                6228a1ec18e2f34754600595ba3f8ad1552eeb587a224989055a6bc416e85f0ddcf48b0301000000000001bf01010000000000a\
                510000000000000151c1ed9f5",
    },
    Row {
        version: 3,
        number: 6,
        period: 9,
        word: 303,
        clear: 240,
        since: 4,
        run: Some(300),
        closing: false,
        part: 0,
        last_part: 1,
        wrapped: "59bd374d3456cc1f4a8530e3d47f3f4b3cb13b972bfe38c60d77bc511c004490",
        check: "b659e6949399b4c5567cfeca5dbb4e44",
        positions: &[
            (256, 123),
            (257, 23),
            (258, 23),
            (259, 23),
            (260, 23),
            (261, 23),
            (262, 23),
            (263, 23),
            (264, 23),
            (265, 23),
            (266, 23),
            (267, 23),
        ],
        packet: "4741f1160089b0b30000c1000100000006000000090000012f000000f0000000040000012c0059bd374d3456cc1f4a8530e3d4\
                7f3f4b3cb13b972bfe38c60d77bc511c004490b659e6949399b4c5567cfeca5dbb4e440c010000000000007b010100000000001\
                7010200000000001701030000000000170104000000000017010500000000001701060000000000170107000000000017010800\
                00000000170109000000000017010a000000000017010b00000000001760e4ee3a",
    },
    Row {
        version: 3,
        number: 6,
        period: 9,
        word: 303,
        clear: 240,
        since: 4,
        run: Some(300),
        closing: false,
        part: 1,
        last_part: 1,
        wrapped: "59bd374d3456cc1f4a8530e3d47f3f4b3cb13b972bfe38c60d77bc511c004490",
        check: "b659e6949399b4c5567cfeca5dbb4e44",
        positions: &[(268, 23), (269, 23), (270, 23), (271, 22), (4096, 23)],
        packet: "4741f1170089b07b0000c1010100000006000000090000012f000000f0000000040000012c0059bd374d3456cc1f4a8530e3d4\
                7f3f4b3cb13b972bfe38c60d77bc511c004490b659e6949399b4c5567cfeca5dbb4e4405010c000000000017010d00000000001\
                7010e000000000017010f000000000016100000000000001777641e57",
    },
];

// The rows. Other functions call this one, since a check walks the whole table in each function that names it.
fn rows() -> &'static [Row] {
    &ROWS
}

fn positions_of(row: &Row) -> Option<[Place; 13]> {
    let nothing = Place {
        pid: 0,
        position: 0,
    };
    let mut positions = [nothing; 13];
    for (k, (pid, position)) in row.positions.iter().enumerate() {
        *positions.get_mut(k)? = Place {
            pid: *pid,
            position: *position,
        };
    }
    Some(positions)
}

fn wrapped_of(row: &Row) -> Option<[u8; 32]> {
    <[u8; 32] as FromHex>::from_hex(row.wrapped).ok()
}

fn check_of(row: &Row) -> Option<[u8; 16]> {
    <[u8; 16] as FromHex>::from_hex(row.check).ok()
}

fn part_of(row: &Row) -> Option<EcmPart> {
    let wrapped = wrapped_of(row)?;
    let check = check_of(row)?;
    let positions = positions_of(row)?;
    Some(EcmPart {
        version: row.version,
        number: row.number,
        period: row.period,
        word: row.word,
        clear: row.clear,
        since: row.since,
        run: row.run,
        closing: row.closing,
        part: row.part,
        last_part: row.last_part,
        wrapped,
        check,
        count: u8::try_from(row.positions.len()).ok()?,
        positions,
    })
}

// The packet, read and written again.
fn written_again(packet: &Packet) -> Option<Packet> {
    let part = read_ecm(packet).ok()??;
    Some(write_ecm(&part, packet.pid(), packet.counter()))
}

// Whether the row's packet is read as its part, and written again as it was.
fn goes_both_ways(row: &Row) -> Option<bool> {
    let packet = packet_of(row.packet)?;
    let is_read = read_ecm(&packet) == Ok(Some(part_of(row)?));
    Some(is_read && written_again(&packet)?.bytes() == packet.bytes())
}

#[test]
fn messages_both_ways(rt: HostRuntime) {
    for row in rows() {
        assert!(rt; goes_both_ways(row) == Some(true), "{}", row.packet);
    }
}

// The positions of these rows, one after the other.
fn places_of(alloc: Global, rows: &[Row]) -> Option<Vec<Place>> {
    let mut places = Vec::new(alloc);
    for row in rows {
        let part = part_of(row)?;
        let own = part.positions.get(..usize::from(part.count))?;
        places.extend_from_slice(own).ok()?;
    }
    Some(places)
}

// The part of this row's number of the message that has these positions and says what the row does.
fn part_again(row: &Row, places: &[Place]) -> Option<EcmPart> {
    let due = part_of(row)?;
    let head = due.head();
    if places.len() <= MOST_PLACES && due.part < part_count(head.version, places.len()) {
        Some(EcmPart::of_message(&head, places, due.part))
    } else {
        None
    }
}

// Whether the row's part is made again of all positions, and has the header of the first.
fn is_made_again(row: &Row, places: &[Place], first: &EcmPart) -> bool {
    match part_of(row) {
        Some(due) => part_again(row, places) == Some(due) && due.same_header(first),
        None => false,
    }
}

// Whether the message of these rows has a part for each, and each is made again.
fn are_made_again(alloc: Global, rows: &[Row]) -> Option<bool> {
    let places = places_of(alloc, rows)?;
    let first = part_of(rows.first()?)?;
    if places.len() > MOST_PLACES {
        return None;
    }
    let count = usize::from(part_count(first.version, places.len()));
    let are_made = rows.iter().all(|row| is_made_again(row, &places, &first));
    Some(count == rows.len() && are_made)
}

// The first row of each message, and how many rows it has.
static MESSAGES: [(usize, usize); 8] = [
    (0, 1),
    (1, 1),
    (4, 2),
    (6, 3),
    (9, 1),
    (12, 2),
    (15, 1),
    (17, 2),
];

#[test]
fn parts_of_messages(rt: HostRuntime) {
    for (first, count) in &MESSAGES {
        let rows = rows().get(*first..first.saturating_add(*count));
        let made = rows.and_then(|rows| are_made_again(rt.alloc(), rows));
        assert!(rt; made == Some(true), "the message of row {first}");
    }
}

// A count, a length, a part that isn't the last with 3 positions, and with 12, a last part with none; in version 2 13
// positions, and in version 3; a part of version 2 under a table_id of version 1, and one of version 3 under one of
// version 2; a part that isn't the last, before its PID and flags.
static OTHER_COUNTS: [Change; 10] = [
    (1, &[(78, 4)]),
    (1, &[(7, 0x64)]),
    (1, &[(12, 1)]),
    (6, &[(7, 0xAB), (78, 12)]),
    (0, &[(11, 1), (12, 1)]),
    (12, &[(82, 13)]),
    (17, &[(86, 13)]),
    (9, &[(5, 0x80)]),
    (15, &[(5, 0x84)]),
    (1, &[(12, 1), (79, 0x20), (29, 2)]),
];

// PIDs below 0x0020 and above 0x1FEF; one beside a PID that stands twice.
static OTHER_PIDS: [Change; 3] = [
    (1, &[(79, 0x00), (80, 0x1F)]),
    (1, &[(95, 0x1F), (96, 0xF0)]),
    (1, &[(80, 1), (95, 0x1F), (96, 0xF0)]),
];

// 0x0101 before 0x0100, and twice; twice under table_id 0x81 for an even control word.
static OTHER_ORDERS: [Change; 3] = [
    (1, &[(80, 1), (88, 0)]),
    (1, &[(80, 1)]),
    (1, &[(80, 1), (5, 0x81)]),
];

// Flags 2; table_id 0x81 for an even control word; in version 2 a `since` that is the number and one above it, and
// another parity; in version 3 flags 2, and another parity.
static OTHER_HEADS: [Change; 7] = [
    (1, &[(29, 2)]),
    (1, &[(5, 0x81)]),
    (9, &[(32, 1)]),
    (9, &[(32, 2)]),
    (9, &[(5, 0x85)]),
    (15, &[(37, 2)]),
    (15, &[(5, 0x89)]),
];

// table_id, the bit after the syntax indicator, version, extension, part above the last, pointer, unit start, length,
// in version 3 too.
static OTHER_KINDS: [Change; 9] = [
    (1, &[(5, 0x82)]),
    (1, &[(6, 0xF0)]),
    (1, &[(10, 0xC3)]),
    (1, &[(9, 1)]),
    (1, &[(11, 1)]),
    (1, &[(4, 1)]),
    (1, &[(1, 0x01)]),
    (0, &[(7, 0x4A)]),
    (14, &[(7, 0x52)]),
];

// Whether each packet that is changed so is read as this.
fn are_read_as(changes: &[Change], due: Result<Option<EcmPart>, EcmFault>) -> bool {
    for (row, bytes) in changes {
        let packet = rows().get(*row).and_then(|row| changed(row.packet, bytes));
        if packet.map(|packet| read_ecm(&packet)) != Some(due) {
            return false;
        }
    }
    true
}

#[test]
fn faults_in_order(rt: HostRuntime) {
    assert!(rt; are_read_as(&OTHER_COUNTS, Err(EcmFault::Count)));
    assert!(rt; are_read_as(&OTHER_PIDS, Err(EcmFault::Pid)));
    assert!(rt; are_read_as(&OTHER_ORDERS, Err(EcmFault::Order)));
    assert!(rt; are_read_as(&OTHER_HEADS, Err(EcmFault::Mixed)));
    assert!(rt; are_read_as(&OTHER_KINDS, Ok(None)));
}

// Whether the packet is read as this whichever of these bytes has a bit flipped.
fn is_still_read_as(packet: &Packet, places: Range<usize>, due: Option<EcmPart>) -> bool {
    for place in places {
        if flipped(packet, place).map(|packet| read_ecm(&packet)) != Some(Ok(due)) {
            return false;
        }
    }
    true
}

// Whether a flipped bit of the row's packet makes no other part: the header's PID, the counter and what stands after
// the section aren't read.
fn is_spoilt_by_flips(row: &Row) -> Option<bool> {
    let packet = packet_of(row.packet)?;
    let due = Some(part_of(row)?);
    Some(
        is_still_read_as(&packet, 1..4, due)
            && is_still_read_as(&packet, 4..107, None)
            && is_still_read_as(&packet, 107..188, due),
    )
}

#[test]
fn no_bit_makes_another_message(rt: HostRuntime) {
    assert!(rt; rows().get(1).and_then(is_spoilt_by_flips) == Some(true));
}
