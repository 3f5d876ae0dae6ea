use oti_fields::{
    Codec, FieldFault, Oti, PacketId, check_oti, read_id, read_oti, write_id, write_oti,
};
use std::process::Abort;
use std::test::Fail;

const THREE_OF_SEVEN: Oti = Oti {
    length: 3,
    symbol: 1,
    n1m3: 0,
    group: 1,
    block: 3,
    max_n: 7,
    seed: 1,
};

const SPELLED: [u8; 18] = [0, 0, 0, 0, 0, 3, 0, 1, 1, 0, 0, 0x30, 0, 7, 0, 0, 0, 1];

#[test]
fn fields_go_both_ways(rt: HostRuntime) -> Result<(), Fail> {
    let mut bytes = [0xFF; 18];
    write_oti(&THREE_OF_SEVEN, &mut bytes);
    assert!(rt; bytes == SPELLED);
    assert!(rt; read_oti(Codec::Staircase, &bytes)? == THREE_OF_SEVEN);
    Ok(())
}

#[test]
fn sizes_share_five_bytes(rt: HostRuntime) {
    let mut bytes = [0; 18];
    let oti = Oti {
        block: 1000,
        max_n: 1500,
        n1m3: 7,
        ..THREE_OF_SEVEN
    };
    write_oti(&oti, &mut bytes);
    assert!(rt; &bytes[8..14] == [0xE1, 0x00, 0x3E, 0x80, 0x05, 0xDC].as_slice());
}

// The fields of a codec have this fault first.
fn check(rt: &impl Abort, codec: Codec, oti: Oti, fault: Option<FieldFault>) {
    assert!(rt; oti.n1m3 < 8 && oti.group < 32 && oti.symbol < 65_536);
    assert!(rt; oti.length < 1 << 48 && oti.block < 1 << 20 && oti.max_n < 1 << 20);
    assert!(rt; check_oti(codec, &oti).err() == fault);
}

#[test]
fn the_first_fault_of_an_ldpc_code_is_named(rt: HostRuntime) {
    // The symbol length, G, the greatest block length, the greatest n, the seed, and the fault.
    let cases = [
        (1, 1, 3, 7, 1, None),
        (0, 2, 3, 7, 1, Some(FieldFault::SymbolZero)),
        (1, 2, 0, 7, 1, Some(FieldFault::GroupNotOne)),
        (1, 1, 0, 7, 1, Some(FieldFault::BlockZero)),
        (1, 1, 3, 2, 0, Some(FieldFault::MaxBelowBlock)),
        (1, 1, 3, 65_537, 0, Some(FieldFault::MaxTooLarge)),
        (1, 1, 3, 7, 0, Some(FieldFault::SeedRange)),
        (1, 1, 3, 7, 2_147_483_647, Some(FieldFault::SeedRange)),
    ];
    for (symbol, group, block, max_n, seed, fault) in cases {
        let oti = Oti {
            length: 3,
            symbol,
            n1m3: 0,
            group,
            block,
            max_n,
            seed,
        };
        check(&rt, Codec::Staircase, oti, fault);
        check(&rt, Codec::Triangle, oti, fault);
    }
}

#[test]
fn the_first_fault_of_a_grid_is_named(rt: HostRuntime) {
    // The codec, N1 - 3, the greatest n, the width, and the fault.
    let cases = [
        (Codec::Parity2d, 0, 10, 3, None),
        (Codec::Parity2d, 1, 10, 0, Some(FieldFault::WidthZero)),
        (Codec::Parity2d, 0, 11, 3, Some(FieldFault::NotFixed)),
        (Codec::Parity2d, 1, 10, 3, Some(FieldFault::NotFixed)),
        (Codec::Corner2d, 0, 11, 3, None),
        (Codec::Corner2d, 1, 11, 0, Some(FieldFault::WidthZero)),
        (Codec::Corner2d, 0, 10, 3, Some(FieldFault::NotFixed)),
        (Codec::Corner2d, 1, 11, 3, Some(FieldFault::NotFixed)),
    ];
    for (codec, n1m3, max_n, seed, fault) in cases {
        let oti = Oti {
            n1m3,
            block: 5,
            max_n,
            seed,
            ..THREE_OF_SEVEN
        };
        check(&rt, codec, oti, fault);
    }
}

#[test]
fn faults_are_numbered_in_their_order(rt: HostRuntime) {
    assert!(rt; FieldFault::SymbolZero.number() == 1);
    assert!(rt; FieldFault::SeedRange.number() == 6);
    assert!(rt; FieldFault::NotFixed.number() == 8);
}

#[test]
fn identifiers_go_both_ways(rt: HostRuntime) {
    let mut bytes = [0; 4];
    write_id(PacketId { sbn: 0, esi: 6 }, &mut bytes);
    assert!(rt; bytes == [0, 0, 0, 6]);
    write_id(PacketId { sbn: 1, esi: 0 }, &mut bytes);
    assert!(rt; bytes == [0, 0x10, 0, 0]);
    assert!(rt; read_id(&bytes) == (PacketId { sbn: 1, esi: 0 }));
    assert!(rt;
        read_id(&[0xFF; 4])
            == (PacketId {
                sbn: 4095,
                esi: 1_048_575
            })
    );
}
