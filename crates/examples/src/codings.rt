use coding::Coding;
use coding::block::Block;
use coding::manchester::Manchester;
use radio::symbol::Symbol;
use radio::symbol::Symbol::{Clean, Spoiled};

/// What a coding reads of four symbols.
fn three_of<C: Coding>(coding: C, four: [Symbol; 4]) -> (Symbol, Symbol, Symbol)
where
    C: Drop,
{
    let [a, b, c, d] = four;
    let [x, y, z, ..] = coding.decode(&[a, b, c, d, Spoiled, Spoiled, Spoiled, Spoiled]);
    (x, y, z)
}

#[test]
fn block_appends_the_sum(rt: HostRuntime) {
    let [a, b, c, d, ..] = Block {}.encode(&[0x7F, 0x00, 0x95, 1, 2, 3, 4, 5]);
    assert_eq!(rt; (a, b, c, d), (0x7F, 0x00, 0x95, 0x14));
}

#[test]
fn block_works_out_one(rt: HostRuntime) {
    let read = three_of(Block {}, [Clean(0x7F), Spoiled, Clean(0x95), Clean(0x14)]);
    assert_eq!(rt; read, (Clean(0x7F), Clean(0x00), Clean(0x95)));
}

#[test]
fn block_spoils_a_wrong_sum(rt: HostRuntime) {
    let read = three_of(
        Block {},
        [Clean(0x7F), Clean(0x00), Clean(0x95), Clean(0x15)],
    );
    assert_eq!(rt; read, (Spoiled, Spoiled, Spoiled));
}

#[test]
fn manchester_codes_both_halves(rt: HostRuntime) {
    let [a, b, ..] = Manchester {}.encode(&[0x7F, 1, 2, 3, 4, 5, 6, 7]);
    assert_eq!(rt; (a, b), (0x6A, 0xAA));
}

#[test]
fn manchester_reads_code_octets_only(rt: HostRuntime) {
    let (read, _, _) = three_of(Manchester {}, [Clean(0x96), Clean(0x66), Spoiled, Spoiled]);
    assert_eq!(rt; read, Clean(0x95));
    let (read, _, _) = three_of(Manchester {}, [Clean(0x96), Clean(0x67), Spoiled, Spoiled]);
    assert_eq!(rt; read, Spoiled);
}
