use grid::cell::Cell;
use grounds::noise::Noise;
use grounds::splitmix::splitmix64;

// The outputs that are published for seed 0.
#[test]
fn published_outputs(rt: HostRuntime) {
    let published = [
        0xE220_A839_7B1D_CDAF,
        0x6E78_9E6A_A1B9_65F4,
        0x06C4_5D18_8009_454F,
        0xF88B_B8A8_724C_81EC,
    ];
    for (k, expected) in (0u64..4).zip(published) {
        assert_eq!(rt; splitmix64(0, k), expected);
    }
}

#[test]
fn heights_of_the_reference(rt: HostRuntime) {
    let cases = [
        (0, 0, 0, 3618),
        (0, 3, 0, 3976),
        (0, -1, -1, 0),
        (0, i32::MIN, i32::MAX, 3723),
        (7, -8, 7, 1911),
        (7, -9, 0, 1715),
        (u64::MAX, 1_000_000_000, -1_000_000_000, 3466),
        (u64::MAX, -1_000_000_001, 5, 755),
    ];
    for (seed, x, y, expected) in cases {
        assert_eq!(rt; Noise::new(seed).height(Cell { x, y }), expected);
    }
}
