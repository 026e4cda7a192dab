//! Heights of lines and times of maps, each computed by hand.
use clock_fraction::{Line, PairMap, Slope, compare, laws};
use std::cmp::Ordering;

// One clock gains a part in a thousand, the other loses one.
const STEEP: Line = Line {
    x0: 100,
    y0: 50,
    slope: Slope { p: 1001, q: 1000 },
};

const FLAT: Line = Line {
    x0: 1100,
    y0: 1150,
    slope: Slope { p: 999, q: 1000 },
};

const EVEN: Slope = Slope { p: 1, q: 1 };

const GREATEST: u64 = 0x3fff_ffff_ffff_ffff;

#[test]
fn heights_on_the_right(rt: HostRuntime) {
    assert_eq!(rt; STEEP.floor_at(100), 50);
    assert_eq!(rt; STEEP.floor_at(101), 51);
    assert_eq!(rt; STEEP.floor_at(500), 450);
    assert_eq!(rt; STEEP.floor_at(1100), 1051);
    assert_eq!(rt; FLAT.floor_at(2100), 2149);
}

// 50 - 1.001 and 50 - 100.1, 1150 - 599.4, 1150 - 999 and 1150 - 1098.9
#[test]
fn heights_on_the_left_are_rounded_down(rt: HostRuntime) {
    assert_eq!(rt; STEEP.floor_at(99), 48);
    assert_eq!(rt; STEEP.floor_at(0), -51);
    assert_eq!(rt; FLAT.floor_at(500), 550);
    assert_eq!(rt; FLAT.floor_at(100), 151);
    assert_eq!(rt; FLAT.floor_at(0), 51);
}

// 2^124 - 2^62, and -(2^62 - 1)^2
#[test]
fn the_greatest_and_the_least_height(rt: HostRuntime) {
    let slope = Slope { p: GREATEST, q: 1 };
    let high = Line {
        x0: 0,
        y0: GREATEST,
        slope,
    };
    assert_eq!(rt;
        high.floor_at(GREATEST),
        21267647932558653961849226946058125312
    );
    let low = Line {
        x0: GREATEST,
        y0: 0,
        slope,
    };
    assert_eq!(rt; low.floor_at(0), -21267647932558653957237540927630737409);
}

// (450 + 550) / 2, (50 + 151) / 2, (-51 + 51) / 2, (1051 + 1150) / 2
#[test]
fn half_way_between_two_lines(rt: HostRuntime) {
    let map = PairMap {
        steep: STEEP,
        flat: FLAT,
    };
    assert_eq!(rt; map.map(500), 500);
    assert_eq!(rt; map.map(100), 100);
    assert_eq!(rt; map.map(0), 0);
    assert_eq!(rt; map.map(1100), 1100);
}

#[test]
fn times_below_the_first(rt: HostRuntime) {
    let line = Line {
        x0: 1000,
        y0: 0,
        slope: EVEN,
    };
    let map = PairMap {
        steep: line,
        flat: line,
    };
    assert_eq!(rt; map.map(500), 0);
    assert_eq!(rt; map.map(1000), 0);
    assert_eq!(rt; map.map(1001), 1);
}

#[test]
fn times_past_the_last(rt: HostRuntime) {
    let line = Line {
        x0: 10,
        y0: GREATEST,
        slope: EVEN,
    };
    let map = PairMap {
        steep: line,
        flat: line,
    };
    assert_eq!(rt; map.map(9), 4611686018427387902);
    assert_eq!(rt; map.map(10), 4611686018427387903);
    assert_eq!(rt; map.map(15), 4611686018427387903);
}

// 1001 * 1000000 is below 1001001 * 1000; and with n = 2^62, (n - 1) * (n - 3) is one below (n - 2)^2.
#[test]
fn order_of_slopes(rt: HostRuntime) {
    assert_eq!(rt;
        compare(Slope { p: 2, q: 4 }, Slope { p: 1, q: 2 }),
        Ordering::Equal
    );
    let thousandth = Slope { p: 1001, q: 1000 };
    assert_eq!(rt;
        compare(
            thousandth,
            Slope {
                p: 1001001,
                q: 1000000
            }
        ),
        Ordering::Less
    );
    assert_eq!(rt; compare(thousandth, EVEN), Ordering::Greater);
    let near = Slope {
        p: GREATEST,
        q: GREATEST - 1,
    };
    assert_eq!(rt;
        compare(
            near,
            Slope {
                p: GREATEST - 1,
                q: GREATEST - 2
            }
        ),
        Ordering::Less
    );
}

// Laws do nothing, so nothing is asserted here: that this is proved shows that a caller can meet what they need.
#[test]
fn laws_can_be_called() {
    laws::one_floor(&STEEP, 500);
    let map = PairMap {
        steep: STEEP,
        flat: FLAT,
    };
    laws::one_time(&map, 500);
    laws::rises(&map, 0, 500);
}
