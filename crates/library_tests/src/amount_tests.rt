use amount::{Amount, Volume, Water, greatest_plus_one, sum};

#[test]
fn both_kinds_are_summed(rt: HostRuntime) {
    let volumes = [
        Volume { units: 7 },
        Volume { units: -10 },
        Volume { units: 1 },
    ];
    assert_eq!(rt; sum(&volumes).units, -2);
    let waters = [
        Water { v: 1, p: 2, q: 3 },
        Water {
            v: i32::MAX,
            p: -5,
            q: 0,
        },
    ];
    let all = sum(&waters);
    assert_eq!(rt; all.v, i32::MIN);
    assert_eq!(rt; all.p, -3);
    assert_eq!(rt; all.q, 3);
}

#[test]
fn volumes_wrap(rt: HostRuntime) {
    assert_eq!(rt; greatest_plus_one().units, i64::MIN);
    let least = Volume { units: i64::MIN };
    assert_eq!(rt; least.neg().units, i64::MIN);
}
