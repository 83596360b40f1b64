use text::{field_count, number};

#[test]
fn numbers_are_short_and_signed(rt: HostRuntime) {
    assert_eq!(rt; number(b"-12"), Some(-12));
    assert_eq!(rt; number(b"-0"), Some(0));
    assert_eq!(rt; number(b"-"), None);
    assert_eq!(rt; number(b"12345678901"), None);
}

#[test]
fn empty_fields_count(rt: HostRuntime) {
    assert_eq!(rt; field_count(b"a,,b,"), 4);
}
