use sd_base::{Fraction, gcd, lcm_within};
use std::cmp::Ordering;

#[test]
fn greatest_divisors(rt: HostRuntime) {
    for (a, b, g) in [
        (12u64, 18u64, 6u64),
        (7, 5, 1),
        (0, 9, 9),
        (9, 0, 9),
        (0, 0, 0),
    ] {
        assert_eq!(rt; gcd(a, b), g, "of {a} and {b}");
    }
}

#[test]
fn least_multiples_within_a_limit(rt: HostRuntime) {
    assert_eq!(rt; lcm_within(4, 6, 12), Some(12));
    assert_eq!(rt; lcm_within(4, 6, 11), None);
    assert_eq!(rt; lcm_within(1, 1, 0), None);
    assert_eq!(rt; lcm_within(u64::MAX, u64::MAX, u64::MAX), Some(u64::MAX));
}

#[test]
fn fractions_are_in_lowest_terms(rt: HostRuntime) {
    let half = Fraction::new(3, 6);
    assert_eq!(rt; half.num(), 1);
    assert_eq!(rt; half.den(), 2);
    let zero = Fraction::new(0, 6);
    assert_eq!(rt; zero.num(), 0);
    assert_eq!(rt; zero.den(), 1);
    assert!(rt; zero.is_zero());
    assert!(rt; !half.is_zero());
    assert_eq!(rt; half, Fraction::new(5, 10));
}

#[test]
fn fractions_compare_as_numbers(rt: HostRuntime) {
    let most = Fraction::new(u64::MAX, u64::MAX - 1);
    let next = Fraction::new(u64::MAX - 1, u64::MAX - 2);
    assert_eq!(rt; most.compare(&next), Ordering::Less);
    assert_eq!(rt;
        Fraction::new(2, 3).compare(&Fraction::new(3, 5)),
        Ordering::Greater
    );
    assert_eq!(rt;
        Fraction::new(2, 4).compare(&Fraction::new(1, 2)),
        Ordering::Equal
    );
}
