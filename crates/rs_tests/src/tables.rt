//! Tests of entries of the tables that are known by hand, and a test that an entry can be cloned, which no contract
//! states.
use reed_solomon_simd::engine::GfElement;
use reed_solomon_simd::engine::tables::{
    Tables, get_exp_log, get_mul16, get_mul128, get_skew, mul,
};
use std::process::Abort;

fn check_powers(rt: &impl Abort, tables: &Tables) {
    let t = get_exp_log(tables);
    assert_eq!(rt; [t.exp[0], t.exp[65535]], [1, 1]);
    assert_eq!(rt; [t.log[0], t.log[1]], [65535, 0]);
    let sum = t.log[2].wrapping_add(t.log[3]);
    assert_eq!(rt; [t.log[2], t.log[3], sum], [21845, 43690, 65535]);
}

// Checks the product of two elements, and that the factor one changes nothing.
fn check_product(rt: &impl Abort, tables: &Tables, x: GfElement, y: GfElement, product: GfElement) {
    let t = get_exp_log(tables);
    let log_y = t.log[y as usize];
    let products = [mul(x, log_y, &t.exp, &t.log), mul(x, 65535, &t.exp, &t.log)];
    assert_eq!(rt; (x, y, products), (x, y, [product, x]));
}

fn check_small_products(rt: &impl Abort, tables: &Tables) {
    for (x, y, product) in [
        (2, 2, 3),
        (2, 3, 1),
        (3, 3, 2),
        (2, 4, 11),
        (4, 4, 6),
        (2, 6, 8),
        (3, 6, 14),
        (5, 4, 2),
    ] {
        check_product(rt, tables, x, y, product);
    }
}

fn check_factors(rt: &impl Abort, tables: &Tables) {
    let log = &get_exp_log(tables).log;
    let wanted = [65535, 65535, log[2], 65535, log[4], log[2]];
    assert_eq!(rt; get_skew(tables)[..6], wanted[..]);
}

// Checks the products of 0 to 7 with 2, which are 0, 2, 3, 1, 11, 9, 8 and 10.
fn check_products(rt: &impl Abort, tables: &Tables) {
    let log_2 = get_exp_log(tables).log[2] as usize;
    let mul16 = get_mul16(tables);
    for (i, product) in [0, 2, 3, 1, 11, 9, 8, 10].into_iter().enumerate() {
        assert_eq!(rt; mul16[log_2][0][i], product);
    }
    let entry = &get_mul128(tables)[log_2];
    assert_eq!(rt; entry.lo[0] % (1 << 64), 0x0A08_090B_0103_0200);
    assert_eq!(rt; entry.hi[0] % (1 << 64), 0);
}

// Checks that the factor one changes no product of a nibble at each of the four places.
fn check_products_with_one(rt: &impl Abort, tables: &Tables) {
    let nibbles = &get_mul16(tables)[65535];
    for i in 0..16 {
        let word = i as u16;
        let products = [nibbles[0][i], nibbles[1][i], nibbles[2][i], nibbles[3][i]];
        assert_eq!(rt; products, [word, word << 4, word << 8, word << 12]);
    }
}

fn check_clone(rt: &impl Abort, tables: &Tables) {
    let own = &get_mul128(tables)[2];
    let copy = own.clone().expect(rt, "a copy");
    assert_eq!(rt; (&copy.lo, &copy.hi), (&own.lo, &own.hi));
}

#[test]
fn entries_by_hand(rt: HostRuntime) {
    let tables = Tables::new(rt.alloc()).expect(&rt, "tables");
    check_powers(&rt, &tables);
    check_small_products(&rt, &tables);
    check_factors(&rt, &tables);
    check_products(&rt, &tables);
    check_products_with_one(&rt, &tables);
    check_clone(&rt, &tables);
}
