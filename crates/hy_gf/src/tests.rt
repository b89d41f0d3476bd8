//! Products and rows against values from outside.

ghost use Rattle.std.specs.Prelude.{◌≡◌, ◌≢◌, ◌≤◌, length};

use super::*;
use std::process::Abort;

// The powers of 2, from x^0 to x^254: a script in Python multiplied polynomials as lists of coefficients,
// divided by the modulus, and compared all products of two powers with the power of the sum of exponents.
const POWERS: [u8; 255] = [
    1, 2, 4, 8, 16, 32, 64, 128, 29, 58, 116, 232, 205, 135, 19, 38, 76, 152, 45, 90, 180, 117,
    234, 201, 143, 3, 6, 12, 24, 48, 96, 192, 157, 39, 78, 156, 37, 74, 148, 53, 106, 212, 181,
    119, 238, 193, 159, 35, 70, 140, 5, 10, 20, 40, 80, 160, 93, 186, 105, 210, 185, 111, 222, 161,
    95, 190, 97, 194, 153, 47, 94, 188, 101, 202, 137, 15, 30, 60, 120, 240, 253, 231, 211, 187,
    107, 214, 177, 127, 254, 225, 223, 163, 91, 182, 113, 226, 217, 175, 67, 134, 17, 34, 68, 136,
    13, 26, 52, 104, 208, 189, 103, 206, 129, 31, 62, 124, 248, 237, 199, 147, 59, 118, 236, 197,
    151, 51, 102, 204, 133, 23, 46, 92, 184, 109, 218, 169, 79, 158, 33, 66, 132, 21, 42, 84, 168,
    77, 154, 41, 82, 164, 85, 170, 73, 146, 57, 114, 228, 213, 183, 115, 230, 209, 191, 99, 198,
    145, 63, 126, 252, 229, 215, 179, 123, 246, 241, 255, 227, 219, 171, 75, 150, 49, 98, 196, 149,
    55, 110, 220, 165, 87, 174, 65, 130, 25, 50, 100, 200, 141, 7, 14, 28, 56, 112, 224, 221, 167,
    83, 166, 81, 162, 89, 178, 121, 242, 249, 239, 195, 155, 43, 86, 172, 69, 138, 9, 18, 36, 72,
    144, 61, 122, 244, 245, 247, 243, 251, 235, 203, 139, 11, 22, 44, 88, 176, 125, 250, 233, 207,
    131, 27, 54, 108, 216, 173, 71, 142,
];

fn power(exponent: usize) -> Gf {
    Gf::of(POWERS[exponent % 255])
}

#[test]
fn known_products(rt: HostRuntime) {
    assert_eq!(rt; Gf::of(2).times(Gf::of(128)).byte(), 29);
    assert_eq!(rt; Gf::of(2).inverse().byte(), 142);
    assert_eq!(rt; Gf::of(29).over(Gf::of(2)).byte(), 128);
    assert_eq!(rt; Gf::of(0x53).plus(Gf::of(0xCA)).known().byte(), 0x99);
}

#[test]
fn every_product(rt: HostRuntime) {
    for i in 0..255usize {
        for j in 0..255usize {
            assert_eq!(rt; power(i).times(power(j)), power(i + j));
        }
        assert_eq!(rt; power(i).times(Gf::of(0)), Gf::of(0));
        assert_eq!(rt; Gf::of(0).times(power(i)), Gf::of(0));
    }
    assert_eq!(rt; Gf::of(0).times(Gf::of(0)), Gf::of(0));
}

#[test]
fn adds_a_row(rt: HostRuntime) {
    let mut out = [7, 7, 7];
    mul_add(&[0, 1, 128], Gf::of(2), &mut out);
    assert_eq!(rt; out, [7, 5, 26]);
    mul_add(&[], Gf::of(2), &mut []);
}

#[test]
fn every_product_by_tables(rt: HostRuntime) {
    for factor in 0..=255u8 {
        let tables = Tables::of(Gf::of(factor));
        for byte in 0..=255u8 {
            assert_eq!(rt;
                tables.times(byte),
                Gf::of(factor).times(Gf::of(byte)).byte()
            );
        }
    }
}

// the row that kernels are compared with
fn add_plainly(row: &[u8], factor: Gf, out: &mut [u8])
    requires { length row.now ≡ length out.old }
    ensures { length out.new ≡ length out.old }
{
    for (place, byte) in row.iter().enumerate() {
        out[place] ^= factor.times(Gf::of(*byte)).byte();
    }
}

fn some_bytes() -> [u8; 1000] {
    let mut bytes = [0u8; 1000];
    for place in 0..1000usize {
        bytes[place] = (place * 37 % 256) as u8;
    }
    bytes
}

// no byte past the row changes
fn kernels_agree(rt: &impl Abort, row: &[u8], factor: u8)
    requires { length row.now ≤ 1000 }
{
    let mut plain = [0xA5u8; 1000];
    let mut looked_up = plain;
    let mut by_doublings = plain;
    add_plainly(row, Gf::of(factor), &mut plain[..row.len()]);
    mul_add(row, Gf::of(factor), &mut looked_up[..row.len()]);
    mul_add_by_doublings(row, Gf::of(factor), &mut by_doublings[..row.len()]);
    assert!(rt; looked_up == plain, "{factor} times {} bytes", row.len());
    assert!(rt; by_doublings == plain, "{factor} times {} bytes", row.len());
}

fn four_agree(rt: &impl Abort, row: &[u8])
    requires { length row.now ≤ 1000 }
{
    let mut plain = [0xA5u8; 1000];
    let mut at_once = plain;
    for factor in [3u8, 1, 0, 200] {
        add_plainly(row, Gf::of(factor), &mut plain[..row.len()]);
    }
    let times = |factor| Product {
        row,
        factor: Gf::of(factor),
    };
    mul_add_four(
        &times(3),
        &times(1),
        &times(0),
        &times(200),
        &mut at_once[..row.len()],
    );
    assert!(rt; at_once == plain, "{} bytes", row.len());
}

#[test]
fn rows_of_each_length(rt: HostRuntime) {
    let bytes = some_bytes();
    for length in [0usize, 1, 31, 32, 33, 63, 64, 65, 1000] {
        for factor in [0u8, 1, 2, 142, 255] {
            kernels_agree(&rt, &bytes[..length], factor);
        }
        four_agree(&rt, &bytes[..length]);
    }
}

#[test]
fn a_row_times_each_factor(rt: HostRuntime) {
    let bytes = some_bytes();
    for factor in 0..=255u8 {
        kernels_agree(&rt, &bytes, factor);
    }
}

// (a + 1) / a, by the calls of the trait alone
fn next_over<F: Field + Copy>(a: F) -> F
    requires { a ≢ F.field.zero }
{
    a.plus(F::one()).times(a.inverse()).plus(F::zero())
}

#[test]
fn computes_over_any_field(rt: HostRuntime) {
    assert_eq!(rt; next_over(Gf::of(2)), Gf::of(143));
}
