// The square root of a double, worked out by whole numbers: the nearest double, for every double.
#![tactic(auto)]

ghost use Rattle.std.specs.Prelude.{◌≡◌, ◌+◌, ◌*◌, ◌/◌, ◌^◌, ◌<◌, ◌≤◌, ◌≢◌};
ghost use Rattle.fit_root.specs.Root.{whole_root, nearest_root, Roots};
ghost use Rattle.fit_root.specs.Whole.{IsRoot, IsNear};

// A double's digits below the leading one: 52.
const HIDDEN: u64 = 0x10_0000_0000_0000;

// The exponent's field of the infinities.
const ENDLESS: u64 = 2047;

// The whole part of √(x·2^54), a pair of digits at a time: 54 binary digits from an x of 54.
fn whole_root(x: u64) -> u64
    requires { x < 2 ^ 54 }
    ensures { IsRoot (x * 2 ^ 54) result }
{
    let mut m = x;
    let mut root: u64 = 0;
    let mut rem: u64 = 0;
    for _ in 0..54u64 {
        let all = rem * 4 + m / HIDDEN;
        let trial = root * 4 + 1;
        m = (m % HIDDEN) * 4;
        if trial <= all {
            rem = all - trial;
            root = root * 2 + 1;
        } else {
            rem = all;
            root = root * 2;
        }
    }
    root
}

// About √(m·2^odd·2^52): Newton's steps toward 1/√f, for an f from 1 up to 4. Nothing rests on how near it is but the time that is taken.
fn guess(m: u64, odd: u64) -> u64
    requires { (m < 2 ^ 53) × (odd < 2) }
{
    let bits = (1022 + odd) * HIDDEN + m;
    let f = f64::from_bits(bits);
    let half = 0.5 * f;
    let a = f64::from_bits(0x5fe6_eb50_c7b5_37a9 - bits / 2);
    let b = a * (1.5 - half * a * a);
    let c = b * (1.5 - half * b * b);
    let d = c * (1.5 - half * c * c);
    let s = f * d;
    let root = s + 0.5 * d * (f - s * s);
    if root != root {
        return 0;
    }
    std::num::wrapping_sub_u64(f64::to_bits(root), 1022 * HIDDEN)
}

// The whole number nearest to √(m·2^52), if it is n or next to n; else 0. With n = a·2^27 + b, the square of n is taken from m·2^52 in three
// steps, 4·a² and 2·a·b and b², each of which leaves little where n is near.
fn settled(m: u64, n: u64) -> u64
    requires { m < 2 ^ 54 }
    ensures { (result ≢ 0) → IsNear m result }
{
    if n >= 0x40_0000_0000_0000 {
        return 0;
    }
    let a = n / 0x800_0000;
    let b = n % 0x800_0000;
    let first = a * a * 4;
    if m < first {
        return 0;
    }
    let high = m - first;
    if high >= 0x8000_0000 {
        return 0;
    }
    let moved = high * 0x100_0000 + 0x400_0000;
    let cross = a * b;
    if moved < cross {
        return 0;
    }
    let low = moved - cross;
    if low >= 0x8_0000_0000 {
        return 0;
    }
    let rest = low * 0x1000_0000;
    let square = b * b + 0x40_0000_0000_0000;
    if square >= rest + n {
        if square + 2 < rest + 3 * n {
            return n - 1;
        }
        return 0;
    }
    if rest <= square + n {
        return n;
    }
    if rest <= square + 3 * n + 2 {
        return n + 1;
    }
    0
}

// The whole number nearest to √(m·2^odd·2^52).
fn nearest(m: u64, odd: u64) -> u64
    requires { (m < 2 ^ 53) × (odd < 2) }
    ensures { result ≡ (whole_root 54 (m * (1 + odd) * 2 ^ 54) + 1) / 2 }
{
    let whole = m * (1 + odd);
    let n = settled(whole, guess(m, odd));
    if n == 0 {
        return (whole_root(whole) + 1) / 2;
    }
    n
}

// m·2^(e - 60), m having 53 binary digits.
#[derive(Clone, Copy)]
struct Scaled {
    m: u64,
    e: u64,
}

fn scale(x: u64) -> Scaled
    requires { (0 < x) × (x < 2 ^ 53) }
    ensures { (result.m * 2 ^ result.e ≡ x * 2 ^ 60) × (2 ^ 52 ≤ result.m) × (result.m < 2 ^ 53) × (8 ≤ result.e) × (result.e ≤ 60) }
{
    let mut m = x;
    let mut e: u64 = 60;
    while m < HIDDEN {
        m = m * 2;
        e -= 1;
    }
    Scaled { m, e }
}

// The double nearest to the root of m·2^k units of 2^-1074.
fn root_of(m: u64, k: u64) -> f64
    requires { (0 < m) × (m < 2 ^ 53) × (k < 2046) }
    ensures { result ≡ nearest_root (m * 2 ^ k) }
{
    let s = scale(m);
    let e = s.e + k;
    let n = nearest(s.m, e % 2);
    f64::from_bits((e / 2 + 481) * HIDDEN + n)
}

// The nearest double to the root of x; of a negative number, not a number; a zero keeps its sign.
pub fn sqrt(x: f64) -> f64
    ensures { Roots x result }
{
    if x != x {
        return x;
    }
    if x == 0.0 {
        return x;
    }
    if x < 0.0 {
        return 0.0 / 0.0;
    }
    let bits = f64::to_bits(x);
    let field = bits / HIDDEN;
    let digits = bits % HIDDEN;
    if field == ENDLESS {
        return x;
    }
    if field == 0 {
        return root_of(digits, 0);
    }
    root_of(digits + HIDDEN, field - 1)
}
