// The float operations that the language lacks or leaves undefined at a NaN, each defined at every
// input and exact: bit patterns, widening, narrowing, the square root, ceiling and rounding.
#![tactic(auto)]

ghost use Rattle.std.specs.Prelude.{ℕ, ◌≡◌, ◌/◌, ◌+◌, ◌-◌, ◌*◌, ◌^◌, ◌<◌, ◌≤◌, min, ◌&&◌, T, from_bits, nat_le, nat_lt, to_bits};
ghost use Rattle.std.specs.Float.{binary32, binary64};
ghost use Rattle.std.specs.Float.Ieee.Nearest.{closest};
ghost use Rattle.ieee.specs.Narrow.{narrowed, magnitude_of, pattern_in, cut_of, normal_in, Rounded, RoundedBoth};
ghost use Rattle.ieee.specs.Normal.{significand_of, Normalised};
ghost use Rattle.ieee.specs.Root.{rooted, HalfRoot};
ghost use Rattle.ieee.specs.Whole.{ceil_div, round_div, whole_by, Adds};

// One function for each format, here and at `from_bits`: of a type parameter the patterns and the
// tests would be a trait's, and again one for each.

// The bit pattern of x. Every NaN has the one pattern that the logic gives it.
pub fn to_bits32(x: f32) -> u32
    ensures { result ≡ to_bits binary32 x }
{
    if x != x { 0x7fc0_0000 } else { f32::to_bits(x) }
}

pub fn to_bits64(x: f64) -> u64
    ensures { result ≡ to_bits binary64 x }
{
    if x != x {
        0x7ff8_0000_0000_0000
    } else {
        f64::to_bits(x)
    }
}

// The float of a bit pattern. Every NaN's pattern gives a NaN.
pub fn from_bits32(n: u32) -> f32
    ensures { result ≡ from_bits binary32 n }
{
    if n % 0x8000_0000 > 0x7f80_0000 {
        0.0 / 0.0
    } else {
        f32::from_bits(n)
    }
}

pub fn from_bits64(n: u64) -> f64
    ensures { result ≡ from_bits binary64 n }
{
    if n % 0x8000_0000_0000_0000 > 0x7ff0_0000_0000_0000 {
        0.0 / 0.0
    } else {
        f64::from_bits(n)
    }
}

// x at the wider format: the same number, or a NaN.
pub fn widen(x: f32) -> f64
    ensures { result ≡ x }
{
    std::num::f32_to_f64_with_nan(x)
}

// The value of an f32's bit pattern, as an f64.
pub fn widen_bits(n: u32) -> f64
    ensures { result ≡ from_bits binary32 n }
{
    if 0x7f80_0000 < n % 0x8000_0000 {
        return 0.0 / 0.0;
    }
    f32::from_bits(n) as f64
}

// The significand of an f64 whose exponent's field is e and whose digits' field is t.
fn significand(e: u64, t: u64) -> u64
    requires { t < 2 ^ 52 }
    ensures { result ≡ significand_of e t }
{
    if e == 0 { t } else { t + 0x10_0000_0000_0000 }
}

// The size of an f64 that is no NaN: digits · 2^(place − shift), in units of the format's smallest
// value, 2^-1074. The leading one of the digits stands at 61, unless they are 0.
#[derive(Drop)]
struct Normal {
    digits: u64,
    shift: u64,
    place: u64,
}

// The f64 of the bits b, by the count of its significand's leading zeros.
fn normalise(b: u64) -> Normal
    ensures { Normalised b result }
{
    let e = b / 0x10_0000_0000_0000 % 2048;
    let m = significand(e, b % 0x10_0000_0000_0000);
    let shift = u64::leading_zeros(m) as u64 - 2;
    Normal {
        digits: m << shift,
        shift,
        place: e.saturating_sub(1),
    }
}

// m / 2^r, rounded to the nearest whole number, a tie to the even one.
fn shifted(m: u64, r: u64) -> u64
    requires digits { m < 2 ^ 62 }
    requires shift { r < 64 }
    ensures { result ≡ closest m (2 ^ r) }
{
    let u = 1u64 << r;
    let q = m >> r;
    let rest = m & (u - 1);
    if rest * 2 + q % 2 > u { q + 1 } else { q }
}

// The bits b without the last 29, rounded to the nearest, a tie to the even one.
fn cut(b: u64) -> u64
    requires { b + 2 ^ 28 < 2 ^ 64 }
    ensures { result ≡ cut_of b }
{
    (b + 0x0fff_ffff + b / 0x2000_0000 % 2) / 0x2000_0000
}

// The bits of the f32 nearest to the f64 of the bits b, their signs aside.
fn narrow_magnitude(b: u64) -> u32
    ensures { result ≡ magnitude_of b }
{
    let n = normalise(b);
    // at this place an f32 has all its digits, and its exponent's field is still 1
    let first = 887 + n.shift;
    let q = shifted(n.digits, (38 + first.saturating_sub(n.place)).min(63));
    (n.place.saturating_sub(first) * 0x80_0000 + q).min(0x7f80_0000) as u32
}

// The same with the sign in front.
fn narrow_bits(b: u64) -> u32
    ensures { result ≡ pattern_in b }
{
    let p = narrow_magnitude(b);
    if b < 0x8000_0000_0000_0000 {
        return p;
    }
    0x8000_0000 + p
}

// The f32 nearest to an f64: its value, still as an f64, and its bits.
#[derive(Drop)]
pub struct Single {
    pub value: f64,
    pub bits: u32,
}

// The same of two numbers.
#[derive(Drop)]
pub struct Singles {
    pub first: Single,
    pub second: Single,
}

// x rounded to f32, whatever x is.
fn round_any(x: f64) -> Single
    ensures { Rounded x result }
{
    if x != x {
        return Single {
            value: 0.0 / 0.0,
            bits: 0x7fc0_0000,
        };
    }
    let bits = narrow_bits(f64::to_bits(x));
    Single {
        value: widen_bits(bits),
        bits,
    }
}

// Whether x rounded to f32 has all the digits of an f32, and is far from the largest.
fn is_normal(x: f64) -> bool
    ensures { result ≡ normal_in (to_bits binary64 x) }
{
    if x != x {
        return false;
    }
    let size = f64::to_bits(x) % 0x8000_0000_0000_0000;
    0x3810_0000_0000_0000 <= size && size < 0x47e0_0000_0000_0000
}

// Such an x rounded to f32: 29 digits are dropped, and a carry goes into the exponent by itself.
fn round_normal(x: f64) -> Single
    requires { T (normal_in (to_bits binary64 x)) }
    ensures { Rounded x result }
{
    let value = f64::from_bits(cut(f64::to_bits(x)) * 0x2000_0000);
    Single {
        value,
        bits: f32::to_bits(value as f32),
    }
}

// x rounded to f32, of two values that are as near to the one whose last digit is 0.
pub fn rounded(x: f64) -> Single
    ensures { Rounded x result }
{
    if is_normal(x) {
        return round_normal(x);
    }
    round_any(x)
}

// A function of its own, so that `rounded_both` is small and stands in the loops that call it.
#[inline(never)]
fn round_each(x: f64, y: f64) -> Singles
    ensures { RoundedBoth x y result }
{
    Singles {
        first: rounded(x),
        second: rounded(y),
    }
}

// x and y, each rounded to f32. What `round_each` gives is copied: so the usual way through needs
// no memory.
#[inline(always)]
pub fn rounded_both(x: f64, y: f64) -> Singles
    ensures { RoundedBoth x y result }
{
    if is_normal(x) && is_normal(y) {
        return Singles {
            first: round_normal(x),
            second: round_normal(y),
        };
    }
    let s = round_each(x, y);
    Singles {
        first: s.first,
        second: s.second,
    }
}

// The f32 nearest to x, of two that are as near the one whose last digit is 0.
pub fn narrow(x: f64) -> f32
    ensures { result ≡ narrowed x }
{
    let r = rounded(x);
    from_bits32(r.bits)
}

// The square root of w · 2^44, cut to a whole number: 54 binary digits, found one at a time from
// the highest. At each, two digits of w are brought down.
fn root_digits(w: u64) -> u64
    ensures { (result * result ≤ w * 2 ^ 44) × (w * 2 ^ 44 < (result + 1) * (result + 1)) }
{
    let mut m = w;
    let mut rest = 0u64;
    let mut r = 0u64;
    for _ in 0..54u64 {
        rest = rest * 4 + m / 0x4000_0000_0000_0000;
        m = m % 0x4000_0000_0000_0000 * 4;
        let bit = (r * 4 < rest) as u64;
        rest = rest - (r * 4 + 1) * bit;
        r = r * 2 + bit;
    }
    r
}

// About the square root of x. Nothing is claimed of it: three steps of Newton's for 1/√x from a
// guess at its bits, and a fourth for √x, by what x is above the square, exactly.
fn root_guess(x: f64) -> f64 {
    let half = 0.5 * x;
    let y = from_bits64(0x5fe6_eb50_c7b5_37a9 - to_bits64(x) % 0x8000_0000_0000_0000 / 2);
    let y = 1.5 * y - (half * y) * (y * y);
    let y = 1.5 * y - (half * y) * (y * y);
    let y = 1.5 * y - (half * y) * (y * y);
    let s = x * y;
    let t = s * 134217729.0;
    let high = t - (t - s);
    let low = s - high;
    s + (((x - high * high) - (2.0 * high) * low) - low * low) * (0.5 * y)
}

// Whether g is the square root of w · 2^42, rounded to a whole number: by g·g in two words.
fn is_half_root(w: u64, g: u64) -> bool
    requires { g < 2 ^ 53 }
    ensures { result ≡ (nat_lt (g * g) (w * 2 ^ 42 + g) && nat_le (w * 2 ^ 42) (g * g + g)) }
{
    let a = g / 0x400_0000;
    let b = g % 0x400_0000;
    let m = a * b;
    let high = a * a + m / 0x200_0000;
    let low = m % 0x200_0000 * 0x800_0000 + b * b;
    let wide = w / 1024;
    if wide + 2 < high {
        return false;
    }
    if high + 3 < wide {
        return false;
    }
    let above = (wide + 2 - high) * 0x10_0000_0000_0000 + w % 1024 * 0x400_0000_0000;
    let square = low + 0x20_0000_0000_0000;
    if above + g <= square {
        return false;
    }
    above <= square + g
}

// Half of the digits of `root_digits`, rounded up: by the guess, if it is right, that x gives.
fn half_root(w: u64, x: f64) -> u64
    ensures { HalfRoot w result }
{
    let g = to_bits64(root_guess(x)) % 0x10_0000_0000_0000 + 0x10_0000_0000_0000;
    if is_half_root(w, g) {
        return g;
    }
    (root_digits(w) + 1) / 2
}

// The f64 nearest to the square root of the f64 of the bits b, which is finite and above zero.
fn root_finite(b: u64) -> f64
    requires positive { 0 < b }
    requires finite { b < 0x7ff0_0000_0000_0000 }
    ensures { result ≡ rooted (from_bits binary64 b) }
{
    let n = normalise(b);
    let odd = (n.place + n.shift) % 2;
    let g = half_root(n.digits << (2 - odd), from_bits64(b));
    from_bits64((1030 + n.place + odd - n.shift) / 2 * 0x10_0000_0000_0000 + g)
}

// The f64 nearest to the square root of x. Of a negative number it is a NaN, and of a zero that
// zero.
pub fn root(x: f64) -> f64
    ensures { result ≡ rooted x }
{
    if x != x {
        return 0.0 / 0.0;
    }
    let b = f64::to_bits(x);
    if b % 0x8000_0000_0000_0000 == 0 {
        return x;
    }
    if b >= 0x8000_0000_0000_0000 {
        return 0.0 / 0.0;
    }
    if b >= 0x7ff0_0000_0000_0000 {
        return x;
    }
    root_finite(b)
}

// m / 2^r as a whole number: the rule for the rest is what it adds to m first, by the unit 2^r.
fn dropped<F: Fn(u64) -> u64>(m: u64, r: u64, added: F) -> u64
    requires digits { m < 2 ^ 62 }
    requires shift { r < 64 }
    requires callable { (u : ℕ) → 0 < u → F.pre added u }
    requires small { (u y : ℕ) → F.post added u y → y ≤ u }
    ensures { (y : ℕ) × F.post added (2 ^ r) y × (result ≡ (m + y) / 2 ^ r) }
{
    let unit = 1u64 << r;
    (m + added(unit)) >> r
}

// The f64 of the bits b, which is no NaN and not negative, as a whole number.
fn whole_positive<F: Fn(u64) -> u64>(b: u64, added: F) -> u64
    requires number { b ≤ 0x7ff0_0000_0000_0000 }
    requires callable { (u : ℕ) → 0 < u → F.pre added u }
    requires small { (u y : ℕ) → F.post added u y → y ≤ u }
    ensures { (g : ℕ → ℕ → ℕ) → Adds g (F.post added) → result ≡ whole_by g (from_bits binary64 b) }
{
    let n = normalise(b);
    // at this place the last digit is a one
    let first = 1074 + n.shift;
    if n.place <= first {
        return dropped(n.digits, (first - n.place).min(63), added);
    }
    if n.place <= first + 2 {
        return n.digits << (n.place - first);
    }
    0xffff_ffff_ffff_ffff
}

fn whole<F: Fn(u64) -> u64>(x: f64, added: F) -> u64
    requires callable { (u : ℕ) → 0 < u → F.pre added u }
    requires small { (u y : ℕ) → F.post added u y → y ≤ u }
    ensures { (g : ℕ → ℕ → ℕ) → Adds g (F.post added) → result ≡ whole_by g x }
{
    if x != x {
        return 0;
    }
    let b = f64::to_bits(x);
    if b >= 0x8000_0000_0000_0000 {
        return 0;
    }
    whole_positive(b, added)
}

// The least whole number that is not below x, as Rust's `x.ceil() as u64`.
pub fn ceiling(x: f64) -> u64
    ensures { result ≡ whole_by ceil_div x }
{
    whole(x, |unit| unit - 1)
}

// The whole number nearest to x, a tie away from zero, as Rust's `x.round() as u64`.
pub fn round_half_away(x: f64) -> u64
    ensures { result ≡ whole_by round_div x }
{
    whole(x, |unit| unit / 2)
}
