// Complex numbers of floats by value, and a sample as one word. Each operation is document 01's
// formula, operation by operation.
#![tactic(auto)]

ghost use Rattle.std.specs.Prelude.{◌≡◌};
ghost use Rattle.std.specs.Float.{binary32, binary64};
ghost use Rattle.complex.specs.Complex.{sum, difference, product, power, quotient, one_minus, one_plus, conjugate, scaled, unscaled, norm, narrowed_parts};
ghost use Rattle.complex.specs.Complex.{word_of, sample_of};
ghost use Rattle.complex.specs.View.{view32, make32, view64, make64, single_of};

use std::ops::{Add, Div, Mul, Sub};

// Two types and not one of a type parameter: its sums and products would be a trait's, with a method
// and a law for each format again, to share four methods here.
#[derive(Clone, Copy)]
pub struct Complex32 {
    pub re: f32,
    pub im: f32,
}

#[derive(Clone, Copy)]
pub struct Complex64 {
    pub re: f64,
    pub im: f64,
}

// A complex number with each part rounded to f32: its value, still in f64, and its word.
#[derive(Drop)]
pub struct Single {
    pub value: Complex64,
    pub word: u64,
}

impl Complex32 {
    // The sample of a word: the bits of re in its low half, of im in its high half.
    pub fn unpack(w: u64) -> Complex32
        ensures { result ≡ make32 (sample_of w) }
    {
        let re = (w % 0x1_0000_0000) as u32;
        let im = (w / 0x1_0000_0000) as u32;
        Complex32 {
            re: ieee::from_bits32(re),
            im: ieee::from_bits32(im),
        }
    }

    pub fn pack(self) -> u64
        ensures { result ≡ word_of (view32 self) }
    {
        let re = ieee::to_bits32(self.re) as u64;
        let im = ieee::to_bits32(self.im) as u64;
        re + im * 0x1_0000_0000
    }

    pub fn scale(self, r: f32) -> Complex32
        ensures { result ≡ make32 (scaled binary32 (view32 self) r) }
    {
        Complex32 {
            re: self.re * r,
            im: self.im * r,
        }
    }

    // The power.
    pub fn norm_sqr(self) -> f32
        ensures { result ≡ power binary32 (view32 self) }
    {
        self.re * self.re + self.im * self.im
    }

    pub fn widen(self) -> Complex64
        ensures { result ≡ make64 (view32 self) }
    {
        Complex64 {
            re: ieee::widen(self.re),
            im: ieee::widen(self.im),
        }
    }
}

impl Complex64 {
    // The sample of a word, at the wider format.
    pub fn unpack(w: u64) -> Complex64
        ensures { result ≡ make64 (sample_of w) }
    {
        Complex64 {
            re: ieee::widen_bits((w % 0x1_0000_0000) as u32),
            im: ieee::widen_bits((w / 0x1_0000_0000) as u32),
        }
    }

    // The power.
    pub fn norm_sqr(self) -> f64
        ensures { result ≡ power binary64 (view64 self) }
    {
        self.re * self.re + self.im * self.im
    }

    // 1 − self.
    pub fn one_minus(self) -> Complex64
        ensures { result ≡ make64 (one_minus binary64 (view64 self)) }
    {
        Complex64 {
            re: 1.0 - self.re,
            im: 0.0 - self.im,
        }
    }

    // 1 + self.
    pub fn one_plus(self) -> Complex64
        ensures { result ≡ make64 (one_plus binary64 (view64 self)) }
    {
        Complex64 {
            re: 1.0 + self.re,
            im: self.im,
        }
    }

    pub fn conj(self) -> Complex64
        ensures { result ≡ make64 (conjugate (view64 self)) }
    {
        Complex64 {
            re: self.re,
            im: -self.im,
        }
    }

    pub fn scale(self, r: f64) -> Complex64
        ensures { result ≡ make64 (scaled binary64 (view64 self) r) }
    {
        Complex64 {
            re: self.re * r,
            im: self.im * r,
        }
    }

    // Each part divided by r.
    pub fn unscale(self, r: f64) -> Complex64
        ensures { result ≡ make64 (unscaled binary64 (view64 self) r) }
    {
        Complex64 {
            re: self.re / r,
            im: self.im / r,
        }
    }

    pub fn norm(self) -> f64
        ensures { result ≡ norm (view64 self) }
    {
        let p = self.norm_sqr();
        ieee::root(p)
    }

    // Each part rounded to f32.
    pub fn narrow(self) -> Complex32
        ensures { result ≡ make32 (narrowed_parts (view64 self)) }
    {
        Complex32 {
            re: ieee::narrow(self.re),
            im: ieee::narrow(self.im),
        }
    }

    // Each part rounded to f32, and the word of that.
    #[inline(always)]
    pub fn rounded(self) -> Single
        ensures { result ≡ single_of (view64 self) }
    {
        let parts = ieee::rounded_both(self.re, self.im);
        let re = parts.first;
        let im = parts.second;
        Single {
            value: Complex64 {
                re: re.value,
                im: im.value,
            },
            word: re.bits as u64 + im.bits as u64 * 0x1_0000_0000,
        }
    }
}

impl Add for Complex32 {
    type Output = Complex32;

    ghost add_gives = { λ a b c. c ≡ make32 (sum binary32 (view32 a) (view32 b)) };

    fn add(self, b: Complex32) -> Complex32 {
        Complex32 {
            re: self.re + b.re,
            im: self.im + b.im,
        }
    }
}

impl Sub for Complex32 {
    type Output = Complex32;

    ghost sub_gives = { λ a b c. c ≡ make32 (difference binary32 (view32 a) (view32 b)) };

    fn sub(self, b: Complex32) -> Complex32 {
        Complex32 {
            re: self.re - b.re,
            im: self.im - b.im,
        }
    }
}

impl Add for Complex64 {
    type Output = Complex64;

    ghost add_gives = { λ a b c. c ≡ make64 (sum binary64 (view64 a) (view64 b)) };

    fn add(self, b: Complex64) -> Complex64 {
        Complex64 {
            re: self.re + b.re,
            im: self.im + b.im,
        }
    }
}

impl Sub for Complex64 {
    type Output = Complex64;

    ghost sub_gives = { λ a b c. c ≡ make64 (difference binary64 (view64 a) (view64 b)) };

    fn sub(self, b: Complex64) -> Complex64 {
        Complex64 {
            re: self.re - b.re,
            im: self.im - b.im,
        }
    }
}

impl Mul for Complex64 {
    type Output = Complex64;

    ghost mul_gives = { λ a b c. c ≡ make64 (product binary64 (view64 a) (view64 b)) };

    fn mul(self, b: Complex64) -> Complex64 {
        Complex64 {
            re: self.re * b.re - self.im * b.im,
            im: self.re * b.im + self.im * b.re,
        }
    }
}

impl Div for Complex64 {
    type Output = Complex64;

    ghost div_gives = { λ a b c. c ≡ make64 (quotient binary64 (view64 a) (view64 b)) };

    fn div(self, b: Complex64) -> Complex64 {
        let p = b.norm_sqr();
        Complex64 {
            re: (self.re * b.re + self.im * b.im) / p,
            im: (self.im * b.re - self.re * b.im) / p,
        }
    }
}
