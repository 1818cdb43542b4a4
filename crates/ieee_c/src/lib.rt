// The functions of `ieee` under C names, for drivers in other languages.
#![tactic(auto)]

ghost use Rattle.std.specs.Prelude.{◌≡◌};
ghost use Rattle.ieee.specs.Narrow.{narrowed};
ghost use Rattle.ieee.specs.Root.{rooted};
ghost use Rattle.ieee.specs.Whole.{ceil_div, round_div, whole_by};

#[unsafe(no_mangle)]
pub extern "C" fn ieee_narrow(x: f64) -> f32
    ensures { result ≡ narrowed x }
{
    ieee::narrow(x)
}

#[unsafe(no_mangle)]
pub extern "C" fn ieee_root(x: f64) -> f64
    ensures { result ≡ rooted x }
{
    ieee::root(x)
}

#[unsafe(no_mangle)]
pub extern "C" fn ieee_ceiling(x: f64) -> u64
    ensures { result ≡ whole_by ceil_div x }
{
    ieee::ceiling(x)
}

#[unsafe(no_mangle)]
pub extern "C" fn ieee_round_half_away(x: f64) -> u64
    ensures { result ≡ whole_by round_div x }
{
    ieee::round_half_away(x)
}
