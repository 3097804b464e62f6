// The scale between millimetres and units of 1/1024 mm, exact both ways.
ghost use Rattle.std.specs.Prelude.{Ok};
ghost use Rattle.point.specs.Range.{InRange};
ghost use Rattle.order.specs.Rule.{TheOne};
ghost use Rattle.order.specs.Scale.{Exactly, Plain, Measured};

use crate::fault::ScaleFault;

// Units in a millimetre: a power of two, so that scaling rounds nothing.
pub const UNITS_PER_MM: f64 = 1024.0;

// The largest size of a value.
pub const LIMIT_MM: f64 = 16384.0;

// The units that `mm` millimetres are exactly, or why there are none in range.
pub fn units(mm: f64) -> Result<i32, ScaleFault>
    ensures { TheOne (Measured mm) result }
{
    if mm.is_nan() {
        return Err(ScaleFault::NotNumber);
    }
    if mm < -LIMIT_MM || LIMIT_MM < mm {
        return Err(ScaleFault::Beyond);
    }
    let scaled = mm * UNITS_PER_MM;
    if scaled.trunc() != scaled {
        return Err(ScaleFault::OffGrid);
    }
    // the cast takes no -0.0
    if scaled == 0.0 {
        return Ok(0);
    }
    Ok(scaled as i32)
}

// `u` units in millimetres, exactly. Units in range come back from `units` as they were.
pub fn millimetres(u: i32) -> f64
    ensures exact { Exactly result u }
    ensures plain { Plain result }
    ensures back { InRange u → TheOne (Measured result) (Ok u) }
{
    u as f64 / UNITS_PER_MM
}

#[cfg(test)]
mod tests {
    use super::*;

    #[test]
    fn on_the_grid(rt: HostRuntime) {
        assert_eq!(rt; units(0.0), Ok(0));
        assert_eq!(rt; units(-0.0), Ok(0));
        assert_eq!(rt; units(-0.5), Ok(-512));
        assert_eq!(rt; units(0.0009765625), Ok(1));
        assert_eq!(rt; units(16384.0), Ok(16_777_216));
        assert_eq!(rt; units(-16384.0), Ok(-16_777_216));
    }

    #[test]
    fn off_the_grid(rt: HostRuntime) {
        assert_eq!(rt; units(5e-324), Err(ScaleFault::OffGrid));
        assert_eq!(rt; units(-5e-324), Err(ScaleFault::OffGrid));
        assert_eq!(rt; units(16383.999999999998), Err(ScaleFault::OffGrid));
        assert_eq!(rt; units(-16383.999999999998), Err(ScaleFault::OffGrid));
    }

    #[test]
    fn out_of_range(rt: HostRuntime) {
        assert_eq!(rt; units(16384.000000000004), Err(ScaleFault::Beyond));
        assert_eq!(rt; units(-16384.000000000004), Err(ScaleFault::Beyond));
        assert_eq!(rt; units(f64::INFINITY), Err(ScaleFault::Beyond));
        assert_eq!(rt; units(f64::NEG_INFINITY), Err(ScaleFault::Beyond));
        assert_eq!(rt; units(f64::NAN), Err(ScaleFault::NotNumber));
    }

    #[test]
    fn back_to_millimetres(rt: HostRuntime) {
        assert_eq!(rt; millimetres(-512), -0.5);
        assert_eq!(rt; units(millimetres(-12_345_677)), Ok(-12_345_677));
    }
}
