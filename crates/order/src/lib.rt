// Millimetre orders: what a designer asks for at a vertex, and the point that an order gives it.
#![tactic(auto)]

ghost use Rattle.std.specs.Prelude.{◌≡◌};
ghost use Rattle.order.specs.Rule.{TheOne};
ghost use Rattle.order.specs.Orders.{MeasuredAt, PutTo, RaisedBy, Ordered};
ghost use Rattle.order.specs.Figures.{Told, worked, Figures};

pub mod fault;
pub mod scale;

use fault::OrderFault;
use point::solid::SolidPoint;
use refusal::Refusal;
use scale::units;

// A point in millimetres.
#[derive(Clone, Copy)]
pub struct Millimetres {
    pub x: f64,
    pub y: f64,
    pub z: f64,
}

// What is asked for at a vertex, in millimetres.
#[derive(Clone, Copy)]
pub enum Order {
    // the vertex goes to this point
    Put(Millimetres),
    // this is added to the vertex's z
    Raise(f64),
}

// The units of a value for one coordinate, counted from 0.
fn coordinate(mm: f64, at: usize) -> Result<i32, OrderFault>
    ensures { MeasuredAt at mm result }
{
    units(mm).map_err(|fault| OrderFault::Value(at, fault))
}

impl TryFrom<Millimetres> for SolidPoint {
    type Error = OrderFault;

    ghost try_from_gives = { λ mm r. TheOne (PutTo mm) r };

    fn try_from(mm: Millimetres) -> Result<SolidPoint, OrderFault> {
        let x = coordinate(mm.x, 0)?;
        let y = coordinate(mm.y, 1)?;
        let z = coordinate(mm.z, 2)?;
        Ok(SolidPoint::new(x, y, z)?)
    }
}

// The point that stands `mm` millimetres above `old`.
fn raised(old: SolidPoint, mm: f64) -> Result<SolidPoint, OrderFault>
    ensures { TheOne (RaisedBy mm old) result }
{
    let by = coordinate(mm, 2)?;
    Ok(SolidPoint::new(old.x(), old.y(), old.z() + by)?)
}

impl Order {
    // Where the order puts a vertex that stands at `old`.
    pub fn target(self, old: SolidPoint) -> Result<SolidPoint, OrderFault>
        ensures { TheOne (Ordered self old) result }
    {
        match self {
            Order::Put(to) => SolidPoint::try_from(to),
            Order::Raise(mm) => raised(old, mm),
        }
    }
}

// A value of `mm` millimetres for x: its units, or the refusal.
fn told(mm: f64) -> Result<i32, Refusal>
    ensures { Told mm result }
{
    coordinate(mm, 0).map_err(Refusal::from)
}

// The worked figures: what 0.5, 16,384, 0.1 and 16,384.5 mm are as x.
pub fn figures_stand() -> [Result<i32, Refusal>; 4]
    ensures run { result ≡ worked }
    ensures rule { Figures }
{
    [told(0.5), told(16384.0), told(0.1), told(16384.5)]
}

#[cfg(test)]
mod tests {
    use super::*;

    fn put(x: f64, y: f64, z: f64) -> Order {
        Order::Put(Millimetres { x, y, z })
    }

    fn refused(number: u32, coordinate: i128) -> Result<[i32; 3], Refusal> {
        Err(Refusal::with(number, coordinate))
    }

    // Where an order puts a vertex that stands at (1, 2, z).
    fn ordered(order: Order, z: i32) -> Result<[i32; 3], Refusal> {
        let old = SolidPoint::new(1, 2, z).map_err(OrderFault::from)?;
        let p = order.target(old)?;
        Ok([p.x(), p.y(), p.z()])
    }

    #[test]
    fn goes_where_it_is_put(rt: HostRuntime) {
        assert_eq!(rt;
            ordered(put(0.5, -0.5, 16384.0), 3),
            Ok([512, -512, 16_777_216])
        );
        assert_eq!(rt; ordered(put(0.1, f64::NAN, 20000.0), 3), refused(18, 0));
        assert_eq!(rt; ordered(put(0.5, 20000.0, 0.1), 3), refused(3, 1));
        assert_eq!(rt; ordered(put(0.5, 0.5, f64::NAN), 3), refused(18, 2));
    }

    #[test]
    fn rises(rt: HostRuntime) {
        assert_eq!(rt; ordered(Order::Raise(9.0), 3), Ok([1, 2, 9_219]));
        assert_eq!(rt; ordered(Order::Raise(-16384.0), 16_777_216), Ok([1, 2, 0]));
        assert_eq!(rt;
            ordered(Order::Raise(0.0009765625), 16_777_216),
            refused(3, 2)
        );
        assert_eq!(rt; ordered(Order::Raise(0.1), 3), refused(18, 2));
    }
}
