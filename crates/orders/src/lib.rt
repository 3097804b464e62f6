// Orders on a workpiece of solids: an accepted order is the place of the point that it gives its vertex.
#![tactic(auto)]

ghost use Rattle.orders.specs.Orders.{OrderDone};

pub mod fault;

use fault::VertexFault;
use order::Order;
use point::solid::SolidRecord;
use point::solid::kind::Solid;
use skin::skin::Skin;
use workpiece::piece::Workpiece;

// Carries out an order at the vertex that a dart starts from. It looks for 1 and 2 as `place` does, and then for what the order is declined for.
pub fn carry_out<S: Skin>(
    piece: &mut Workpiece<S>,
    table: &mut [SolidRecord],
    dart: u32,
    order: Order,
) -> Result<(), VertexFault>
    ensures { OrderDone S.Skin order dart piece.old table.old result piece.new table.new }
{
    let old = piece.read::<Solid>(table, dart)?;
    let point = order.target(old)?;
    piece.place::<Solid>(table, dart, point)?;
    Ok(())
}

#[cfg(test)]
mod tests {
    use super::*;
    use order::fault::{OrderFault, ScaleFault};
    use skin::torus::Torus;
    use std::test::Fail;
    use workpiece::fault::WorkFault;

    #[test]
    fn moves_the_whole_ring_or_nothing(rt: HostRuntime) -> Result<(), Fail> {
        let Ok(torus) = Torus::new(1, 1) else {
            return Err(Fail::new("no torus"));
        };
        let mut piece = Workpiece::open(torus);
        let mut table = [SolidRecord {
            x: 0,
            y: 7,
            z: 16_777_000,
        }; 4];
        assert_eq!(rt;
            carry_out(&mut piece, &mut table, 2, Order::Raise(-9.0)),
            Ok(())
        );
        let no_dart = Err(VertexFault::Work(WorkFault::NoDart(4)));
        assert_eq!(rt;
            carry_out(&mut piece, &mut table, 4, Order::Raise(0.1)),
            no_dart
        );
        let off_grid = Err(VertexFault::Value(OrderFault::Value(2, ScaleFault::OffGrid)));
        assert_eq!(rt;
            carry_out(&mut piece, &mut table, 0, Order::Raise(0.1)),
            off_grid
        );
        for at in table {
            assert_eq!(rt; [at.x, at.y, at.z], [0, 7, 16_767_784]);
        }
        Ok(())
    }
}
