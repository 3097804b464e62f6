// Why a millimetre value or an order is declined, and how that is told.
ghost use Rattle.std.specs.Prelude.{◌≡◌};
ghost use Rattle.order.specs.declared.fault.OrderFault.TheVariants.{Point};
ghost use Rattle.order.specs.Refusals.{refusal_of};

use point::fault::PointFault;
use refusal::Refusal;

// Why a millimetre value stands for no whole number of units in range.
#[derive(Clone, Copy, PartialEq, Eq, Debug)]
pub enum ScaleFault {
    NotNumber,
    Beyond,
    OffGrid,
}

// Why an order is declined.
#[derive(Clone, Copy, PartialEq, Eq, Debug)]
pub enum OrderFault {
    // the value for this coordinate stands for no units; counted from 0, as in a fault of a point, whose kind may have any number
    Value(usize, ScaleFault),
    // the units make no point
    Point(PointFault),
}

impl From<PointFault> for OrderFault {
    ghost from_gives = { λ f e. e ≡ Point f };

    fn from(fault: PointFault) -> OrderFault {
        OrderFault::Point(fault)
    }
}

impl From<OrderFault> for Refusal {
    ghost from_gives = { λ f r. r ≡ refusal_of f };

    fn from(fault: OrderFault) -> Refusal {
        match fault {
            OrderFault::Value(i, ScaleFault::NotNumber | ScaleFault::OffGrid) => {
                Refusal::with(18, i as i128)
            }
            OrderFault::Value(i, ScaleFault::Beyond) => Refusal::with(3, i as i128),
            OrderFault::Point(fault) => Refusal::from(fault),
        }
    }
}
