// Why an order at a vertex of a workpiece is declined.
ghost use Rattle.std.specs.Prelude.{◌≡◌};
ghost use Rattle.orders.specs.declared.fault.VertexFault.TheVariants.{Work, Value};
ghost use Rattle.orders.specs.Refusals.{refusal_of};

use order::fault::OrderFault;
use refusal::Refusal;
use workpiece::fault::WorkFault;

#[derive(Clone, Copy, PartialEq, Eq, Debug)]
pub enum VertexFault {
    // the table is too short, or there is no such dart
    Work(WorkFault),
    // the order gives the vertex no point
    Value(OrderFault),
}

impl From<WorkFault> for VertexFault {
    ghost from_gives = { λ f e. e ≡ Work f };

    fn from(fault: WorkFault) -> VertexFault {
        VertexFault::Work(fault)
    }
}

impl From<OrderFault> for VertexFault {
    ghost from_gives = { λ f e. e ≡ Value f };

    fn from(fault: OrderFault) -> VertexFault {
        VertexFault::Value(fault)
    }
}

impl From<VertexFault> for Refusal {
    ghost from_gives = { λ f r. r ≡ refusal_of f };

    fn from(fault: VertexFault) -> Refusal {
        match fault {
            VertexFault::Work(fault) => Refusal::from(fault),
            VertexFault::Value(fault) => Refusal::from(fault),
        }
    }
}
