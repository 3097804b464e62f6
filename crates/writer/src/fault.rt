// Why a sheet was not written.
ghost use Rattle.std.specs.Prelude.{◌≡◌};
ghost use Rattle.writer.specs.Refusals.{refusal_of};
ghost use Rattle.writer.specs.declared.fault.WriteFault.TheVariants.{Memory};

use refusal::Refusal;
use std::alloc::AllocError;

#[derive(Clone, Copy, PartialEq, Eq, Debug)]
pub enum WriteFault {
    // the point table is too short: the places needed
    Points(u32),
    // the buffer is too short: the bytes needed
    Buffer(usize),
    // no memory for the table of vertex numbers
    Memory,
}

impl WriteFault {
    // The number of the cause and the value returned; none for want of memory, which is no fault of the call.
    // No conversion: one that can fail would want an error type with nothing to say.
    pub fn refusal(self) -> Option<Refusal>
        ensures { result ≡ refusal_of self }
    {
        match self {
            WriteFault::Points(places) => Some(Refusal::with(1, places as i128)),
            WriteFault::Buffer(places) => Some(Refusal::with(1, places as i128)),
            WriteFault::Memory => None,
        }
    }
}

impl From<AllocError> for WriteFault {
    ghost from_gives = { λ _ r. r ≡ Memory };

    fn from(_e: AllocError) -> WriteFault {
        Self::Memory
    }
}
