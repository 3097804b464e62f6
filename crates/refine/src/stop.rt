// Why a part of the program stops.
use refusal::Refusal;
use std::alloc::AllocError;
use std::io;
use writer::fault::WriteFault;

#[derive(Drop)]
pub enum Stop {
    // a call declined
    Declined(Refusal),
    // there was no memory
    Memory,
    // nothing could be printed
    Io(io::Error),
}

impl From<Refusal> for Stop {
    fn from(refusal: Refusal) -> Stop {
        Stop::Declined(refusal)
    }
}

impl From<io::Error> for Stop {
    fn from(error: io::Error) -> Stop {
        Stop::Io(error)
    }
}

impl From<WriteFault> for Stop {
    fn from(fault: WriteFault) -> Stop {
        fault.refusal().map_or(Stop::Memory, Stop::Declined)
    }
}

impl From<AllocError> for Stop {
    fn from(_error: AllocError) -> Stop {
        Stop::Memory
    }
}
