// Why the intake has nothing to report on a text.
ghost use Rattle.std.specs.Prelude.{◌≡◌};
ghost use Rattle.closing.specs.declared.fault.SkinFault.TheVariants.{Text};
ghost use Rattle.intake.specs.declared.fault.IntakeFault.TheVariants.{Skin, Memory};

use closing::fault::SkinFault;
use sheet::fault::TextFault;
use std::alloc::AllocError;

#[derive(Clone, Copy)]
pub enum IntakeFault {
    // the sheet was declined
    Skin(SkinFault),
    // there was no memory for its tables
    Memory,
}

impl From<TextFault> for IntakeFault {
    ghost from_gives = { λ x y. y ≡ Skin (Text x) };

    fn from(fault: TextFault) -> IntakeFault {
        IntakeFault::Skin(SkinFault::Text(fault))
    }
}

impl From<SkinFault> for IntakeFault {
    ghost from_gives = { λ x y. y ≡ Skin x };

    fn from(fault: SkinFault) -> IntakeFault {
        IntakeFault::Skin(fault)
    }
}

impl From<AllocError> for IntakeFault {
    ghost from_gives = { λ _ y. y ≡ Memory };

    fn from(_error: AllocError) -> IntakeFault {
        IntakeFault::Memory
    }
}
