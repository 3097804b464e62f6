// What reading and writing a text can decline with.
ghost use Rattle.std.specs.Prelude.{◌≡◌};
ghost use Rattle.sheet.specs.Refusals.{refusal_of};

use refusal::Refusal;

#[derive(Clone, Copy, PartialEq, Eq, Debug)]
pub enum TextFault {
    // a table or buffer is too short: the places needed
    Short(usize),
    // a token is not of the form: its byte place
    Form(usize),
    // a number is past its limit: its byte place
    Limit(usize),
}

// The number of the cause and the value returned.
impl From<TextFault> for Refusal {
    ghost from_gives = { λ fault refusal. refusal ≡ refusal_of fault };

    fn from(fault: TextFault) -> Refusal {
        match fault {
            TextFault::Short(places) => Refusal::with(1, places as i128),
            TextFault::Form(place) => Refusal::with(8, place as i128),
            TextFault::Limit(place) => Refusal::with(9, place as i128),
        }
    }
}
