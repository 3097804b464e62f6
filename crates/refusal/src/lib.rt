// How a call that declines is told: the number of the cause, the value that it returns, and the layer that declined.
#![tactic(auto)]

ghost use Rattle.std.specs.Prelude.{◌≡◌, Some};
ghost use Rattle.refusal.specs.Lines.{told, word, line};
ghost use Rattle.refusal.specs.Refusals.{bare, with_whole};

use std::fmt;

// The number of the cause, and the value returned with it, where there is one. (Each layer has an enum of its faults; the numbers here are
// what users know them by, over all layers, so they stay numbers.)
#[derive(Clone, Copy, PartialEq, Eq, Debug)]
pub struct Refusal {
    pub number: u32,
    pub value: Option<i128>,
}

impl Refusal {
    // One that returns nothing.
    pub fn bare(number: u32) -> Refusal
        ensures { result ≡ bare number }
    {
        Refusal {
            number,
            value: None,
        }
    }

    // One that returns a whole number.
    pub fn with(number: u32, value: i128) -> Refusal
        ensures { result ≡ with_whole number value }
    {
        Refusal {
            number,
            value: Some(value),
        }
    }
}

// The number, and the value where there is one.
impl fmt::Display for Refusal {
    ghost output = { λ x. Some (told x) };

    fn fmt<W: fmt::Write>(&self, f: &mut fmt::Formatter<W>) -> fmt::Result {
        let number = self.number;
        match self.value {
            Some(value) => write!(f, "{number} {value}"),
            None => write!(f, "{number}"),
        }
    }
}

// The part of the works that declined.
#[derive(Clone, Copy, PartialEq, Eq, Debug)]
pub enum Layer {
    // reading and writing of sheets
    Text,
    // closing a sheet, and spreading its points
    Skin,
}

impl Layer {
    // The layer's word in a refusal line.
    pub fn name(self) -> &'static str
        ensures { result.now ≡ word self }
    {
        match self {
            Layer::Text => "text",
            Layer::Skin => "skin",
        }
    }
}

// The one line that a program prints in place of a result: `refused NUMBER VALUE LAYER`.
#[derive(Clone, Copy, PartialEq, Eq, Debug)]
pub struct Refused {
    pub refusal: Refusal,
    pub layer: Layer,
}

impl fmt::Display for Refused {
    ghost output = { λ x. Some (line x) };

    fn fmt<W: fmt::Write>(&self, f: &mut fmt::Formatter<W>) -> fmt::Result {
        let number = self.refusal.number;
        let value = self.refusal.value.unwrap_or(0);
        let layer = self.layer.name();
        writeln!(f, "refused {number} {value} {layer}")
    }
}
