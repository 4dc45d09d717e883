//! Why a call is denied. The bench's fault carries the rule's, which carries the text's whole; number, place and layer are definitions over all three.
ghost use Rattle.std.specs.Prelude.{◌≡◌};
ghost use Rattle.calls.specs.Faults.{number, place, layer};
ghost use Rattle.calls.specs.declared.faults.Fault.TheVariants.{Rule as Carried};

use rules::faults::{Layer, RuleFault};
use thiserror::Error;

// The first question before a call that is answered no.
#[derive(Clone, Copy, PartialEq, Eq, Debug, Error)]
pub enum Fault {
    #[error("the number of members is not from 1 to 48")]
    Members,
    #[error("a size is not allowed, or too few places are handed over")]
    Places,
    #[error("a shelf number is not below 16")]
    Shelf,
    #[error("a shelf that is read is empty")]
    Empty,
    #[error("the member is not from 1 to n")]
    Member,
    #[error(transparent)]
    Rule(RuleFault),
    #[error("the nodes in the shelves and those of the workings are more than there are places")]
    Nodes,
    #[error("the buffer is too short")]
    Buffer,
}

// By hand, since `from_gives` says which fault a `?` makes, and a derived `From` does not.
impl From<RuleFault> for Fault {
    ghost from_gives = { λ fault r. r ≡ Carried fault };

    fn from(fault: RuleFault) -> Fault {
        Fault::Rule(fault)
    }
}

impl Fault {
    // The number of the question that was answered no.
    pub fn number(self) -> u8
        ensures { result ≡ number self }
    {
        match self {
            Fault::Members => 1,
            Fault::Places => 2,
            Fault::Shelf => 3,
            Fault::Empty => 4,
            Fault::Member => 5,
            Fault::Rule(fault) => fault.number(),
            Fault::Nodes => 14,
            Fault::Buffer => 15,
        }
    }

    // The byte offset of the fault in the rule's text, where it has one.
    pub fn place(self) -> Option<usize>
        ensures { result ≡ place self }
    {
        match self {
            Fault::Rule(fault) => fault.place(),
            _ => None,
        }
    }

    // The layer of a fault that has a place. Beside `place`, which asks the rule's fault otherwise: one function for both would take a closure and be longer.
    pub fn layer(self) -> Option<Layer>
        ensures { result ≡ layer self }
    {
        match self {
            Fault::Rule(fault) => fault.layer(),
            _ => None,
        }
    }
}
