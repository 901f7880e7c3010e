//! Why an input is refused.

use std::alloc::AllocError;
use thiserror::Error;

/// What is wrong with a script or an event list, with the name of the field where it is. Status 2, but
/// for `Memory`.
#[derive(Clone, Copy, Debug, PartialEq, Eq, Error)]
pub enum ScriptFault {
    /// The bytes are no JSON text: not UTF-8, not by the grammar, a number that is no finite float, or
    /// nested deeper than 127.
    #[error("J1 NotJson")]
    NotJson,
    /// A field is not there.
    #[error("J2 Missing {0}")]
    Missing(&'static str),
    /// A value of another kind than the field wants; of a list's element the list's name is given.
    #[error("J3 Kind {0}")]
    Kind(&'static str),
    /// A value of the right kind outside its range, or a name that is badly formed.
    #[error("J4 Range {0}")]
    Range(&'static str),
    /// A name that nothing has to which the field can refer.
    #[error("J5 UnknownName {0}")]
    UnknownName(&'static str),
    /// A name that is taken, with the list in which it stands the second time; or a bank that is listed
    /// twice.
    #[error("J6 DoubleName {0}")]
    DoubleName(&'static str),
    /// A route from a FIFO that another route leads from, with its place in the list, from 0.
    #[error("J7 FifoTwice {0}")]
    FifoTwice(usize),
    /// A list with too many elements, an input with too many bytes, a node too many of its segment, or a
    /// route too many into its controller.
    #[error("J8 TooMany {0}")]
    TooMany(&'static str),
    /// A version of scripts that is not known.
    #[error("J9 Version")]
    Version,
    /// Memory ran out. Status 3.
    #[error("J10 Memory")]
    Memory,
    /// A field that no object of its kind has, in version 3. The name is `script`, or that of the list in
    /// which the object is an element.
    #[error("J11 Unknown {0}")]
    Unknown(&'static str),
}

impl From<AllocError> for ScriptFault {
    ghost use Rattle.std.specs.Prelude.{◌≡◌};
    ghost use Rattle.gw_fields.specs.declared.script_fault.ScriptFault.TheVariants.{Memory};

    ghost from_gives = { λ _ e. e ≡ Memory };

    fn from(_refused: AllocError) -> ScriptFault {
        ScriptFault::Memory
    }
}
