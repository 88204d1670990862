// What there is to do at a place.
use lw_base::{KindId, PointId};

/// What is to be done at a place of a program. A place is the number of an instruction, and the places that an
/// instruction names are greater than its own.
#[derive(Clone, Copy, Debug, PartialEq, Eq)]
pub enum Instr {
    /// Reads a token of this kind.
    Token(KindId),
    /// The end of a value that is put into a property.
    End,
    /// The end of a node.
    Shut,
    /// The action of this number.
    Act(u32),
    /// What stands from the first place up to the end, one after another.
    Row {
        first: u32,
        end: u32,
    },
    /// One of the places from the first up to the end: that of the way that is taken at this choice.
    Choice {
        point: PointId,
        first: u32,
        end: u32,
    },
    /// The body or nothing.
    Maybe {
        point: PointId,
        body: u32,
    },
    /// The body any number of times.
    Loop {
        point: PointId,
        body: u32,
    },
    /// The body of the loop at this place, and then that loop: the body once or more.
    Once {
        rest: u32,
    },
    /// The value at the first place, with an `End` behind it, goes where the put of this number says.
    Put {
        put: u32,
        first: u32,
    },
    /// What the rule of this number reads.
    Call {
        rule: u16,
    },
}
