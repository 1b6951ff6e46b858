// The calls and their buffers.

use std::fmt;
use std::fmt::{Display, Formatter, Write};

// A call of the library.
#[derive(Clone, Copy, PartialEq, Eq)]
pub enum Call {
    Check,
    Build,
    Compare,
    Labels,
    Tour,
    Lifts,
    Trail,
    List,
}

pub const CALLS: [Call; 8] = [
    Call::Check,
    Call::Build,
    Call::Compare,
    Call::Labels,
    Call::Tour,
    Call::Lifts,
    Call::Trail,
    Call::List,
];

// The calls that ask pairs, each by a route.
pub const ROUTES: [Call; 3] = [Call::Labels, Call::Tour, Call::Lifts];

impl Call {
    // Whether it asks pairs.
    pub fn asks_pairs(self) -> bool {
        match self {
            Call::Labels | Call::Tour | Call::Lifts => true,
            _ => false,
        }
    }

    // Whether it is lent a question.
    pub fn asks(self) -> bool {
        match self {
            Call::Check | Call::Build | Call::Compare => false,
            _ => true,
        }
    }

    // Whether it is lent tables that hold a sheet's own.
    pub fn reads_tables(self) -> bool {
        self.asks() || self == Call::Compare
    }

    // Whether it is lent a buffer.
    pub fn is_lent(self, buffer: Buffer) -> bool {
        match buffer {
            Buffer::Sheet | Buffer::Work => true,
            Buffer::Label | Buffer::Tour | Buffer::Lift | Buffer::Order => self != Call::Check,
            Buffer::Question | Buffer::Answer => self.asks(),
            Buffer::Trail => self == Call::Trail,
        }
    }

    // Whether it is lent a buffer of an exact length: the question of a list is free.
    pub fn has_exact(self, buffer: Buffer) -> bool {
        self.is_lent(buffer) && !(self == Call::List && buffer == Buffer::Question)
    }
}

impl Display for Call {
    fn fmt<W: Write>(&self, f: &mut Formatter<W>) -> fmt::Result {
        f.write_str(match self {
            Call::Check => "check",
            Call::Build => "build",
            Call::Compare => "compare",
            Call::Labels => "pairs by labels",
            Call::Tour => "pairs by tour",
            Call::Lifts => "pairs by lifts",
            Call::Trail => "trail",
            Call::List => "list",
        })
    }
}

// A buffer, with its number.
#[derive(Clone, Copy, PartialEq, Eq)]
pub enum Buffer {
    Sheet = 0,
    Label = 1,
    Tour = 2,
    Lift = 3,
    Work = 4,
    Question = 5,
    Answer = 6,
    Trail = 7,
    Order = 8,
}

// The buffers beside the sheet, by their numbers.
pub const BUFFERS: [Buffer; 8] = [
    Buffer::Label,
    Buffer::Tour,
    Buffer::Lift,
    Buffer::Work,
    Buffer::Question,
    Buffer::Answer,
    Buffer::Trail,
    Buffer::Order,
];

impl Display for Buffer {
    fn fmt<W: Write>(&self, f: &mut Formatter<W>) -> fmt::Result {
        f.write_str(match self {
            Buffer::Sheet => "sheet",
            Buffer::Label => "label",
            Buffer::Tour => "tour",
            Buffer::Lift => "lift",
            Buffer::Work => "work",
            Buffer::Question => "question",
            Buffer::Answer => "answer",
            Buffer::Trail => "trail",
            Buffer::Order => "order",
        })
    }
}
