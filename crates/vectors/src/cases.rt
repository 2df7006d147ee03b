//! The examples. Where the specification's own text breaks the rule beside it, the rule decides: docs/FORMAT.md says which those are.
use lengths::Mode;

/// A number with its kind.
#[derive(Clone, Copy)]
pub enum Number {
    Natural(u32),
    Integer(Mode, i32),
}

/// The code length of a number, and how it is known.
#[derive(Clone, Copy)]
pub enum Length {
    /// This length, with no length field before the number.
    Agreed(u8),
    /// The default, which a length field names: 7 in absolute and 4 in relative mode.
    Default,
    /// The length that a length field sends.
    Sent(u8),
}

/// A number at a code length, and the bits that it should have.
#[derive(Clone, Copy)]
pub struct Case {
    /// The case in words.
    pub given: &'static str,
    pub number: Number,
    pub length: Length,
    pub expected: &'static str,
}

/// The examples of the format for numbers.
pub const CASES: [Case; 21] = [
    Case {
        given: "natural 9 at length 4",
        number: Number::Natural(9),
        length: Length::Agreed(4),
        expected: "1001",
    },
    Case {
        given: "natural 18 at length 4",
        number: Number::Natural(18),
        length: Length::Agreed(4),
        expected: "1111 0011",
    },
    Case {
        given: "natural 65, default length",
        number: Number::Natural(65),
        length: Length::Default,
        expected: "0 1000001",
    },
    Case {
        given: "natural 3, length 2 sent",
        number: Number::Natural(3),
        length: Length::Sent(2),
        expected: "1 0010 11 00",
    },
    Case {
        given: "natural 3, default length",
        number: Number::Natural(3),
        length: Length::Default,
        expected: "0 0000011",
    },
    Case {
        given: "natural 130, length 8 sent",
        number: Number::Natural(130),
        length: Length::Sent(8),
        expected: "1 1000 10000010",
    },
    Case {
        given: "natural 130, default length",
        number: Number::Natural(130),
        length: Length::Default,
        expected: "0 1111111 0000011",
    },
    Case {
        given: "absolute 126 at length 7",
        number: Number::Integer(Mode::Absolute, 126),
        length: Length::Agreed(7),
        expected: "1111110",
    },
    Case {
        given: "absolute 127 at length 7",
        number: Number::Integer(Mode::Absolute, 127),
        length: Length::Agreed(7),
        expected: "1111111 1 0000000",
    },
    Case {
        given: "absolute -1 at length 7",
        number: Number::Integer(Mode::Absolute, -1),
        length: Length::Agreed(7),
        expected: "1111111 0 0000000",
    },
    Case {
        given: "absolute -6 at length 3",
        number: Number::Integer(Mode::Absolute, -6),
        length: Length::Agreed(3),
        expected: "111 0 101",
    },
    Case {
        given: "absolute 2 at length 1",
        number: Number::Integer(Mode::Absolute, 2),
        length: Length::Agreed(1),
        expected: "1 1 1 0",
    },
    Case {
        given: "relative 9 at length 4",
        number: Number::Integer(Mode::Relative, 9),
        length: Length::Agreed(4),
        expected: "1111 1 0001",
    },
    Case {
        given: "relative -7 at length 4",
        number: Number::Integer(Mode::Relative, -7),
        length: Length::Agreed(4),
        expected: "0000",
    },
    Case {
        given: "relative -8 at length 4",
        number: Number::Integer(Mode::Relative, -8),
        length: Length::Agreed(4),
        expected: "1111 0 0000",
    },
    Case {
        given: "absolute 65, default length",
        number: Number::Integer(Mode::Absolute, 65),
        length: Length::Default,
        expected: "0 1000001",
    },
    Case {
        given: "absolute -6, length 3 sent",
        number: Number::Integer(Mode::Absolute, -6),
        length: Length::Sent(3),
        expected: "1 0011 111 0 101",
    },
    Case {
        given: "relative 9, default length",
        number: Number::Integer(Mode::Relative, 9),
        length: Length::Default,
        expected: "0 1111 1 0001",
    },
    Case {
        given: "relative 9, length 5 sent",
        number: Number::Integer(Mode::Relative, 9),
        length: Length::Sent(5),
        expected: "1 0101 11000",
    },
    Case {
        given: "relative 7, default length",
        number: Number::Integer(Mode::Relative, 7),
        length: Length::Default,
        expected: "0 1110",
    },
    Case {
        given: "relative -6, default length",
        number: Number::Integer(Mode::Relative, -6),
        length: Length::Default,
        expected: "0 0001",
    },
];
