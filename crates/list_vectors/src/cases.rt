//! The examples of path data and transforms, with the bits that they should have.

/// How many examples of lists there are: those of WORKED, the worked example in all, 4 other lists and 7 refusals.
// A constant that is written out: the lists and refusals are calls of the program, and no table has them.
pub const LISTS: usize = 20;

/// The commands of the worked example, each alone with the configuration before it and DONE after it.
// The texts and bits are given from outside; `example::commands` makes the same commands by our own constructors, and the two are compared.
pub const WORKED: [(&str, &str); 8] = [
    ("M 64 42", "0101111 10111 10100 01 00 1000000 0101010 111"),
    ("l 1 5", "0101111 10111 10100 01 100 1000 1100 111"),
    ("M 88 42", "0101111 10111 10100 01 00 1011000 0101010 111"),
    ("l 1 5 again", "0101111 10111 10100 01 100 1000 1100 111"),
    ("M 76 48", "0101111 10111 10100 01 00 1001100 0110000 111"),
    ("L 76 45", "0101111 10111 10100 01 011 1001100 0101101 111"),
    ("M 73 55", "0101111 10111 10100 01 00 1001001 0110111 111"),
    ("h 7", "0101111 10111 10100 01 110 1110 111"),
];

/// The worked example in all: 132 bits.
pub const WHOLE: &str =
    "0101111 10111 10100 01 00 1000000 0101010 100 1000 1100 00 1011000 0101010 100 1000 1100 00 1001100 0110000 011 1001100 0101101 00 1001001 0110111 110 1110 111";

/// L3 with all 26 available: its word is 01100, that of DONE 11111.
pub const THREE: &str =
    "0001000 0 0 11 0000 01100 0000000 0000000 0000000 0000000 0000000 0000000 11111";

/// The square: words 00, 01, 10 and 11.
pub const SQUARE: &str =
    "1000111 0 0 00 0000000 0000000 01 0000100 0000000 01 0000100 0000011 10 11";
