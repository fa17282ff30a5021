// The class of each byte value.
ghost use Rattle.std.specs.Prelude.{◌≡◌};
ghost use Rattle.chars.specs.Bytes.{letter, digit, hex_digit};
ghost use Rattle.chars.specs.Classes.{classes, Classed};
ghost use Rattle.names.specs.PlainBytes.{Laid};

// The numbers of the classes that are asked for. 8 are ( ) , ; = @, 13 is %, 15 other ASCII, 20 none of all these. No enum: "256 class numbers .. in one
// constant table" are wanted, and the sets of bytes are ranges of them (`Classed` in crates/chars/specs/Classes.antt).
pub(crate) const DIGIT: u8 = 0;

// A-F a-f.
pub(crate) const HEX_LETTER: u8 = 1;

// Any other letter.
pub(crate) const LETTER: u8 = 2;

// - and the dot.
pub(crate) const DOT: u8 = 3;

pub(crate) const UNDERSCORE: u8 = 4;

pub(crate) const TILDE: u8 = 5;

pub(crate) const PLUS: u8 = 6;

// ! $ & ' *
pub(crate) const STAR: u8 = 7;

pub(crate) const COLON: u8 = 9;

pub(crate) const SLASH: u8 = 10;

pub(crate) const QUESTION: u8 = 11;

pub(crate) const NUMBER_SIGN: u8 = 12;

// ^ ` |
pub(crate) const BAR: u8 = 14;

// A byte that goes on a character of UTF-8, and the first byte of two, three, four.
pub(crate) const CONTINUATION: u8 = 16;

pub(crate) const LEAD2: u8 = 17;

pub(crate) const LEAD3: u8 = 18;

pub(crate) const LEAD4: u8 = 19;

const CLASS: [u8; 256] = [
    15, 15, 15, 15, 15, 15, 15, 15, 15, 15, 15, 15, 15, 15, 15, 15, 15, 15, 15, 15, 15, 15, 15, 15,
    15, 15, 15, 15, 15, 15, 15, 15, 15, 7, 15, 12, 7, 13, 7, 7, 8, 8, 7, 6, 8, 3, 3, 10, 0, 0, 0,
    0, 0, 0, 0, 0, 0, 0, 9, 8, 15, 8, 15, 11, 8, 1, 1, 1, 1, 1, 1, 2, 2, 2, 2, 2, 2, 2, 2, 2, 2, 2,
    2, 2, 2, 2, 2, 2, 2, 2, 2, 15, 15, 15, 14, 4, 14, 1, 1, 1, 1, 1, 1, 2, 2, 2, 2, 2, 2, 2, 2, 2,
    2, 2, 2, 2, 2, 2, 2, 2, 2, 2, 2, 15, 14, 15, 5, 15, 16, 16, 16, 16, 16, 16, 16, 16, 16, 16, 16,
    16, 16, 16, 16, 16, 16, 16, 16, 16, 16, 16, 16, 16, 16, 16, 16, 16, 16, 16, 16, 16, 16, 16, 16,
    16, 16, 16, 16, 16, 16, 16, 16, 16, 16, 16, 16, 16, 16, 16, 16, 16, 16, 16, 16, 16, 16, 16, 16,
    16, 16, 16, 16, 16, 17, 17, 17, 17, 17, 17, 17, 17, 17, 17, 17, 17, 17, 17, 17, 17, 17, 17, 17,
    17, 17, 17, 17, 17, 17, 17, 17, 17, 17, 17, 17, 17, 18, 18, 18, 18, 18, 18, 18, 18, 18, 18, 18,
    18, 18, 18, 18, 18, 19, 19, 19, 19, 19, 19, 19, 19, 20, 20, 20, 20, 20, 20, 20, 20,
];

// The table, for a caller to lend to all its lookups: a constant is laid out anew wherever it is named.
pub fn table() -> [u8; 256]
    ensures { result ≡ classes }
{
    CLASS
}

// Lays the table out in an array, where it is wanted.
pub(crate) fn lay_table(t: &mut [u8; 256], wanted: bool)
    ensures { Laid wanted t.new }
{
    if wanted {
        *t = table();
    }
}

pub(crate) fn class(t: &[u8; 256], b: u8) -> u8
    requires { t.now ≡ classes }
    ensures { Classed b result }
{
    t[b as usize]
}

pub(crate) fn is_digit(t: &[u8; 256], b: u8) -> bool
    requires { t.now ≡ classes }
    ensures { result ≡ digit b }
{
    class(t, b) == DIGIT
}

pub fn is_hex_digit(t: &[u8; 256], b: u8) -> bool
    requires { t.now ≡ classes }
    ensures { result ≡ hex_digit b }
{
    class(t, b) <= HEX_LETTER
}

pub(crate) fn is_letter(t: &[u8; 256], b: u8) -> bool
    requires { t.now ≡ classes }
    ensures { result ≡ letter b }
{
    let k = class(t, b);
    (HEX_LETTER <= k) & (k <= LETTER)
}
