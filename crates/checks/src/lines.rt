// The lines of a script: a letter that says what is done, numbers with a space before each, and ` : ` with a name behind it.

// How many numbers a line has at most; those that it does not give are 0.
pub(crate) const NUMBERS: usize = 7;

// How many bytes part the numbers from the name: ` : `.
const BEFORE_NAME: usize = 3;

// What a line says.
#[derive(Clone, Copy)]
pub(crate) struct Line<'a> {
    // A byte: `Checks::play` says why.
    pub(crate) letter: u8,
    pub(crate) numbers: [u64; NUMBERS],
    pub(crate) name: &'a [u8],
}

impl<'a> Line<'a> {
    // What a line of a letter and the rest behind it says.
    pub(crate) fn new(letter: u8, mut rest: &'a [u8]) -> Line<'a> {
        let mut numbers = [0u64; NUMBERS];
        for number in numbers.iter_mut() {
            let Some((value, behind)) = number_in(rest) else {
                break;
            };
            *number = value;
            rest = behind;
        }
        Line {
            letter,
            numbers,
            name: rest.get(BEFORE_NAME..).unwrap_or(&[]),
        }
    }
}

// The number that stands behind a space at the front of a line, and what stands behind it.
fn number_in(line: &[u8]) -> Option<(u64, &[u8])> {
    let (b' ', digits) = line.split_first()? else {
        return None;
    };
    let count = digits
        .iter()
        .position(|byte| !byte.is_ascii_digit())
        .unwrap_or(digits.len());
    if count == 0 {
        return None;
    }
    let (number, behind) = digits.split_at(count);
    Some((number.iter().fold(0, with_digit), behind))
}

// A number with one more digit, in 64 bits; 0, where ten times the number is wider. The digits behind go on from there, so this is no
// `parse`, which refuses the whole of a number that is too wide.
fn with_digit(value: u64, digit: &u8) -> u64 {
    let digit = u64::from(digit.wrapping_sub(b'0'));
    value
        .checked_mul(10)
        .map_or(0, |tens| tens.wrapping_add(digit))
}

// What a number is below 2^8.
pub(crate) fn byte(n: u64) -> u8 {
    (n & 0xff) as u8
}
