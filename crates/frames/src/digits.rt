// Hexadecimal digits in either case of letter, and the numbers that they make up.
ghost use Rattle.frames.specs.Parts.{Decides, IsDigit, DigitOf, AllDigits, NumberAt, Readable};

// What a digit stands for.
fn digit(b: u8) -> u32
    requires { IsDigit b }
    ensures { DigitOf b result }
{
    char::from(b).to_digit(16).unwrap()
}

// Whether each byte of the line is a digit.
pub fn all_digits(line: &[u8]) -> bool
    ensures { Decides (AllDigits line.now) result }
{
    line.iter().all(|b| b.is_ascii_hexdigit())
}

// The number of k digits from place `at` on.
pub fn number_at(line: &[u8], at: usize, k: usize) -> u32
    requires { Readable line.now at k }
    ensures { NumberAt line.now at k result }
{
    let mut x = 0;
    for b in &line[at..at + k] {
        x = x * 16 + digit(*b);
    }
    x
}
