// A planner's words (R175, R177): a number, and CLASS=REQUEST, from any bytes. Entries for callers outside: they ask nothing.
#![tactic(auto)]

ghost use Rattle.std.specs.Prelude.{◌≡◌, ◌<◌, ◌≤◌, length};
ghost use Rattle.words.specs.Step.{with_digit};
ghost use Rattle.words.specs.Word.{index_of, word_number, asks, pair_of};

// A number so far with one byte more.
fn with_digit(sofar: u64, byte: u8) -> Option<u64>
    ensures { result ≡ with_digit sofar byte }
{
    if !matches!(byte, b'0'..=b'9') {
        return None;
    }
    sofar.checked_mul(10)?.checked_add(u64::from(byte - b'0'))
}

// The number that a word is: one digit or more, of a value below 2 to the power 64.
pub fn read_number(text: &[u8]) -> Option<u64>
    ensures { result ≡ word_number text.now }
{
    if text.is_empty() {
        return None;
    }
    let mut number = 0;
    for byte in text {
        number = with_digit(number, *byte)?;
    }
    Some(number)
}

// A class and its request, from two numbers.
fn both(class: Option<u64>, request: Option<u64>) -> Option<(usize, u64)>
    ensures { result ≡ asks class request }
{
    let class = class?;
    let request = request?;
    if 63 < class {
        return None;
    }
    Some((class as usize, request))
}

// The place of the first such byte; the length where there is none.
pub fn place_of(text: &[u8], byte: u8) -> usize
    ensures place { result ≡ index_of byte text.now }
    ensures within { result ≤ length text.now }
{
    text.iter()
        .position(|other| *other == byte)
        .unwrap_or(text.len())
}

// The class and the request that a word names, CLASS=REQUEST: a class from 0 to 63, and a number.
pub fn read_pair(text: &[u8]) -> Option<(usize, u64)>
    ensures { result ≡ pair_of text.now }
{
    let (class, rest) = text.split_at(place_of(text, b'='));
    let (_, request) = rest.split_first()?;
    let class = read_number(class);
    let request = read_number(request);
    both(class, request)
}
