// A line of a run, a word or a number, printed on standard output, and on standard error the message for a word that a program does not
// take: every program prints them here, and reads its input and counts its words here too. Entries for callers outside: they ask
// nothing, but `read_after`, that the buffer holds so much, and `with_input` and `with_whole`, that the closure may be called.
// What was read or written no contract can say; the bytes of a line are those of `lines::lay`, and the answer is how many they are. An
// error is that of the read or the write that failed; nothing is read or printed after it.
#![tactic(auto)]

ghost use Rattle.std.specs.Prelude.{◌≡◌, ◌≤◌, length, take, IfOk};
ghost use Rattle.io.specs.Counts.{IsPrefixLen};
ghost use Rattle.lines.specs.Line.{bytes_of};

use checks::Refused;
use lines::Line;
use std::env::{Env, FillError};
use std::io;
use std::io::{Input, Read};

// The bytes of a window of standard input, where a program keeps no more of it than one window.
pub const WINDOW: usize = 65_536;

// As many windows as 2 to the power 63 bytes have.
pub const WINDOWS: u64 = 140_737_488_355_328;

// Reads standard input behind the first bytes of a buffer, until it is full or the input ends, and answers how many bytes it then holds.
pub fn read_after(rt: &impl Input, buf: &mut [u8], held: usize) -> io::Result<usize>
    requires { held ≤ length buf.old }
    ensures within { IfOk result (λ n. IsPrefixLen n buf.new) }
    ensures after { IfOk result (λ n. held ≤ n) }
    ensures kept { take held buf.new ≡ take held buf.old }
{
    let mut reader = rt.reader();
    let mut done = held;
    while done < buf.len() {
        match reader.read(&mut buf[done..])? {
            0 => break,
            n => done += n,
        }
    }
    Ok(done)
}

// Reads standard input until a buffer is full or the input ends, and answers how many bytes it put at the buffer's start.
pub fn read_full(rt: &impl Input, buf: &mut [u8]) -> io::Result<usize>
    ensures { IfOk result (λ n. IsPrefixLen n buf.new) }
{
    read_after(rt, buf, 0)
}

// What a program makes of the next bytes of standard input, as many as there is room for.
pub fn with_input<R: Input, T, F: FnOnce(&[u8]) -> io::Result<T>>(
    rt: &R,
    room: &mut [u8],
    make: F,
) -> io::Result<T>
    requires { F.IsAlwaysCallable make }
{
    let n = read_full(rt, room)?;
    make(&room[..n])
}

// The room for a word: Linux hands a program none that is longer, where its pages have 4,096 bytes.
pub const LONGEST_WORD: usize = 131_072;

// How many words the program was started with, its own name among them.
pub fn arg_count(rt: &impl Env) -> usize {
    (0..usize::MAX)
        .find(|i| matches!(rt.arg(*i, &mut []), Err(FillError::NotPresent)))
        .unwrap_or(usize::MAX)
}

// Prints a line, and answers how many bytes it has.
pub fn print(rt: &impl Print, line: Line) -> io::Result<usize>
    ensures { IfOk result (λ n. n ≡ length (bytes_of line)) }
{
    let mut text = [0u8; 112];
    let n = lines::lay(line, &mut text);
    rt.write_all(&text[..n])?;
    Ok(n)
}

// Prints a word.
pub fn word(rt: &impl Print, text: &[u8]) -> io::Result<()> {
    rt.write_all(text)
}

// Prints a word, then a number.
pub fn number(rt: &impl Print, text: &[u8], n: u64) -> io::Result<()> {
    word(rt, text)?;
    rt.print(n)
}

// Prints a word, then two numbers and a space between them.
pub fn pair(rt: &impl Print, text: &[u8], a: u64, b: u64) -> io::Result<()> {
    number(rt, text, a)?;
    number(rt, b" ", b)
}

// Prints where something is refused: its number and its place.
pub fn stop(rt: &impl Print, refused: Refused) -> io::Result<()> {
    let Refused(refusal, place) = refused;
    print(rt, Line::Stop(refusal.number() as u64, place as u64))?;
    Ok(())
}

// What a program answers for its whole input; number 10 before all else.
pub fn with_whole<R: Input + Print, F: FnOnce(&[u8]) -> io::Result<()>>(
    rt: &R,
    answer: F,
) -> io::Result<()>
    requires { F.IsAlwaysCallable answer }
{
    let mut room = [0u8; checks::MOST_INPUT + 1];
    let n = read_full(rt, &mut room)?;
    match checks::input_length(n) {
        Ok(()) => answer(&room[..n]),
        Err(refused) => stop(rt, refused),
    }
}

// Prints one of two words.
pub fn either(rt: &impl Print, is: bool, one: &[u8], other: &[u8]) -> io::Result<()> {
    if is { word(rt, one) } else { word(rt, other) }
}

// As much of a word as a message shows.
const MOST: usize = 60;

// A text of a message, on standard error, which is what it is lent.
pub fn say(stderr: &impl Print, text: &[u8]) -> io::Result<()> {
    stderr.write_all(text)
}

// A byte as a message shows it: one that would end the line as `?`.
fn plain(byte: u8) -> u8 {
    if byte < b' ' { b'?' } else { byte }
}

// The start of a word.
fn show(stderr: &impl Print, word: &[u8]) -> io::Result<()> {
    let n = word.len().min(MOST);
    let mut text = [0u8; MOST];
    for (shown, byte) in text.iter_mut().zip(word) {
        *shown = plain(*byte);
    }
    say(stderr, &text[..n])?;
    if n < word.len() {
        say(stderr, b"..")?;
    }
    Ok(())
}

// The message for a word that a program does not take, one line: the program, the word's number and its start, and what was expected.
pub fn refuse(
    stderr: &impl Print,
    program: &[u8],
    i: usize,
    word: &[u8],
    expected: &[u8],
) -> io::Result<()> {
    say(stderr, program)?;
    say(stderr, b": word ")?;
    stderr.print(i)?;
    say(stderr, b", `")?;
    show(stderr, word)?;
    say(stderr, b"`: expected ")?;
    say(stderr, expected)?;
    say(stderr, b"\n")
}
