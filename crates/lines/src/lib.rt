// The lines that a program prints, and a line laid into a lent buffer. `lay` is an entry for callers outside and asks nothing; `lay_at`
// asks for room. The bytes are those of R165, of R167 to R174 and of R218.
#![tactic(auto)]

ghost use Rattle.std.specs.Prelude.{[], ◌∷◌, ◌+◌, ◌≤◌, length};
ghost use Rattle.io.specs.Counts.{IsPrefixLen};
ghost use Rattle.digits.specs.Laid.{LaidAt};
ghost use Rattle.lines.specs.Line.{spaced, text_of, why_text, bytes_of, line_room, Lays};
ghost use Rattle.lines.specs.Laid.{end_of};
ghost use Rattle.lines.specs.declared.Line.TheVariants.{In, Out, Silent};

// Why a leaf is silent, in a word.
#[derive(Clone, Copy)]
pub enum Why {
    Empty,
    Waits,
    Short,
    Due,
}

// One line for each thing.
#[derive(Clone, Copy)]
pub enum Line {
    // classes, Q
    Link(u64, u64),
    // class, length, tag, the charged bytes then in its queue
    In(u64, u64, u64, u64),
    // class, length, tag, number: a refused arrival
    No(u64, u64, u64, u64),
    // class, length, tag, rounds, the bytes charged from its acceptance to its end
    Out(u64, u64, u64, u64, u64),
    // refusal 15
    Nothing,
    // the packets still waiting
    End(u64),
    // number, place
    Stop(u64, u64),
    // class, request, what it gets, what stays unallotted
    Rate(u64, u64, u64, u64),
    // class, why it is silent, the bytes that it lacks
    Silent(u64, Why, u64),
    // class, number: of this class no reason is told
    NotTold(u64, u64),
}

// The room that a buffer must have for one more line; no line has more bytes.
pub const ROOM: usize = 112;

// Lays one space and a number.
fn put_number(n: u64, at: usize, out: &mut [u8]) -> usize
    requires { at + 21 ≤ length out.old }
    ensures laid_at { LaidAt at (spaced n) out.old result out.new }
    ensures upper_bound { result ≤ at + 21 }
{
    out[at] = b' ';
    if n < 10_000 {
        return digits::put_few(n as u32, at + 1, out);
    }
    digits::put_large(n, at + 1, out)
}

// The same. One digit is laid here: handed to `put_number` it would cost a call, and the last number of most lines has one.
fn put_spaced(n: u64, at: usize, out: &mut [u8]) -> usize
    requires { at + 21 ≤ length out.old }
    ensures laid_at { LaidAt at (spaced n) out.old result out.new }
    ensures upper_bound { result ≤ at + 21 }
{
    if 10 <= n {
        return put_number(n, at, out);
    }
    out[at] = b' ';
    out[at + 1] = digits::byte_of(n as u32);
    at + 2
}

// Lays the last number of a line, and the end of the line.
fn put_last(a: u64, at: usize, out: &mut [u8]) -> usize
    requires { at + 22 ≤ length out.old }
    ensures laid_at { LaidAt at (end_of (a ∷ [])) out.old result out.new }
    ensures upper_bound { result ≤ at + 22 }
{
    let end = put_spaced(a, at, out);
    out[end] = b'\n';
    end + 1
}

// Lays the last two.
fn put_last_two(a: u64, b: u64, at: usize, out: &mut [u8]) -> usize
    requires { at + 43 ≤ length out.old }
    ensures laid_at { LaidAt at (end_of (a ∷ b ∷ [])) out.old result out.new }
    ensures upper_bound { result ≤ at + 43 }
{
    let next = put_number(a, at, out);
    put_last(b, next, out)
}

// Lays the last three.
fn put_last_three(a: u64, b: u64, c: u64, at: usize, out: &mut [u8]) -> usize
    requires { at + 64 ≤ length out.old }
    ensures laid_at { LaidAt at (end_of (a ∷ b ∷ c ∷ [])) out.old result out.new }
    ensures upper_bound { result ≤ at + 64 }
{
    let next = put_number(a, at, out);
    put_last_two(b, c, next, out)
}

// Lays the last four.
fn put_last_four(a: u64, b: u64, c: u64, d: u64, at: usize, out: &mut [u8]) -> usize
    requires { at + 85 ≤ length out.old }
    ensures laid_at { LaidAt at (end_of (a ∷ b ∷ c ∷ d ∷ [])) out.old result out.new }
    ensures upper_bound { result ≤ at + 85 }
{
    let next = put_number(a, at, out);
    put_last_three(b, c, d, next, out)
}

// Lays the last five: no line has more.
fn put_last_five(a: u64, b: u64, c: u64, d: u64, e: u64, at: usize, out: &mut [u8]) -> usize
    requires { at + 106 ≤ length out.old }
    ensures laid_at { LaidAt at (end_of (a ∷ b ∷ c ∷ d ∷ e ∷ [])) out.old result out.new }
    ensures upper_bound { result ≤ at + 106 }
{
    let next = put_number(a, at, out);
    put_last_four(b, c, d, e, next, out)
}

// Lays the line of an accepted arrival from a place on where the longest line has room, and answers the place after it. A run lays the
// lines of most of its events so, and by `lay_out`: a `Line` made for `lay_at` would cost two stores and loads for each number.
pub fn lay_in(class: u64, len: u64, tag: u64, bytes: u64, at: usize, out: &mut [u8]) -> usize
    requires { at + line_room ≤ length out.old }
    ensures laid_at { LaidAt at (bytes_of (In class len tag bytes)) out.old result out.new }
    ensures upper_bound { result ≤ at + line_room }
{
    let next = digits::put(b"in", at, out);
    put_last_four(class, len, tag, bytes, next, out)
}

// Lays the line of a packet that was sent.
pub fn lay_out(
    class: u64,
    len: u64,
    tag: u64,
    rounds: u64,
    waited: u64,
    at: usize,
    out: &mut [u8],
) -> usize
    requires { at + line_room ≤ length out.old }
    ensures laid_at { LaidAt at (bytes_of (Out class len tag rounds waited)) out.old result out.new }
    ensures upper_bound { result ≤ at + line_room }
{
    let next = digits::put(b"out", at, out);
    put_last_five(class, len, tag, rounds, waited, next, out)
}

// Lays a word and two numbers.
fn lay_two(word: &[u8], a: u64, b: u64, at: usize, out: &mut [u8]) -> usize
    requires { (length word.now ≤ 6) × (at + line_room ≤ length out.old) }
    ensures laid_at { LaidAt at (text_of word.now (a ∷ b ∷ [])) out.old result out.new }
    ensures upper_bound { result ≤ at + line_room }
{
    let next = digits::put(word, at, out);
    put_last_two(a, b, next, out)
}

// Lays a word and four numbers.
fn lay_four(word: &[u8], a: u64, b: u64, c: u64, d: u64, at: usize, out: &mut [u8]) -> usize
    requires { (length word.now ≤ 6) × (at + line_room ≤ length out.old) }
    ensures laid_at { LaidAt at (text_of word.now (a ∷ b ∷ c ∷ d ∷ [])) out.old result out.new }
    ensures upper_bound { result ≤ at + line_room }
{
    let next = digits::put(word, at, out);
    put_last_four(a, b, c, d, next, out)
}

// Lays one space and the word of a reason.
fn put_why(why: Why, at: usize, out: &mut [u8]) -> usize
    requires { at + 6 ≤ length out.old }
    ensures laid_at { LaidAt at (why_text why) out.old result out.new }
    ensures upper_bound { result ≤ at + 6 }
{
    match why {
        Why::Empty => digits::put(b" empty", at, out),
        Why::Waits => digits::put(b" waits", at, out),
        Why::Short => digits::put(b" short", at, out),
        Why::Due => digits::put(b" due", at, out),
    }
}

// Lays the line of a leaf's reason.
fn lay_silent(class: u64, why: Why, lacks: u64, at: usize, out: &mut [u8]) -> usize
    requires { at + line_room ≤ length out.old }
    ensures laid_at { LaidAt at (bytes_of (Silent class why lacks)) out.old result out.new }
    ensures upper_bound { result ≤ at + line_room }
{
    let word = digits::put(b"silent", at, out);
    let named = put_number(class, word, out);
    let told = put_why(why, named, out);
    put_last(lacks, told, out)
}

// Lays a line from a place on where the longest has room, and answers the place after it.
pub fn lay_at(line: Line, at: usize, out: &mut [u8]) -> usize
    requires { at + line_room ≤ length out.old }
    ensures laid_at { LaidAt at (bytes_of line) out.old result out.new }
    ensures upper_bound { result ≤ at + line_room }
{
    match line {
        Line::Link(classes, size) => lay_two(b"link", classes, size, at, out),
        Line::In(class, len, tag, bytes) => lay_in(class, len, tag, bytes, at, out),
        Line::No(class, len, tag, number) => lay_four(b"no", class, len, tag, number, at, out),
        Line::Out(class, len, tag, rounds, waited) => lay_out(
            class, len, tag, rounds, waited, at, out,
        ),
        Line::Nothing => digits::put(b"none\n", at, out),
        Line::End(waiting) => {
            let next = digits::put(b"end", at, out);
            put_last(waiting, next, out)
        }
        Line::Stop(number, place) => lay_two(b"stop", number, place, at, out),
        Line::Rate(class, request, gets, unallotted) => lay_four(
            b"rate", class, request, gets, unallotted, at, out,
        ),
        Line::Silent(class, why, lacks) => lay_silent(class, why, lacks, at, out),
        Line::NotTold(class, number) => lay_two(b"no", class, number, at, out),
    }
}

// Lays a line at the buffer's start, and answers how many bytes it has. The last clause is what a caller needs to lend that part.
pub fn lay(line: Line, out: &mut [u8; 112]) -> usize
    ensures lays { Lays line out.old result out.new }
    ensures prefix_len { IsPrefixLen result out.new }
{
    lay_at(line, 0, out)
}
