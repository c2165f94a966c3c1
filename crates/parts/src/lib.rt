// A run part by part: the lines of its events, laid into a lent buffer. An entry for callers outside: it asks nothing.
// Serves demands 1 and 2: R203 to R206.
#![tactic(auto)]

mod in_place;

ghost use Rattle.std.specs.Prelude.{◌≡◌, ◌&&◌, ◌+◌, ◌≤◌, leb};
ghost use Rattle.io.specs.Counts.{IsPrefixLen};
ghost use Rattle.lines.specs.Line.{line_room};
ghost use Rattle.parts.specs.Part.{Parts};

use state::Link;

// What a part of a run gives: how many bytes it laid, and whether the run goes on, with which link and at which place.
#[derive(Drop)]
pub struct PartRun {
    pub laid: usize,
    pub more: bool,
    pub link: Link,
    pub place: usize,
}

// Whether a part takes one event more: the run goes on, and the buffer has room for one more line.
pub fn takes_one(more: bool, laid: usize, room: usize) -> bool
    requires { laid ≤ room }
    ensures { result ≡ (more && leb (laid + line_room) room) }
{
    answers::takes_one(more, laid, room, lines::ROOM)
}

// A part of a run: events from a place on, laid into a lent buffer as long as the run goes on and there is room for one more line.
pub fn part(link: Link, input: &[u8], place: usize, out: &mut [u8]) -> PartRun
    ensures parts { Parts link input.now place out.old result out.new }
    ensures prefix_len { IsPrefixLen result.laid out.new }
{
    in_place::part_of(sound::is_sound(link), link, input, place, out)
}
