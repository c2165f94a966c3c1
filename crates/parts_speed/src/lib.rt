// The run by parts that bin/speed times, in a crate of its own, so that the compiler sees what a program sees that runs by parts. No part
// of the product. The base has no such run.
#![tactic(auto)]

ghost use Rattle.std.specs.Prelude.{◌≡◌};
ghost use Rattle.run.specs.Run.{begin_of};
ghost use Rattle.parts_speed.specs.Laid.{laid_in};

use parts::PartRun;

// The lines of a recording's events, part by part into one lent buffer, so many parts at most; how many bytes they are.
#[unsafe(no_mangle)]
pub extern "C" fn speed_run(input: &[u8], parts: usize, out: &mut [u8]) -> usize
    ensures value { result ≡ (laid_in parts input.now (begin_of input.now) out.old).bytes }
    ensures out_after { out.new ≡ (laid_in parts input.now (begin_of input.now) out.old).buffer }
{
    let begun = run::begin(input);
    let link = begun.link;
    let mut part = PartRun {
        laid: 0,
        more: begun.more,
        link,
        place: begun.place,
    };
    let mut bytes: usize = 0;
    for _n in 0..parts {
        if !part.more {
            return bytes;
        }
        part = parts::part(part.link, input, part.place, out);
        bytes = std::num::wrapping_add_usize(bytes, part.laid);
    }
    bytes
}
