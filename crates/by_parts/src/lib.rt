// A run of an input, part by part, until it ends: the loop that `linkrun`, the box's loop and `recorded` share. How a part is made and what
// becomes of its text is the caller's; a part meets the contract of `parts::part`. Serves demands 1 and 2.
#![tactic(auto)]

ghost use Rattle.std.specs.Prelude.{ℕ, ◌≤◌, length};
ghost use Rattle.io.specs.Counts.{IsPrefixLen};
ghost use Rattle.parts.specs.declared.PartRun.{PartRun};
ghost use Rattle.parts.specs.Part.{Parts};

use parts::PartRun;
use run::Step;
use state::Link;
use std::io;

// Takes the text of each part after a run's first step.
pub fn each_part<
    P: Fn(Link, &[u8], usize, &mut [u8]) -> PartRun,
    W: FnMut(&[u8]) -> io::Result<()>,
>(step: Step, input: &[u8], text: &mut [u8], part: P, mut take: W) -> io::Result<()>
    requires room { 112 ≤ length text.old }
    requires makes { P.IsAlwaysCallable part }
    requires takes { W.IsAlwaysCallable take }
    requires parts { (l : _) (s : _) (k : ℕ) (out : _) (r : _) (to : _) → P.post part l s k out r to → Parts l s.now k out.now r to.now }
    requires within { (l : _) (s : _) (k : ℕ) (out : _) (r : _) (to : _) → P.post part l s k out r to → IsPrefixLen r.laid to.now }
{
    let mut at = PartRun {
        laid: 0,
        more: step.more,
        link: step.link,
        place: step.place,
    };
    while at.more {
        at = part(at.link, input, at.place, text);
        take(&text[..at.laid])?;
    }
    Ok(())
}
