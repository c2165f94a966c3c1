// A recording of any length from standard input, judged (R306): `good` claims, or `false` place, or `stop` number place. It reads window by
// window and calls; what a part gives stands in `claims`. Its memory is that of one window. Run on the listing and compared.
#![tactic(auto)]

ghost use Rattle.std.specs.Prelude.{◌≡◌, ◌≤◌, length, IfOk, IfSome};

use checks::Refused;
use claims::{Checked, Judged};
use shown::{WINDOW, WINDOWS};
use std::io;

// Prints what a recording is judged to be.
fn show(rt: &impl Print, judged: Judged) -> io::Result<()> {
    match judged {
        Judged::Good(claims) => println!(rt; "good {claims}"),
        Judged::FalseAt(place) => println!(rt; "false {place}"),
        Judged::Stop(refused) => shown::stop(rt, refused),
    }
}

// Where a check that goes on stands: what it gives so far, and from which place of its window on the next part begins.
#[derive(Drop)]
struct At {
    check: Checked,
    from: usize,
}

impl At {
    // The next window begins with what the last one's entries left.
    fn moved_on(self) -> At
        ensures { result.from ≡ 0 }
    {
        At {
            check: self.check,
            from: 0,
        }
    }
}

// Where a check goes on; where it has ended, what it gives is printed.
fn stands(rt: &impl Print, check: Checked, from: usize, last: bool) -> io::Result<Option<At>>
    ensures { IfOk result (λ o. IfSome o (λ (r : At). r.from ≡ from)) }
{
    if check.more && !last {
        return Ok(Some(At { check, from }));
    }
    show(rt, check.judged)?;
    Ok(None)
}

// The plan of the first window; its entries begin after it.
fn after_plan(rt: &impl Print, window: &[u8]) -> io::Result<Option<At>>
    ensures { IfOk result (λ o. IfSome o (λ (r : At). r.from ≤ length window.now)) }
{
    let check = claims::begin(window);
    stands(rt, check, check.place, false)
}

// The entries of a window, from a place of it on.
fn next_window(rt: &impl Print, at: At, window: &[u8], last: bool) -> io::Result<Option<At>>
    requires { at.from ≤ length window.now }
    ensures { IfOk result (λ o. IfSome o (λ (r : At). r.from ≤ length window.now)) }
{
    let before = at.check;
    let rest = plan::events_after(window, at.from);
    let check = claims::part(before.link, before.place, before.claims, rest, last);
    stands(rt, check, at.from + (check.place - before.place), last)
}

fn main(rt: HostRuntime) -> io::Result<()> {
    let mut window = [0u8; WINDOW];
    let mut n = shown::read_full(&rt, &mut window)?;
    let Some(mut at) = after_plan(&rt, &window[..n])? else {
        return Ok(());
    };
    for _window in 0..WINDOWS {
        let Some(next) = next_window(&rt, at, &window[..n], n < WINDOW)? else {
            return Ok(());
        };
        let kept = stream::carry(&mut window, next.from, n);
        n = shown::read_after(&rt, &mut window, kept)?;
        at = next.moved_on();
    }
    Ok(())
}
