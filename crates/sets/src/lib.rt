// Sets of classes in a 64-bit number: is a class in, put one in, take one out, the common ones, and the next one from a place on.
#![tactic(auto)]

ghost use Rattle.std.specs.Prelude.{◌≡◌, true, cond, ◌≤◌, ◌<◌};
ghost use Rattle.sets.specs.Set.{has, with, without, Both, Next};

// Class numbers, the root's among them: a set of them fits a 64-bit number.
pub const CLASSES: usize = 64;

// Is the class in the set?
pub fn has(set: u64, class: usize) -> bool
    requires { class < 64 }
    ensures { result ≡ has set class }
{
    (set >> class) & 1 == 1
}

// Is the number, any number, a class in the set?
pub fn holds(set: u64, number: usize) -> bool
    ensures { (result ≡ has set number) × (result ≡ true → number < 64) }
{
    number < CLASSES && has(set, number)
}

// The set with the class put in.
pub fn with(set: u64, class: usize) -> u64
    requires { class < 64 }
    ensures { result ≡ with set class }
{
    set | (1 << class)
}

// The set with the class put in where the flag is set, and else as it is.
pub fn with_if(set: u64, class: usize, put: bool) -> u64
    requires { class < 64 }
    ensures { result ≡ cond put (with set class) set }
{
    if put { with(set, class) } else { set }
}

// The set with the class taken out.
pub fn without(set: u64, class: usize) -> u64
    requires { class < 64 }
    ensures { result ≡ without set class }
{
    set & !(1 << class)
}

// The classes that are in both sets.
pub fn both(a: u64, b: u64) -> u64
    ensures { Both a b result }
{
    a & b
}

// The lowest class of the set from the place on, or 64 where there is none.
pub fn next(set: u64, place: usize) -> usize
    requires { place ≤ 64 }
    ensures { Next set place result }
{
    if place == CLASSES {
        return CLASSES;
    }
    let rest = (set >> place) << place;
    rest.trailing_zeros() as usize
}
