// The plan reader in two halves: the records, each put to the tree so far, and then closing.
// Serves demand 1: numbers 1 to 9, 17 and 18, each given exactly when R53 to R60, R224 and R225 say, for the first check broken (R63).
ghost use Rattle.std.specs.Prelude.{◌≡◌, false, ◌+◌, ◌^◌, ◌≤◌, ◌<◌, length, Err};
ghost use Rattle.checks.specs.Check.{first_broken, refusal_at};
ghost use Rattle.tree.specs.Rules.{Light, closing_checks};
ghost use Rattle.tree.specs.Class.{no_tree};
ghost use Rattle.plan.specs.Record.{kind_at, missing, unknown, cut};
ghost use Rattle.plan.specs.declared.kind.Section.TheVariants.{Plan};
ghost use Rattle.plan.specs.Reader.{rule_first, follows_of, after, records_of, closed, outcome};
ghost use Rattle.plan.specs.Steps.{ClassSays, PlainSays, RuleStops, WholeSays, StepSays};

use crate::kind::{RecordKind, Section};
use crate::record::HeadFault;
use crate::{PlanRead, kind, record};
use checks::{Refusal, Refused};
use tree::{Class, Tree};

// How reading goes on after a record: onward at a place, nowhere after the end record, or refused.
pub type Following = Result<Option<usize>, Refused>;

// The rule that a plan begins with: the place after its record, and whether it is rule 2. Place 0 and rule 1 where there is none.
// A struct and no Option: place 0 and rule 1 are what `after` and `follows_of` (specs/Reader) say of a plan with no rule record.
#[derive(Drop)]
pub struct Opening {
    pub place: usize,
    pub follows: bool,
}

#[derive(Drop)]
pub struct RecordRead {
    pub next: Following,
    pub tree: Tree,
}

// A class put to the tree: number 3, then numbers 4, 5 and 6.
fn put_class(tree: Tree, class: Class, place: usize, to: usize) -> RecordRead
    ensures { ClassSays tree class place to result.tree result.next }
{
    if Tree::MOST <= tree.count {
        let next = Err(Refused(Refusal::TooMany, place));
        return RecordRead { next, tree };
    }
    let grown = tree.added(class);
    let last = grown.count;
    let v = tree::class_fault(grown, last, place);
    match v {
        Ok(()) => {
            let next = Ok(Some(to));
            RecordRead { next, tree: grown }
        }
        Err(refused) => {
            let next = Err(refused);
            RecordRead { next, tree }
        }
    }
}

// A whole record that gives no class: a rule record stops the reader, with number 17 at the start and 18 anywhere else; any other ends
// the plan.
fn no_class(place: usize, kind: RecordKind, tree: Tree) -> RecordRead
    ensures { PlainSays kind place result.next }
{
    if !kind::gives_rule(kind) {
        let next = Ok(None);
        return RecordRead { next, tree };
    }
    if place == 0 {
        let next = Err(Refused(Refusal::BadRule, place));
        return RecordRead { next, tree };
    }
    let next = Err(Refused(Refusal::LateRule, place));
    RecordRead { next, tree }
}

// A whole record: a class record is put to the tree; any other stops the reader or ends the plan.
fn take_whole(rest: &[u8], place: usize, kind: RecordKind, tree: Tree) -> RecordRead
    requires { (cut rest.now ≡ false) × (kind ≡ kind_at rest.now) × (place + length rest.now < 2 ^ 64)
        × RuleStops rest.now place }
    ensures { WholeSays rest.now place tree result.tree result.next }
{
    if !kind::gives_class(kind) {
        return no_class(place, kind, tree);
    }
    let end = kind::record_length(kind);
    let leaf = kind::gives_leaf(kind);
    let class = record::read_class(leaf, &rest[1..end]);
    put_class(tree, class, place, place + end)
}

// The record at a place, put to the tree so far.
fn take_record(input: &[u8], place: usize, tree: Tree) -> RecordRead
    requires { (place ≤ length input.now) × (place ≡ 0 → rule_first input.now ≡ false) }
    ensures { StepSays input.now place tree result.tree result.next }
{
    match record::read_head(&input[place..], Section::Plan) {
        Err(HeadFault::NoKindByte) => {
            let next = Err(Refused(Refusal::Cut, input.len()));
            RecordRead { next, tree }
        }
        Err(HeadFault::StrangeKind) => {
            let next = Err(Refused(Refusal::UnknownKind, place));
            RecordRead { next, tree }
        }
        Err(HeadFault::CutBody) => {
            let next = Err(Refused(Refusal::Cut, place));
            RecordRead { next, tree }
        }
        Ok(kind) => take_whole(&input[place..], place, kind, tree),
    }
}

// The rule of a whole record that stands first.
fn whole_rule(input: &[u8], kind: RecordKind) -> Opening
    requires { (missing input.now ≡ false) × (unknown Plan input.now ≡ false) × (cut input.now ≡ false)
        × (kind ≡ kind_at input.now) }
    ensures { (result.place ≡ after input.now 0) × (result.follows ≡ follows_of input.now) }
{
    if !kind::gives_rule(kind) {
        return Opening {
            place: 0,
            follows: false,
        };
    }
    let end = kind::record_length(kind);
    let rule = record::read_rule(&input[1..end]);
    // 1 and 2 are the byte's own numbers: the tree keeps a bool, so an enum would be made here only to be taken apart by the reader.
    match rule {
        1 => Opening {
            place: end,
            follows: false,
        },
        2 => Opening {
            place: end,
            follows: true,
        },
        _ => Opening {
            place: 0,
            follows: false,
        },
    }
}

// The rule that the plan begins with.
fn read_opening(input: &[u8]) -> Opening
    ensures { (result.place ≡ after input.now 0) × (result.follows ≡ follows_of input.now) }
{
    match record::read_head(input, Section::Plan) {
        Err(HeadFault::NoKindByte) => Opening {
            place: 0,
            follows: false,
        },
        Err(HeadFault::StrangeKind) => Opening {
            place: 0,
            follows: false,
        },
        Err(HeadFault::CutBody) => Opening {
            place: 0,
            follows: false,
        },
        Ok(kind) => whole_rule(input, kind),
    }
}

// A refused plan: 0 bytes used and the tree without classes.
fn refuse(refused: Refused) -> PlanRead
    ensures { result ≡ outcome (Err refused) no_tree 0 }
{
    let tree = Tree::none();
    PlanRead {
        verdict: Err(refused),
        used: 0,
        tree,
    }
}

// The records: after the rule each is put to the tree, up to the end record. What they say before 9, 8 and 7 are looked at, so a plan that
// one of these alone would refuse has its tree and the bytes used here.
pub fn read_records(input: &[u8]) -> PlanRead
    ensures { result ≡ records_of input.now }
{
    let opening = read_opening(input);
    let mut tree = Tree::none();
    tree.follows = opening.follows;
    let mut place = opening.place;
    loop {
        let step = take_record(input, place, tree);
        let next = step.next;
        match next {
            Err(refused) => {
                return refuse(refused);
            }
            Ok(None) => {
                let used = place + 1;
                let verdict = Ok(());
                return PlanRead {
                    verdict,
                    used,
                    tree,
                };
            }
            Ok(Some(to)) => {
                let grown = step.tree;
                tree = grown;
                place = to;
            }
        }
    }
}

// Closing: records that broke no rule go on to the checks after the end record.
pub(crate) fn close_plan(records: PlanRead) -> PlanRead
    requires { Light records.tree }
    ensures { result ≡ closed records }
{
    let verdict = records.verdict;
    match verdict {
        Ok(()) => close_tree(records.tree, records.used),
        Err(_) => records,
    }
}

// The checks after the end record, and the outcome.
fn close_tree(tree: Tree, used: usize) -> PlanRead
    requires { Light tree }
    ensures { result ≡ outcome (first_broken (closing_checks tree)) tree used }
{
    let v = tree::closing(tree);
    match v {
        Ok(()) => PlanRead {
            verdict: v,
            used,
            tree,
        },
        Err(refused) => refuse(refused),
    }
}
