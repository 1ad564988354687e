ghost use Rattle.std.specs.Prelude.{◌≡◌, ◌<◌, ◌+◌, IfSome, length};
ghost use Rattle.fcg_views.specs.declared.view.Ref.{Ref};
ghost use Rattle.fcg_analysis.specs.Resolution.{resolved};
ghost use Rattle.fcg_join.specs.Parts.{types_of, nodes_of};
ghost use Rattle.fcg_join.specs.SetNames.{set_names};
ghost use Rattle.fcg_join.specs.Numbers.{HasRef};
ghost use Rattle.fcg_join.specs.Outcomes.{GivesOutcome, IfMethod};

use crate::sets::{Ask, holds};
use fcg_join::{Cause, Joined, MethodId, NumberedRef, Outcome};
use fcg_resolve::{resolve, resolve_numbered};
use fcg_views::{Name, Ref, Steps};
use std::alloc::Global;
use std::marker::Brand;
use std::sync::ledger::{Blank, Ledger};
use std::test::Fail;

/// The owner of a reference, whether it is an InterfaceMethodref, and the name and the descriptor.
pub(crate) type Target = (&'static str, bool, &'static str, &'static str);

pub(crate) fn new_ref(alloc: Global, target: &Target) -> Result<Ref, Fail> {
    let owner = Name::from_slice(alloc, target.0.as_bytes())?;
    let name = Name::from_slice(alloc, target.2.as_bytes())?;
    let desc = Name::from_slice(alloc, target.3.as_bytes())?;
    Ok(Ref {
        owner,
        owner_is_interface_ref: target.1,
        name,
        desc,
    })
}

fn resolve_with<L: Ledger>(joined: &Joined, reference: &Ref, blank: Blank) -> Outcome
    requires one { (blank.parts ≡ L.parts) × (0 < blank.parts) }
    requires name { blank.name ≡ L.name }
    ensures outcome { GivesOutcome joined.now result (resolved (types_of joined.now) reference.now) }
    ensures range { IfMethod result (λ m. m.0 < length (nodes_of joined.now)) }
{
    let mut steps = Steps::<L>::open(blank);
    resolve(joined, reference, &mut steps)
}

/// What a reference stands for, where no steps are counted.
pub(crate) fn resolve_named(joined: &Joined, reference: &Ref) -> Outcome
    ensures outcome { GivesOutcome joined.now result (resolved (types_of joined.now) reference.now) }
    ensures range { IfMethod result (λ m. m.0 < length (nodes_of joined.now)) }
{
    resolve_with::<Brand>(joined, reference, Blank::new(1))
}

/// The numbers of the names of a reference, where the set has them.
pub(crate) fn number_ref(joined: &Joined, target: &Target) -> Option<NumberedRef>
    ensures { IfSome result (λ r. (r.owner.0 < length (set_names joined.now)) × (r.name.0 < length (set_names joined.now)) × (r.desc.0 < length (set_names joined.now))) }
{
    match (
        joined.name_id(target.0.as_bytes()),
        joined.name_id(target.2.as_bytes()),
        joined.name_id(target.3.as_bytes()),
    ) {
        (Some(owner), Some(name), Some(desc)) => Some(NumberedRef {
            owner,
            owner_is_interface_ref: target.1,
            name,
            desc,
        }),
        _ => None,
    }
}

fn resolve_numbered_with<L: Ledger>(
    joined: &Joined,
    reference: NumberedRef,
    blank: Blank,
) -> Outcome
    requires one { (blank.parts ≡ L.parts) × (0 < blank.parts) }
    requires name { blank.name ≡ L.name }
    requires numbers { (reference.owner.0 < length (set_names joined.now)) × (reference.name.0 < length (set_names joined.now)) × (reference.desc.0 < length (set_names joined.now)) }
    ensures { (r : Ref) → HasRef joined.now reference r → GivesOutcome joined.now result (resolved (types_of joined.now) r) }
{
    let mut steps = Steps::<L>::open(blank);
    resolve_numbered(joined, reference, &mut steps)
}

/// What a reference by numbers stands for, where no steps are counted.
pub(crate) fn resolve_by_numbers(joined: &Joined, reference: NumberedRef) -> Outcome
    requires { (reference.owner.0 < length (set_names joined.now)) × (reference.name.0 < length (set_names joined.now)) × (reference.desc.0 < length (set_names joined.now)) }
    ensures { (r : Ref) → HasRef joined.now reference r → GivesOutcome joined.now result (resolved (types_of joined.now) r) }
{
    resolve_numbered_with::<Brand>(joined, reference, Blank::new(1))
}

// Two references add two steps.
fn resolve_two<L: Ledger>(
    joined: &Joined,
    first: &Ref,
    second: &Ref,
    steps: &mut Steps<L>,
) -> (Outcome, Outcome)
    ensures { steps.new ≡ steps.old + 2 }
{
    let outcome = resolve(joined, first, steps);
    (outcome, resolve(joined, second, steps))
}

// Whether a reference stands for this, by its names and, where the set has them, by their numbers.
fn is_outcome(joined: &Joined, reference: &Ref, target: &Target, outcome: Outcome) -> bool {
    let numbered = match number_ref(joined, target) {
        Some(numbered) => resolve_by_numbers(joined, numbered),
        None => outcome,
    };
    resolve_named(joined, reference) == outcome && numbered == outcome
}

const LOGGING: &[(&str, &str)] = &[
    (
        "shop:app:1",
        "class shop/Main static main([Ljava/lang/String;)V [ static log/Factory.get()Llog/Logger; \
         interface log/Logger.info(Ljava/lang/String;)V ]",
    ),
    (
        "log:api:1",
        "interface log/Logger abs info(Ljava/lang/String;)V class log/Factory static get()Llog/Logger; \
         [ static log/Binder.get()Llog/Logger; ]",
    ),
    (
        "log:impl:1",
        "class log/Binder static get()Llog/Logger; [ new impl/Simple special impl/Simple.<init>()V ] \
         class impl/Simple implements log/Logger pub <init>()V [ special java/lang/Object.<init>()V ] \
         pub info(Ljava/lang/String;)V [ static impl/Out.write(Ljava/lang/String;)V ] \
         class impl/Out static write(Ljava/lang/String;)V",
    ),
];

const OBJECT: &[(&str, &str)] = &[
    (
        "j:b:1",
        "class java/lang/Object without superclass pub hashCode()I private own()V static s()V",
    ),
    (
        "a:a:1",
        "class p/T static t()V [ virtual [I.hashCode()I virtual p/T.none()V ] interface p/I \
         class p/X extends x/Absent interface p/D pub s()V pub hashCode()I interface p/E implements p/D",
    ),
];

// References with what they stand for.
struct Outcomes(&'static [(Target, Outcome)]);

// Sets, with references of each.
const OUTCOMES: &[(&[(&str, &str)], Outcomes)] = &[
    (
        LOGGING,
        Outcomes(&[
            (
                ("log/Factory", true, "get", "()Llog/Logger;"),
                Outcome::Failed(Cause::KindMismatch),
            ),
            (
                ("log/Logger", false, "info", "(Ljava/lang/String;)V"),
                Outcome::Failed(Cause::KindMismatch),
            ),
            (
                ("log/Logger", true, "info", "(Ljava/lang/String;)V"),
                Outcome::Method(MethodId(1)),
            ),
            (
                ("java/lang/Object", false, "<init>", "()V"),
                Outcome::Phantom,
            ),
            (("impl/Out", false, "read", "()V"), Outcome::Phantom),
        ]),
    ),
    (
        OBJECT,
        Outcomes(&[
            (
                ("[I", false, "hashCode", "()I"),
                Outcome::Method(MethodId(0)),
            ),
            (("[I", false, "own", "()V"), Outcome::Method(MethodId(1))),
            (
                ("[I", true, "hashCode", "()I"),
                Outcome::Failed(Cause::KindMismatch),
            ),
            (
                ("p/T", false, "none", "()V"),
                Outcome::Failed(Cause::NoSuchMethod),
            ),
            (("p/X", false, "none", "()V"), Outcome::Phantom),
            (
                ("p/I", true, "hashCode", "()I"),
                Outcome::Method(MethodId(0)),
            ),
            (
                ("p/I", true, "own", "()V"),
                Outcome::Failed(Cause::NoSuchMethod),
            ),
            (("p/E", true, "s", "()V"), Outcome::Method(MethodId(4))),
            (
                ("p/E", true, "hashCode", "()I"),
                Outcome::Method(MethodId(0)),
            ),
            (
                ("p/D", true, "hashCode", "()I"),
                Outcome::Method(MethodId(5)),
            ),
            (("x/Absent", false, "none", "()V"), Outcome::Phantom),
        ]),
    ),
];

// Whether a reference stands for an outcome.
fn stands_for(
    alloc: Global,
    joined: &Joined,
    target: &Target,
    outcome: Outcome,
) -> Result<bool, Fail> {
    let reference = new_ref(alloc, target)?;
    Ok(is_outcome(joined, &reference, target, outcome))
}

impl Ask for Outcomes {
    fn holds(&self, alloc: Global, joined: &Joined) -> Result<bool, Fail> {
        let mut all = true;
        for row in self.0 {
            all = stands_for(alloc, joined, &row.0, row.1)? && all;
        }
        Ok(all)
    }
}

#[test]
fn resolves(rt: HostRuntime) -> Result<(), Fail> {
    for (releases, outcomes) in OUTCOMES {
        let all = holds(rt.alloc(), releases, outcomes)?;
        assert!(rt; all, "{releases:?}");
    }
    Ok(())
}

// Two references that name the wrong kind, with the count of one step each.
fn fail_both<L: Ledger>(joined: &Joined, first: &Ref, second: &Ref, blank: Blank) -> bool
    requires one { (blank.parts ≡ L.parts) × (0 < blank.parts) }
    requires name { blank.name ≡ L.name }
{
    let mut steps = Steps::<L>::open(blank);
    let outcomes = resolve_two(joined, first, second, &mut steps);
    let mismatch = Outcome::Failed(Cause::KindMismatch);
    outcomes.0 == mismatch && outcomes.1 == mismatch
}

fn both_fail(joined: &Joined, first: &Ref, second: &Ref) -> bool {
    fail_both::<Brand>(joined, first, second, Blank::new(1))
}

// Two references that fail, each for its kind.
struct Mismatches(Target, Target);

impl Ask for Mismatches {
    fn holds(&self, alloc: Global, joined: &Joined) -> Result<bool, Fail> {
        let first = new_ref(alloc, &self.0)?;
        let second = new_ref(alloc, &self.1)?;
        Ok(both_fail(joined, &first, &second))
    }
}

const MISMATCHES: Mismatches = Mismatches(
    ("log/Factory", true, "get", "()Llog/Logger;"),
    ("log/Logger", false, "info", "(Ljava/lang/String;)V"),
);

#[test]
fn counts_one_step_each(rt: HostRuntime) -> Result<(), Fail> {
    let fail = holds(rt.alloc(), LOGGING, &MISMATCHES)?;
    assert!(rt; fail);
    Ok(())
}
