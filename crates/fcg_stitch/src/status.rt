//! What becomes of sites.
ghost use Rattle.std.specs.Prelude.{◌≡◌, count_by, map};
ghost use Rattle.fcg_analysis.specs.Resolution as rules;
ghost use Rattle.fcg_partial.specs.Parts.{PartShown};
ghost use Rattle.fcg_analysis.specs.Edges.{status_of_outcome, is_phantom_status, is_failed_status};
ghost use Rattle.fcg_join.specs.Outcomes.{GivesOutcome};
ghost use Rattle.fcg_stitch.specs.Status.{status_shown};
ghost use Rattle.std.specs.Prelude.{List};

use fcg_join::{Cause, Outcome};

/// What becomes of a site.
#[derive(Clone, Copy, Debug, PartialEq, Eq)]
pub enum SiteStatus {
    /// It makes no call: it makes a new object, or uses a static field.
    NoCall,
    /// Its reference stands for a method of a known type.
    Method,
    /// Its reference stands for a method that isn't known.
    Phantom,
    /// Its reference stands for nothing.
    Failed(Cause),
}

// The status of a site that calls, by what its reference stands for.
pub(crate) fn status_of(outcome: Outcome) -> SiteStatus
    ensures { (parts : List PartShown) (o : rules.Outcome) → GivesOutcome parts outcome o → status_shown result ≡ status_of_outcome o }
{
    match outcome {
        Outcome::Method(_) => SiteStatus::Method,
        Outcome::Phantom => SiteStatus::Phantom,
        Outcome::Failed(cause) => SiteStatus::Failed(cause),
    }
}

// Whether the reference of a site stands for a method that isn't known.
fn is_phantom(status: SiteStatus) -> bool
    ensures { result ≡ is_phantom_status (status_shown status) }
{
    match status {
        SiteStatus::Phantom => true,
        SiteStatus::NoCall => false,
        SiteStatus::Method => false,
        SiteStatus::Failed(_) => false,
    }
}

// Whether the reference of a site stands for nothing.
fn is_failed(status: SiteStatus) -> bool
    ensures { result ≡ is_failed_status (status_shown status) }
{
    match status {
        SiteStatus::Failed(_) => true,
        SiteStatus::NoCall => false,
        SiteStatus::Method => false,
        SiteStatus::Phantom => false,
    }
}

// How many sites have references that stand for methods that aren't known.
pub(crate) fn count_phantoms(statuses: &[SiteStatus]) -> u64
    ensures { result ≡ count_by is_phantom_status (map status_shown statuses.now) }
{
    statuses
        .iter()
        .filter(|status| is_phantom(**status))
        .count() as u64
}

// How many sites have references that stand for nothing.
pub(crate) fn count_failed(statuses: &[SiteStatus]) -> u64
    ensures { result ≡ count_by is_failed_status (map status_shown statuses.now) }
{
    statuses.iter().filter(|status| is_failed(**status)).count() as u64
}
