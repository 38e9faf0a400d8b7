// Outcomes as the records that cross a call, where these hold more than an answer: what was given stands in them on a
// refusal, or a flag says which of two the outcome is.
ghost use Rattle.std.specs.Prelude.{◌≡◌};
ghost use Rattle.branch.specs.Outcomes.{branch_in};
ghost use Rattle.follower.specs.Outcomes.{followed_in, moved_in};
ghost use Rattle.inclusion.specs.Judging.{inclusion_in};
ghost use Rattle.lists.specs.Odometer.{next_in};
ghost use Rattle.shares.specs.Outcome.{shares_in};

use branch::Outcome;
use model::{
    Branch, Followed, Follower, Inclusion, LINES_WIDTH, Listed, MOST_BRANCH_EVENTS, Moved, Next,
    Refused, Shares,
};
use shares::Counts;

// The follower as it was stands in the record of a refusal.
pub(crate) fn followed(was: Follower, outcome: Result<(Follower, bool), Refused>) -> Followed
    ensures { result ≡ followed_in was outcome }
{
    match outcome {
        Ok((follower, yes)) => Followed {
            number: 0,
            place: 0,
            yes,
            follower,
        },
        Err(refused) => Followed {
            number: refused.fault.number(),
            place: refused.place,
            yes: false,
            follower: was,
        },
    }
}

pub(crate) fn moved(outcome: Result<bool, Refused>) -> Moved
    ensures { result ≡ moved_in outcome }
{
    match outcome {
        Ok(yes) => Moved {
            number: 0,
            place: 0,
            yes,
        },
        Err(refused) => Moved {
            number: refused.fault.number(),
            place: refused.place,
            yes: false,
        },
    }
}

// The word given stands in the record where it was the last, and on a refusal.
pub(crate) fn next_of(given: Listed, outcome: Result<Option<Listed>, Refused>) -> Next
    ensures { result ≡ next_in given outcome }
{
    match outcome {
        Ok(Some(word)) => Next {
            number: 0,
            place: 0,
            last: false,
            word,
        },
        Ok(None) => Next {
            number: 0,
            place: 0,
            last: true,
            word: given,
        },
        Err(refused) => Next {
            number: refused.fault.number(),
            place: refused.place,
            last: false,
            word: given,
        },
    }
}

pub(crate) fn found_of(outcome: Result<Option<usize>, Refused>) -> Inclusion
    ensures { result ≡ inclusion_in outcome }
{
    match outcome {
        Ok(found) => Inclusion {
            number: 0,
            place: 0,
            included: found.is_none(),
            events: found.unwrap_or(0),
        },
        Err(refused) => Inclusion {
            number: refused.fault.number(),
            place: refused.place,
            included: false,
            events: 0,
        },
    }
}

pub(crate) fn shares_of(outcome: Result<Counts, Refused>) -> Shares
    ensures { result ≡ shares_in outcome }
{
    match outcome {
        Ok(counts) => {
            let lines = counts.lines;
            Shares {
                number: 0,
                place: 0,
                greatest: counts.greatest,
                lines,
            }
        }
        Err(refused) => Shares {
            number: refused.fault.number(),
            place: refused.place,
            greatest: 0,
            lines: [0; LINES_WIDTH],
        },
    }
}

const NO_RUN: Branch = Branch {
    number: 0,
    place: 0,
    found: false,
    start: 0,
    edges: [0; MOST_BRANCH_EVENTS],
    held: false,
    position: 0,
};

// All is zero but what the outcome tells.
pub(crate) fn branch_of(outcome: Result<Outcome, Refused>) -> Branch
    ensures { result ≡ branch_in outcome }
{
    match outcome {
        Ok(Outcome::Accepts(run)) => {
            let edges = run.edges;
            Branch {
                found: true,
                start: run.start,
                edges,
                ..NO_RUN
            }
        }
        Ok(Outcome::Blank { held: None }) => NO_RUN,
        Ok(
            Outcome::Blank {
                held: Some(position),
            },
        ) => Branch {
            held: true,
            position,
            ..NO_RUN
        },
        Err(refused) => Branch {
            number: refused.fault.number(),
            place: refused.place,
            ..NO_RUN
        },
    }
}
