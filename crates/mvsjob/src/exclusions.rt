//! Options that have no meaning together.

use crate::options::Apart;
use clap::ArgMatches;

/// An option, and the options that have no meaning with it.
type Excluding = (&'static str, &'static [&'static str]);

/// The options that have no meaning together.
static EXCLUDING: [Excluding; 13] = [
    (
        "code",
        &[
            "FILE",
            "rule",
            "random",
            "judge",
            "check",
            "blank",
            "ask",
            "assemble",
            "schedules",
            "schedule",
            "explain",
            "leaks",
            "json",
            "page",
            "strict",
            "interactive",
            "place",
            "color",
        ],
    ),
    (
        "rule",
        &[
            "FILE",
            "random",
            "judge",
            "check",
            "blank",
            "ask",
            "assemble",
            "schedules",
            "schedule",
            "explain",
            "leaks",
            "json",
            "page",
            "strict",
            "interactive",
            "place",
            "color",
        ],
    ),
    (
        "random",
        &[
            "FILE",
            "judge",
            "check",
            "blank",
            "ask",
            "assemble",
            "schedules",
            "schedule",
            "explain",
            "leaks",
            "json",
            "page",
            "strict",
            "interactive",
            "place",
            "color",
        ],
    ),
    (
        "judge",
        &[
            "check",
            "blank",
            "ask",
            "assemble",
            "schedules",
            "schedule",
            "explain",
            "leaks",
            "json",
            "page",
            "strict",
            "interactive",
            "place",
            "color",
        ],
    ),
    (
        "check",
        &[
            "blank",
            "ask",
            "assemble",
            "schedules",
            "schedule",
            "explain",
            "leaks",
            "json",
            "page",
            "strict",
            "interactive",
            "color",
        ],
    ),
    (
        "blank",
        &[
            "ask",
            "assemble",
            "schedules",
            "schedule",
            "explain",
            "leaks",
            "json",
            "page",
            "strict",
            "interactive",
            "place",
            "color",
        ],
    ),
    (
        "ask",
        &[
            "assemble",
            "schedules",
            "schedule",
            "explain",
            "leaks",
            "json",
            "page",
            "strict",
            "interactive",
            "place",
            "color",
        ],
    ),
    (
        "assemble",
        &[
            "schedules",
            "schedule",
            "explain",
            "leaks",
            "json",
            "page",
            "strict",
            "interactive",
            "place",
            "color",
        ],
    ),
    (
        "schedules",
        &[
            "schedule",
            "explain",
            "leaks",
            "page",
            "strict",
            "interactive",
            "color",
        ],
    ),
    ("schedule", &["interactive"]),
    ("json", &["page", "color"]),
    ("page", &["interactive", "color"]),
    ("with", &["leaks", "strict"]),
];

/// The options that have a meaning with another one only, and that one.
static NEEDING: [(&str, &str); 8] = [
    ("with", "page"),
    ("with-schedule", "with"),
    ("open", "page"),
    ("lines", "random"),
    ("profile", "random"),
    ("hide", "check"),
    ("format", "check"),
    ("ignore-addresses", "schedules"),
];

// Returns whether an option is there; one without a value is, where it is set.
fn is_given(matches: &ArgMatches<'_>, name: &str) -> bool {
    match matches.get_str(name) {
        Some(value) => value != "false",
        None => false,
    }
}

/// Returns the first two options that have no meaning together, if there are such.
pub fn apart(matches: &ArgMatches<'_>) -> Option<Apart> {
    for (one, others) in EXCLUDING {
        for other in others {
            if is_given(matches, one) && is_given(matches, other) {
                return Some(Apart::Excludes(one, other));
            }
        }
    }
    for (one, other) in NEEDING {
        if is_given(matches, one) && !is_given(matches, other) {
            return Some(Apart::Needs(one, other));
        }
    }
    if is_given(matches, "most") && !is_given(matches, "judge") && !is_given(matches, "schedules") {
        return Some(Apart::Needs("most", "schedules"));
    }
    None
}
