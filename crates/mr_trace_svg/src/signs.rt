//! The signs of a picture, and what they mean.
//! `render` puts one at each event, and their key at the top.
use crate::drawing::Sign;
use crate::svg::{Point, earlier_style, later_style, line, shape, text};
use std::alloc::AllocError;

const DOT: &str = "M-3 0a3 3 0 1 0 6 0a3 3 0 1 0 -6 0";

const RING: &str = "M-5 0a5 5 0 1 0 10 0a5 5 0 1 0 -10 0";

const BAR: &str = "M-7 0H7";

const CROSS: &str = "M-6 -6L6 6M6 -6L-6 6";

const BREAK: &str = "M-7 -4H7V4H-7zM-3 -7V7M3 -7V7";

const BOX: &str = "M-6 -6H6V6H-6z";

const DIAMOND: &str = "M0 -8L8 0L0 8L-8 0z";

const STAR: &str =
    "M0 -10L2.4 -3.2L9.5 -3.1L3.8 1.2L5.9 8.1L0 4L-5.9 8.1L-3.8 1.2L-9.5 -3.1L-2.4 -3.2z";

const FLAG: &str = "M-4 9V-9L8 -4L-4 1";

/// The sign of an event, at its place in a lane.
pub fn put_sign(out: &mut String, sign: Sign, at: Point) -> Result<(), AllocError> {
    match sign {
        Sign::Dot => shape(out, "dot", at, DOT),
        Sign::Start => shape(out, "begin", at, RING),
        Sign::Crash | Sign::Death => shape(out, "dead", at, CROSS),
        Sign::Restart => shape(out, "restart", at, BREAK),
        Sign::Expiry => shape(out, "dot", at, DOT),
        Sign::Permission => shape(out, "told", at, RING),
        Sign::TaskCommit => shape(out, "commit", at, DIAMOND),
        Sign::Winner => shape(out, "winner", at, RING),
        Sign::JobCommit => shape(out, "job", at, BOX),
        Sign::Marker => shape(out, "marker", at, STAR),
        Sign::Success => shape(out, "outcome", at, FLAG),
        Sign::Failure => shape(out, "failure", at, FLAG),
        Sign::Refusal => shape(out, "refusal", at, RING),
        Sign::Stop => shape(out, "over", at, BAR),
    }
}

/// Where a life begins.
pub fn put_begin(out: &mut String, at: Point) -> Result<(), AllocError> {
    shape(out, "begin", at, RING)
}

/// Where a life ends by itself.
pub fn put_over(out: &mut String, at: Point) -> Result<(), AllocError> {
    shape(out, "over", at, BAR)
}

/// Where a life is ended.
pub fn put_dead(out: &mut String, at: Point) -> Result<(), AllocError> {
    shape(out, "dead", at, CROSS)
}

/// The node that is given up.
pub fn put_given_up(out: &mut String, at: Point) -> Result<(), AllocError> {
    shape(out, "given", at, BOX)
}

// A place of the key: what it shows, and what that means.
struct Meaning {
    // Which place of its line it is.
    place: u64,
    mark: Mark,
    words: &'static [u8],
}

// What the key shows.
#[derive(Clone, Copy)]
enum Mark {
    Sign(Sign),
    Begin,
    Over,
    Dead,
    GivenUp,
    // The stroke of a packet, by its class.
    Stroke(&'static str),
}

// What lives and packets look like.
const LIVES: [Meaning; 9] = [
    Meaning {
        place: 0,
        mark: Mark::Sign(Sign::Dot),
        words: b"event",
    },
    Meaning {
        place: 1,
        mark: Mark::Begin,
        words: b"begins",
    },
    Meaning {
        place: 2,
        mark: Mark::Over,
        words: b"ends by itself",
    },
    Meaning {
        place: 3,
        mark: Mark::Dead,
        words: b"dies, crashes, or is killed",
    },
    Meaning {
        place: 5,
        mark: Mark::Sign(Sign::Restart),
        words: b"node restarts",
    },
    Meaning {
        place: 6,
        mark: Mark::GivenUp,
        words: b"node is given up",
    },
    Meaning {
        place: 7,
        mark: Mark::Stroke("packet"),
        words: b"packet",
    },
    Meaning {
        place: 8,
        mark: Mark::Stroke("repeat"),
        words: b"once more",
    },
    Meaning {
        place: 9,
        mark: Mark::Stroke("lost"),
        words: b"not delivered",
    },
];

// What commits and failures look like.
const COMMITS: [Meaning; 10] = [
    Meaning {
        place: 0,
        mark: Mark::Sign(Sign::Permission),
        words: b"may commit",
    },
    Meaning {
        place: 1,
        mark: Mark::Sign(Sign::TaskCommit),
        words: b"task commit",
    },
    Meaning {
        place: 2,
        mark: Mark::Sign(Sign::Winner),
        words: b"winner is stable",
    },
    Meaning {
        place: 3,
        mark: Mark::Sign(Sign::JobCommit),
        words: b"job commit starts",
    },
    Meaning {
        place: 4,
        mark: Mark::Sign(Sign::Marker),
        words: b"success marker",
    },
    Meaning {
        place: 5,
        mark: Mark::Sign(Sign::Success),
        words: b"success is told",
    },
    Meaning {
        place: 6,
        mark: Mark::Sign(Sign::Failure),
        words: b"failure is told",
    },
    Meaning {
        place: 7,
        mark: Mark::Sign(Sign::Refusal),
        words: b"call is refused, or its answer is lost",
    },
    Meaning {
        place: 9,
        mark: Mark::Stroke("yes"),
        words: b"yes",
    },
    Meaning {
        place: 10,
        mark: Mark::Stroke("no"),
        words: b"no",
    },
];

/// What the signs mean, in two lines from this place on.
pub fn put_key(out: &mut String, at: Point) -> Result<(), AllocError> {
    put_meanings(out, at, &LIVES)?;
    let below = Point {
        x: at.x,
        y: at.y.saturating_add(22),
    };
    put_meanings(out, below, &COMMITS)
}

// A line of the key.
fn put_meanings(out: &mut String, at: Point, meanings: &[Meaning]) -> Result<(), AllocError> {
    for meaning in meanings {
        put_meaning(out, beside(at, meaning.place), meaning)?;
    }
    Ok(())
}

fn put_meaning(out: &mut String, at: Point, meaning: &Meaning) -> Result<(), AllocError> {
    put_mark(out, at, meaning.mark)?;
    put_words(out, behind(at, meaning.mark), meaning.words)
}

fn put_mark(out: &mut String, at: Point, mark: Mark) -> Result<(), AllocError> {
    match mark {
        Mark::Sign(sign) => put_sign(out, sign, at),
        Mark::Begin => put_begin(out, at),
        Mark::Over => put_over(out, at),
        Mark::Dead => put_dead(out, at),
        Mark::GivenUp => put_given_up(out, at),
        Mark::Stroke(class) => put_stroke(out, class, at),
    }
}

// Where a mark ends.
fn behind(at: Point, mark: Mark) -> Point {
    match mark {
        Mark::Stroke(_) => right(at),
        _ => at,
    }
}

/// What the stroke of a packet means that is delivered behind the cut, in a line from this place on. Only a picture that is cut has it.
pub fn put_later_key(out: &mut String, at: Point) -> Result<(), AllocError> {
    later_style(out)?;
    put_stroke(out, "later", at)?;
    put_words(
        out,
        right(at),
        b"delivered later, behind the events that are drawn",
    )
}

/// The same of a packet that was sent before the rows. Only a picture that does not begin with the run has it.
pub fn put_earlier_key(out: &mut String, at: Point) -> Result<(), AllocError> {
    earlier_style(out)?;
    put_stroke(out, "earlier", at)?;
    put_words(out, right(at), b"sent before the events that are drawn")
}

fn put_stroke(out: &mut String, class: &str, at: Point) -> Result<(), AllocError> {
    line(out, class, at, right(at))
}

fn right(at: Point) -> Point {
    Point {
        x: at.x.saturating_add(24),
        y: at.y,
    }
}

fn beside(at: Point, places: u64) -> Point {
    Point {
        x: at.x.saturating_add(places.saturating_mul(124)),
        y: at.y,
    }
}

fn put_words(out: &mut String, at: Point, words: &[u8]) -> Result<(), AllocError> {
    let place = Point {
        x: at.x.saturating_add(13),
        y: at.y.saturating_add(4),
    };
    text(out, "key", place, words)
}
