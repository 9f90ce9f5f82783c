//! Elements of SVG, written behind one another.
use std::alloc::AllocError;

/// A place in a picture, from its upper left corner.
#[derive(Clone, Copy, Debug, PartialEq, Eq)]
pub struct Point {
    pub x: u64,
    pub y: u64,
}

/// How all elements of a class look.
const STYLE: &str = "<style>
text{font-family:sans-serif;font-size:11px}
.title{font-size:15px;font-weight:bold}
.words,.detail{font-family:monospace;font-size:10px;white-space:pre}
.number{font-size:9px;fill:#555;text-anchor:end}
.note{font-weight:bold}
.head{font-weight:bold;text-anchor:middle}
.under{font-size:10px;text-anchor:middle}
.label,.left{font-size:10px}
.head,.under,.label,.left{paint-order:stroke;stroke:#fff;stroke-width:3px;stroke-linejoin:round}
.left{text-anchor:end}
.rule{stroke:#eee}
.guide{stroke:#ccc;stroke-dasharray:2 4}
.master{stroke:#0072b2;stroke-width:3}
.node{stroke:#777;stroke-width:3}
.container{stroke:#009e73;stroke-width:3}
.packet{stroke:#444;marker-end:url(#head)}
.repeat{stroke:#444;stroke-dasharray:6 3;marker-end:url(#head)}
.yes{stroke:#0072b2;stroke-width:3;marker-end:url(#yes)}
.no{stroke:#d55e00;stroke-width:1.5;stroke-dasharray:2 2;marker-end:url(#no)}
.lost{stroke:#777;marker-end:url(#ring)}
.expiry{stroke:#d55e00;stroke-width:1.5;stroke-dasharray:4 3}
path{fill:none;stroke:#000;stroke-width:1.5}
.dot{fill:#000;stroke:none}
.begin{fill:#fff}
.dead{stroke:#d55e00;stroke-width:3}
.over{stroke-width:3}
.restart{fill:#fff;stroke:#d55e00}
.given{fill:#fff;stroke:#d55e00}
.told{fill:#0072b2}
.commit{fill:#cc79a7}
.winner{fill:#fff;stroke:#009e73;stroke-width:3}
.job{fill:#f0e442}
.marker{fill:#009e73}
.outcome{fill:#56b4e9}
.failure{fill:#d55e00}
.refusal{fill:#d55e00;stroke:#fff}
.band{fill:#f4f4f4}
.bad{fill:#fbe6d9}
.good{fill:#e3f1fa}
.best{fill:#c6ebdc}
.cause{stroke:#999;stroke-dasharray:2 2}
.key{font-size:10px}
</style>
<defs>
<marker id=\"head\" viewBox=\"0 0 10 10\" refX=\"10\" refY=\"5\" markerWidth=\"7\" markerHeight=\"7\" markerUnits=\"userSpaceOnUse\" orient=\"auto\"><path style=\"fill:#444;stroke:none\" d=\"M0 0L10 5L0 10z\"/></marker>
<marker id=\"yes\" viewBox=\"0 0 10 10\" refX=\"10\" refY=\"5\" markerWidth=\"12\" markerHeight=\"12\" markerUnits=\"userSpaceOnUse\" orient=\"auto\"><path style=\"fill:#0072b2;stroke:none\" d=\"M0 0L10 5L0 10z\"/></marker>
<marker id=\"no\" viewBox=\"0 0 10 10\" refX=\"10\" refY=\"5\" markerWidth=\"8\" markerHeight=\"8\" markerUnits=\"userSpaceOnUse\" orient=\"auto\"><path style=\"fill:#d55e00;stroke:none\" d=\"M0 0L10 5L0 10z\"/></marker>
<marker id=\"ring\" viewBox=\"0 0 10 10\" refX=\"5\" refY=\"5\" markerWidth=\"7\" markerHeight=\"7\" markerUnits=\"userSpaceOnUse\"><circle cx=\"5\" cy=\"5\" r=\"4\" fill=\"#fff\" stroke=\"#777\" stroke-width=\"1.5\"/></marker>
</defs>
";

// How a packet looks whose delivery stands behind a cut.
const LATER_STYLE: &str =
    "<style>.later{stroke:#444;stroke-dasharray:2 2;marker-end:url(#head)}</style>\n";

/// The head of a picture of this size: its title, how its elements look, and a white ground.
pub fn open(out: &mut String, size: Point, title: &[u8]) -> Result<(), AllocError> {
    let (x, y) = (size.x, size.y);
    write!(
        out,
        "<svg xmlns=\"http://www.w3.org/2000/svg\" width=\"{x}\" height=\"{y}\" viewBox=\"0 0 {x} {y}\">\n<title>"
    )?;
    escape(out, title)?;
    out.push_str("</title>\n")?;
    out.push_str(STYLE)?;
    out.push_str("<rect width=\"100%\" height=\"100%\" fill=\"#fff\"/>\n")
}

// How a packet looks that was sent before the rows.
const EARLIER_STYLE: &str =
    "<style>.earlier{stroke:#444;stroke-dasharray:2 2;marker-end:url(#head)}</style>\n";

/// How those elements look that only a picture which is cut has.
pub fn later_style(out: &mut String) -> Result<(), AllocError> {
    out.push_str(LATER_STYLE)
}

/// How those elements look that only a picture has which does not begin with the run.
pub fn earlier_style(out: &mut String) -> Result<(), AllocError> {
    out.push_str(EARLIER_STYLE)
}

/// The end of a picture.
pub fn close(out: &mut String) -> Result<(), AllocError> {
    out.push_str("</svg>\n")
}

/// A line.
pub fn line(out: &mut String, class: &str, from: Point, to: Point) -> Result<(), AllocError> {
    let (a, b) = (from.x, from.y);
    let (x, y) = (to.x, to.y);
    write!(
        out,
        "<line class=\"{class}\" x1=\"{a}\" y1=\"{b}\" x2=\"{x}\" y2=\"{y}\"/>\n"
    )
}

/// A rectangle, by its upper left corner and its size.
pub fn rectangle(out: &mut String, class: &str, at: Point, size: Point) -> Result<(), AllocError> {
    let (x, y) = (at.x, at.y);
    let (width, height) = (size.x, size.y);
    write!(
        out,
        "<rect class=\"{class}\" x=\"{x}\" y=\"{y}\" width=\"{width}\" height=\"{height}\"/>\n"
    )
}

/// A path about a place.
pub fn shape(out: &mut String, class: &str, at: Point, path: &str) -> Result<(), AllocError> {
    let (x, y) = (at.x, at.y);
    write!(
        out,
        "<path class=\"{class}\" transform=\"translate({x} {y})\" d=\"{path}\"/>\n"
    )
}

/// Words, whose first letter or last stands at a place, as their class says.
pub fn text(out: &mut String, class: &str, at: Point, words: &[u8]) -> Result<(), AllocError> {
    let (x, y) = (at.x, at.y);
    write!(out, "<text class=\"{class}\" x=\"{x}\" y=\"{y}\">")?;
    escape(out, words)?;
    out.push_str("</text>\n")
}

/// The same, with bold words and a colon before them.
pub fn noted(
    out: &mut String,
    at: Point,
    note: &[u8],
    words: &[u8],
    more: &str,
) -> Result<(), AllocError> {
    let (x, y) = (at.x, at.y);
    write!(
        out,
        "<text class=\"detail\" x=\"{x}\" y=\"{y}\"><tspan class=\"note\">"
    )?;
    escape(out, note)?;
    out.push_str(if note.is_empty() || words.is_empty() {
        "</tspan>"
    } else {
        "</tspan>: "
    })?;
    escape(out, words)?;
    out.push_str(more)?;
    out.push_str("</text>\n")
}

/// The head of a group that shows an event's number and words, and what stands behind them, where one points at it.
pub fn open_hint(
    out: &mut String,
    event: usize,
    words: &[u8],
    detail: &[u8],
) -> Result<(), AllocError> {
    write!(out, "<g><title>{event}: ")?;
    escape(out, words)?;
    if !detail.is_empty() {
        out.push_str(" | ")?;
        escape(out, detail)?;
    }
    out.push_str("</title>\n")
}

/// The end of such a group.
pub fn close_hint(out: &mut String) -> Result<(), AllocError> {
    out.push_str("</g>\n")
}

// Text as XML has it. Bytes that are no printed letters of ASCII become question marks.
fn escape(out: &mut String, words: &[u8]) -> Result<(), AllocError> {
    for byte in words {
        match *byte {
            b'&' => out.push_str("&amp;")?,
            b'<' => out.push_str("&lt;")?,
            b'>' => out.push_str("&gt;")?,
            b' '..=b'~' => out.push(char::from(*byte))?,
            _ => out.push('?')?,
        }
    }
    Ok(())
}
