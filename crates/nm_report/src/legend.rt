//! The colours of busy shares, and their meaning in a picture.

use nm_base::push_text;
use nm_measure::Appended;

/// The colour of busy shares from some thousandths on.
struct Shade {
    least: u64,
    colour: &'static str,
    words: &'static str,
}

/// The shades, from that of the greatest shares down. Each is lighter than the one before, so that
/// they can be told apart without seeing hues (five steps of the scale viridis).
const SHADES: [Shade; 5] = [
    Shade {
        least: 900,
        colour: "#440154",
        words: "90% and more",
    },
    Shade {
        least: 500,
        colour: "#3e4989",
        words: "50% to 90%",
    },
    Shade {
        least: 100,
        colour: "#26828e",
        words: "10% to 50%",
    },
    Shade {
        least: 10,
        colour: "#35b779",
        words: "1% to 10%",
    },
    Shade {
        least: 0,
        colour: "#b5de2b",
        words: "less than 1%",
    },
];

/// The colour of what has no share: grey.
const NO_SHARE: &str = "#b3b3b3";

/// The colour of a busy share in thousandths, or of none.
pub(crate) fn colour_of(share: Option<u64>) -> &'static str {
    let Some(share) = share else {
        return NO_SHARE;
    };
    for shade in &SHADES {
        if share >= shade.least {
            return shade.colour;
        }
    }
    NO_SHARE
}

/// Appends a row of the legend: a colour and its meaning.
fn push_shade(text: &mut Vec<u8>, colour: &str, words: &str) -> Appended {
    push_text(text, b"<tr><td bgcolor=\"")?;
    push_text(text, colour.as_bytes())?;
    push_text(text, b"\"></td><td align=\"left\">")?;
    push_text(text, words.as_bytes())?;
    push_text(text, b"</td></tr>\n")
}

/// Appends the legend: a node of the graph, outside all partitions.
pub(crate) fn push_legend(text: &mut Vec<u8>) -> Appended {
    push_text(
        text,
        b"  \"how to read it\" [shape=none, margin=0, tooltip=\"how to read it\", label=<<table \
border=\"0\" cellspacing=\"2\">\n<tr><td colspan=\"2\" align=\"left\"><b>each direction of a link\
</b></td></tr>\n<tr><td width=\"30\">colour</td><td align=\"left\">busy share of the time from its \
first packet to its last:</td></tr>\n",
    )?;
    for shade in &SHADES {
        push_shade(text, shade.colour, shade.words)?;
    }
    push_shade(text, NO_SHARE, "fewer than two packets")?;
    push_text(
        text,
        b"<tr><td>width</td><td align=\"left\">busy share of all time</td></tr>\n<tr><td>- - -</td>\
<td align=\"left\">packets were dropped</td></tr>\n</table>>];\n",
    )
}
