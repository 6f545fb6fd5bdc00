//! The built-in page: a route name of seventeen letters beside the climb chart.

/// One step of the page: what it is about, the line that is played, if any, and what the answer means for the wearer, where that is told.
pub struct Step {
    pub note: &'static str,
    pub line: Option<&'static str>,
    pub meaning: Option<&'static str>,
}

pub const PAGE: &[Step] = &[
    Step {
        note: "The route Grossglocknerpfad has seventeen letters, and shares its page with the climb chart.\nWhen is its name cut off? First the settings of the page, each with its choices.",
        line: None,
        meaning: None,
    },
    Step {
        note: "text: 0 small, 1 medium, 2 large, 3 huge",
        line: Some("declare 4"),
        meaning: None,
    },
    Step {
        note: "units: 0 metres, 1 feet",
        line: Some("declare 2"),
        meaning: None,
    },
    Step {
        note: "wrist: 0 left, 1 right",
        line: Some("declare 2"),
        meaning: None,
    },
    Step {
        note: "chart: 0 off, 1 narrow, 2 wide",
        line: Some("declare 3"),
        meaning: None,
    },
    Step {
        note: "letters: how many of the name are shown, 0 to 17",
        line: Some("declare 18"),
        meaning: None,
    },
    Step {
        note: "Now the rules of the page. Each is a formula over these settings; its code is in postfix order.",
        line: None,
        meaning: None,
    },
    Step {
        note: "Huge text leaves room for eleven letters:\ntext = huge implies letters in 0..11",
        line: Some("lay 03 00 00 03 04 04 00 00 00 0b 08"),
        meaning: None,
    },
    Step {
        note: "Beside a wide chart any text but small leaves room for fourteen:\n(chart = wide and not text = small) implies letters in 0..14",
        line: Some("lay 03 03 00 02 03 00 00 00 05 06 04 04 00 00 00 0e 08"),
        meaning: None,
    },
    Step {
        note: "Heights in feet have one figure more, so large text beside a chart leaves room for sixteen:\n((units = feet and chart in narrow..wide) and text = large) implies letters in 0..16",
        line: Some("lay 03 01 00 01 04 03 00 01 00 02 06 03 00 00 02 06 04 04 00 00 00 10 08"),
        meaning: None,
    },
    Step {
        note: "On the right wrist the wide chart is drawn for small text, and for no other:\nwrist = right implies (chart = wide iff text = small)",
        line: Some("lay 03 02 00 01 03 03 00 02 03 00 00 00 09 08"),
        meaning: None,
    },
    Step {
        note: "And the whole name is to be shown:\nletters = 17",
        line: Some("lay 03 04 00 11"),
        meaning: None,
    },
    Step {
        note: "A rule about a sixth setting:",
        line: Some("lay 03 05 00 00"),
        meaning: Some(
            "The page has five settings, so the rule is refused, and the book is as it was.",
        ),
    },
    Step {
        note: "Rule 3 as it was laid:",
        line: Some("write 3"),
        meaning: None,
    },
    Step {
        note: "Now some watches, each with its text, units, wrist, chart and letters.",
        line: None,
        meaning: None,
    },
    Step {
        note: "small text, metres, left wrist, wide chart, all seventeen letters",
        line: Some("judge 0 0 0 2 17"),
        meaning: Some("The wearer reads the whole name beside the chart."),
    },
    Step {
        note: "large text, feet, left wrist, narrow chart, all seventeen letters",
        line: Some("judge 2 1 0 1 17"),
        meaning: Some("There is no room for the last letter: this page cannot be drawn."),
    },
    Step {
        note: "the same with sixteen letters",
        line: Some("judge 2 1 0 1 16"),
        meaning: Some(
            "It can be drawn, but the wearer reads Grossglocknerpfa: the name is cut off.",
        ),
    },
    Step {
        note: "small text, feet, right wrist, wide chart, all seventeen letters",
        line: Some("judge 0 1 1 2 17"),
        meaning: Some("The name is whole on the right wrist too."),
    },
    Step {
        note: "medium text, metres, right wrist, wide chart, all seventeen letters",
        line: Some("judge 1 0 1 2 17"),
        meaning: Some("The wide chart takes the room of three letters: this page cannot be drawn."),
    },
    Step {
        note: "a text size that the page does not have",
        line: Some("judge 4 0 0 2 17"),
        meaning: Some("Setting 0 has four choices, 0 to 3, so the row is refused."),
    },
];
