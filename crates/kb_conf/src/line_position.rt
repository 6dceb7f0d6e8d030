//! Where in a line the next item stands.
ghost use Rattle.std.specs.Prelude.{◌≡◌};
ghost use Rattle.kb_conf.specs.LinePosition.{may_set, may_part, after_blank, after_semicolon};

/// The last item in the line that isn't a blank.
#[derive(Clone, Copy, Debug, PartialEq, Eq)]
pub enum Last {
    Nothing,
    Assignment,
    /// A `;` behind an assignment.
    Separator,
    /// A `;` with no assignment before it.
    Closing,
}

/// Where in a line the next item stands.
#[derive(Clone, Copy, Debug, PartialEq, Eq)]
pub struct LinePosition {
    pub last: Last,
    /// At the line's start or behind a blank.
    pub spaced: bool,
}

pub const LINE_START: LinePosition = LinePosition {
    last: Last::Nothing,
    spaced: true,
};

impl LinePosition {
    /// Whether an assignment may stand here.
    pub fn may_set(self) -> bool
        ensures { result ≡ may_set self.last self.spaced }
    {
        match self.last {
            Last::Nothing | Last::Separator => true,
            Last::Assignment => self.spaced,
            Last::Closing => false,
        }
    }

    /// Whether a `;` may stand here.
    pub fn may_part(self) -> bool
        ensures { result ≡ may_part self.last }
    {
        match self.last {
            Last::Nothing | Last::Assignment => true,
            Last::Separator | Last::Closing => false,
        }
    }

    pub fn after_blank(self) -> LinePosition
        ensures { result ≡ after_blank self }
    {
        LinePosition {
            last: self.last,
            spaced: true,
        }
    }

    pub fn after_semicolon(self) -> LinePosition
        ensures { result ≡ after_semicolon self }
    {
        let last = match self.last {
            Last::Nothing => Last::Closing,
            _ => Last::Separator,
        };
        LinePosition {
            last,
            spaced: false,
        }
    }
}
