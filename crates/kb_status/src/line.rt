// One line of the status.
ghost use Rattle.std.specs.Prelude.{Some};
ghost use Rattle.kb_status.specs.Line.{line_text, state_text};

use kb_world::{Key, Spot};
use std::fmt;

/// How far a version has come for a spot. Of an installed one it also says whether files that it
/// displaced are kept.
#[derive(Clone, Copy, Debug, PartialEq, Eq)]
pub enum State {
    Added,
    Built,
    Installed { kept: bool },
}

impl fmt::Display for State {
    ghost output = { λ state. Some (state_text state) };

    fn fmt<W: fmt::Write>(&self, f: &mut fmt::Formatter<W>) -> fmt::Result {
        match self {
            State::Added => f.write_str("added"),
            State::Built => f.write_str("built"),
            State::Installed { kept: false } => f.write_str("installed"),
            State::Installed { kept: true } => f.write_str("installed (original_module exists)"),
        }
    }
}

/// A line of the status: a version, the spot that it is built for, if any, and how far it has come.
#[derive(Debug, Drop)]
pub struct Line {
    pub key: Key,
    pub spot: Option<Spot>,
    pub state: State,
}

impl fmt::Display for Line {
    ghost output = { λ line. Some (line_text line) };

    fn fmt<W: fmt::Write>(&self, f: &mut fmt::Formatter<W>) -> fmt::Result {
        let key = &self.key;
        let state = &self.state;
        match &self.spot {
            Some(spot) => write!(f, "{key}, {spot}: {state}"),
            None => write!(f, "{key}: {state}"),
        }
    }
}
