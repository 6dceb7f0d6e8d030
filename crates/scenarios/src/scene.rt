// A scene: what stands between two lines that begin anew. Its setting and its children come before all that is done.

use crate::error::LineError;
use crate::line::{Action, Line, Set, read_line};
use crate::parts::{Child, Part};
use crate::plain;
use kb_top::Setting;
use kb_world::{EffectRow, Text, Texts};
use std::alloc::{AllocError, Global};
use std::mem;

/// What is done, with the number of its line.
#[derive(Drop)]
pub struct Step {
    pub line: u64,
    pub action: Action,
}

/// What the lines since the last beginning say.
#[derive(Drop)]
pub struct Scene {
    pub setting: Setting,
    /// The rows of the text, and then those of the plain world.
    pub rows: Vec<EffectRow>,
    plain_rows: Vec<EffectRow>,
    /// The child whose parts are still to come.
    child: Option<Child>,
    pub steps: Vec<Step>,
    /// Something is done, so that the setting and the children are known.
    is_begun: bool,
}

/// The setting of a new scene.
pub fn usual_setting(alloc: Global) -> Result<Setting, AllocError> {
    Ok(Setting {
        root: None,
        boot: None,
        release: Some(Text::of(alloc, "6.1.0")?),
        machine: Some(Text::of(alloc, "x86_64")?),
    })
}

impl Scene {
    fn new(alloc: Global) -> Result<Scene, AllocError> {
        Ok(Scene {
            setting: usual_setting(alloc)?,
            rows: Vec::new(alloc),
            plain_rows: Vec::new(alloc),
            child: None,
            steps: Vec::new(alloc),
            is_begun: false,
        })
    }

    // Refused where something is done already.
    fn require_beginning(&self) -> Result<(), LineError> {
        if self.is_begun {
            Err(LineError::TooLate)
        } else {
            Ok(())
        }
    }

    // Adds the row of the child whose parts are all read.
    fn end_child(&mut self, alloc: Global) -> Result<(), LineError> {
        match self.child.take() {
            Some(child) => {
                self.rows.push(child.row(alloc)?)?;
                Ok(())
            }
            None => Ok(()),
        }
    }

    fn set(&mut self, set: Set) {
        match set {
            Set::Root(text) => self.setting.root = Some(text),
            Set::Boot(text) => self.setting.boot = Some(text),
            Set::Kernel(kernel) => self.setting.release = kernel,
            Set::Arch(arch) => self.setting.machine = arch,
        }
    }

    fn add_part(&mut self, part: Part) -> Result<(), LineError> {
        match &mut self.child {
            Some(child) => child.add(part),
            None => Err(LineError::NoChild),
        }
    }

    /// Adds a line. One that begins anew is no line of a scene.
    pub fn add(&mut self, alloc: Global, number: u64, line: Line) -> Result<(), LineError> {
        match line {
            Line::Begin { .. } => Ok(()),
            Line::Part(part) => self.add_part(part),
            Line::Set(set) => {
                self.end_child(alloc)?;
                self.require_beginning()?;
                self.set(set);
                Ok(())
            }
            Line::Child { program, args } => {
                self.end_child(alloc)?;
                self.require_beginning()?;
                self.child = Some(Child::new(alloc, program, args));
                Ok(())
            }
            Line::Act(action) => {
                self.end_child(alloc)?;
                self.is_begun = true;
                self.steps.push(Step {
                    line: number,
                    action,
                })?;
                Ok(())
            }
        }
    }

    /// Ends the scene.
    pub fn end(&mut self, alloc: Global) -> Result<(), LineError> {
        self.end_child(alloc)?;
        for row in mem::replace(&mut self.plain_rows, Vec::new(alloc)) {
            self.rows.push(row)?;
        }
        Ok(())
    }

    // Adds the lines of a text that is known to be good.
    fn add_all(&mut self, alloc: Global, text: &str) -> Result<(), LineError> {
        for line in text.lines() {
            if let Some(line) = read_line(alloc, line)? {
                self.add(alloc, 0, line)?;
            }
        }
        Ok(())
    }

    // Adds the plain world.
    fn add_plain(&mut self, alloc: Global) -> Result<(), LineError> {
        self.add_all(alloc, plain::CHILDREN)?;
        self.add_all(alloc, plain::NODES)?;
        self.plain_rows = mem::replace(&mut self.rows, Vec::new(alloc));
        self.is_begun = false;
        Ok(())
    }
}

/// A new scene, with the root directory alone or with the plain world.
pub fn begin(alloc: Global, plain: bool) -> Result<Scene, LineError> {
    let mut scene = Scene::new(alloc)?;
    if plain {
        scene.add_plain(alloc)?;
    }
    Ok(scene)
}
