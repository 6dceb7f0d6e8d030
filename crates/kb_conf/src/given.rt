//! What the caller of the reader gives a conf.
ghost use Rattle.std.specs.Prelude.{◌≡◌, ◌++◌, ◌∷◌, [], IfOk, OnOk, IsTrue, unwrap_or};
ghost use Rattle.std.specs.Option.{ForSome, option_copied};
ghost use Rattle.kb_world.specs.Names.{is_name};
ghost use Rattle.kb_conf.specs.Assignment.{given_value};
ghost use Rattle.kb_conf.specs.Given.{Variable, given_for, environment, source_dir_of};
ghost use Rattle.kb_conf.specs.Views.{rest_view};

use kb_world::{Key, Roots, Sequence, Text};
use std::alloc::{AllocError, Global};

/// What a conf is read for: the kernel, its architecture, and the directories that variables of the conf
/// stand for.
#[derive(Debug, Drop)]
pub struct Given {
    pub kernel: Text,
    pub arch: Text,
    pub kernel_source_dir: Text,
    pub dkms_tree: Text,
    pub source_tree: Text,
}

fn bytes_of(text: &Text) -> &[u8]
    ensures { result.now ≡ text.now }
{
    text.as_str().as_bytes()
}

// Where the headers of the kernel are, or the empty text without one.
fn source_dir_of(alloc: Global, roots: &Roots, kernel: Option<&Text>) -> Result<Text, AllocError>
    requires { ForSome kernel (λ name. IsTrue (is_name name.now)) }
    ensures { IfOk result (λ text. text ≡ source_dir_of roots.now (option_copied kernel.entry)) }
{
    match kernel {
        Some(kernel) => {
            let directory = roots.modules.child(alloc, kernel.as_str())?;
            directory.child(alloc, "build")?.text(alloc)
        }
        None => Text::of(alloc, ""),
    }
}

fn copy_or_empty(alloc: Global, text: Option<&Text>) -> Result<Text, AllocError>
    ensures { IfOk result (λ made. made ≡ unwrap_or (option_copied text.entry) []) }
{
    match text {
        Some(text) => text.clone(),
        None => Text::of(alloc, ""),
    }
}

// Adds a variable with this value.
fn push_variable(
    alloc: Global,
    variables: &mut Sequence<(Text, Text)>,
    name: &str,
    value: &Text,
) -> Result<(), AllocError>
    ensures { OnOk result (variables.new ≡ variables.old ++ (name.now, value.now) ∷ []) }
{
    variables.push((Text::of(alloc, name)?, value.clone()?))
}

impl Given {
    /// What a conf is read for at a kernel, whose headers are at its link `build`, and an architecture. Without a
    /// kernel its name and the place of its headers are empty.
    pub fn of(
        alloc: Global,
        roots: &Roots,
        kernel: Option<&Text>,
        arch: &Text,
    ) -> Result<Given, AllocError>
        requires { ForSome kernel (λ name. IsTrue (is_name name.now)) }
        ensures { IfOk result (λ given. given ≡ given_for roots.now (option_copied kernel.entry) arch.now) }
    {
        Ok(Given {
            kernel: copy_or_empty(alloc, kernel)?,
            arch: arch.clone()?,
            kernel_source_dir: source_dir_of(alloc, roots, kernel)?,
            dkms_tree: roots.dkms.text(alloc)?,
            source_tree: roots.src.text(alloc)?,
        })
    }

    /// The variables of a package's build children and scripts, each a name and a value, in the order that they are
    /// set in.
    pub fn environment(
        &self,
        alloc: Global,
        key: &Key,
    ) -> Result<Sequence<(Text, Text)>, AllocError>
        ensures { IfOk result (λ variables. variables ≡ environment self.now key.now) }
    {
        let mut variables = Sequence::new(alloc);
        push_variable(alloc, &mut variables, "arch", &self.arch)?;
        push_variable(alloc, &mut variables, "dkms_tree", &self.dkms_tree)?;
        push_variable(
            alloc,
            &mut variables,
            "kernel_source_dir",
            &self.kernel_source_dir,
        )?;
        push_variable(alloc, &mut variables, "kernelver", &self.kernel)?;
        push_variable(alloc, &mut variables, "module", &key.module)?;
        push_variable(alloc, &mut variables, "module_version", &key.version)?;
        push_variable(alloc, &mut variables, "source_tree", &self.source_tree)?;
        Ok(variables)
    }

    /// The given field of this name. The fields have the number 0.
    #[tactic(auto, unfolding(crate::specs::Assignment::given_value))]
    pub(crate) fn value(&self, name: &[u8], number: u8) -> Option<&[u8]>
        ensures { rest_view result ≡ given_value self.now name.now number }
    {
        if number != 0 {
            return None;
        }
        if name == b"kernelver".as_slice() {
            Some(bytes_of(&self.kernel))
        } else if name == b"kernel_source_dir".as_slice() {
            Some(bytes_of(&self.kernel_source_dir))
        } else if name == b"dkms_tree".as_slice() {
            Some(bytes_of(&self.dkms_tree))
        } else if name == b"source_tree".as_slice() {
            Some(bytes_of(&self.source_tree))
        } else if name == b"arch".as_slice() {
            Some(bytes_of(&self.arch))
        } else {
            None
        }
    }
}
