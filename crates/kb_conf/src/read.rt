//! Reading a conf.
ghost use Rattle.std.specs.Prelude.{◌≤◌, length};
ghost use Rattle.kb_conf.specs.Conf as rule;
ghost use Rattle.kb_conf.specs.Conf.{ReadsConf};
ghost use Rattle.kb_conf.specs.Meaning.{meaning_of};
ghost use Rattle.kb_world.specs.Read.{IsRead};
ghost use Rattle.kb_conf.specs.TextOf.{IsTextGiven};

use super::checks::value_refusal;
use super::conf::Conf;
use super::fields::fields_of;
use super::given::Given;
use super::reading::{ReadError, read_text, without_returns};
use super::values::Values;
use kb_world::{Refusal, Stop};
use std::alloc::Global;

/// The most bytes that a conf may have.
pub const LONGEST_CONF: usize = 65_536;

// What is given is text, as each of its fields shows.
fn given_is_text(given: &Given)
    ensures { IsTextGiven given.now }
{
    let _kernel = given.kernel.as_str();
    let _arch = given.arch.as_str();
    let _kernel_source_dir = given.kernel_source_dir.as_str();
    let _dkms_tree = given.dkms_tree.as_str();
    let _source_tree = given.source_tree.as_str();
}

// The values of a text whose carriage returns before line feeds were dropped.
fn read_values<'a>(alloc: Global, text: &'a [u8], given: &Given) -> Result<Values<'a>, Stop>
    ensures { IsRead result (rule.values_in (meaning_of given.now text.now)) }
{
    given_is_text(given);
    match read_text(alloc, text, given) {
        Ok(table) => Ok(Values { table }),
        Err(ReadError::BadLine(line)) => Err(Stop::Refused(Refusal::ConfLine { line })),
        Err(ReadError::OutOfMemory) => Err(Stop::NoMemory),
    }
}

fn conf_from(alloc: Global, given: &Given, values: &Values<'_>) -> Result<Conf, Stop>
    ensures { IsRead result (rule.conf_from given.now values.now) }
{
    match value_refusal(alloc, values)? {
        Some(due) => Err(Stop::Refused(due)),
        None => Ok(fields_of(alloc, given, values)?),
    }
}

/// The conf that the text is, for what is given. Refused for the first bad line, else for the first name that must
/// have a value and has none, else for the first bad value.
pub fn read_conf(alloc: Global, text: &[u8], given: &Given) -> Result<Conf, Stop>
    requires { length text.now ≤ 65_536 }
    ensures value { IsRead result (rule.conf_of text.now given.now) }
    ensures grammar { ReadsConf given.now text.now result }
{
    let text = without_returns(alloc, text)?;
    let values = read_values(alloc, &text, given)?;
    conf_from(alloc, given, &values)
}
