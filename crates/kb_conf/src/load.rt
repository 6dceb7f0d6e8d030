//! Reading the conf of a source directory.
ghost use Rattle.std.specs.Prelude.{◌≡◌, ◌≤◌, IfOk, IsTrue, Ok, length};
ghost use Rattle.std.specs.Option.{ForSome, option_copied};
ghost use Rattle.kb_conf.specs.Conf.{conf_of};
ghost use Rattle.kb_conf.specs.Load as rule;
ghost use Rattle.kb_conf.specs.Load.{GivesFile};
ghost use Rattle.kb_world.specs.Read.{IsRead, Decides, Gives};
ghost use Rattle.kb_world.specs.Store.{is_key};
ghost use Rattle.kb_world.specs.Tree.{node_at, is_file};

use super::conf::Conf;
use super::given::Given;
use super::read::{LONGEST_CONF, read_conf};
use kb_world::{Bytes, Key, Kind, Path, Refusal, Stop, World};
use std::alloc::Global;

// Refused where the path isn't a directory.
fn require_directory<W: World>(alloc: Global, world: &mut W, dir: &Path) -> Result<(), Stop>
    ensures { Decides (rule.no_directory dir.now) (W.state world.old) (W.state world.new) result }
{
    match world.look(alloc, dir)? {
        Kind::Dir => Ok(()),
        _ => Err(Stop::Refused(Refusal::NoSource { path: dir.clone()? })),
    }
}

// Refused where the path isn't a regular file, or is one that is too large.
fn require_conf<W: World>(alloc: Global, world: &mut W, path: &Path) -> Result<(), Stop>
    ensures { Decides (rule.no_conf path.now) (W.state world.old) (W.state world.new) result }
{
    match world.look(alloc, path)? {
        Kind::File { len, .. } => {
            if len > LONGEST_CONF as u64 {
                return Err(Stop::Refused(Refusal::TooLarge {
                    path: path.clone()?,
                }));
            }
            Ok(())
        }
        _ => Err(Stop::Refused(Refusal::NoSource {
            path: path.clone()?,
        })),
    }
}

fn require_source<W: World>(
    alloc: Global,
    world: &mut W,
    dir: &Path,
    path: &Path,
) -> Result<(), Stop>
    ensures { Decides (rule.no_source dir.now path.now) (W.state world.old) (W.state world.new) result }
{
    require_directory(alloc, world, dir)?;
    require_conf(alloc, world, path)
}

fn read_file<W: World>(alloc: Global, world: &mut W, path: &Path) -> Result<Bytes, Stop>
    requires { ForSome (W.state world.old).tree (λ tree. IsTrue (is_file (node_at tree path.now))) }
    ensures { GivesFile path.now (W.state world.old) (W.state world.new) result }
{
    Ok(world.read(alloc, path)?)
}

fn is_key_of(asked: &Key, key: &Key) -> bool
    ensures { result ≡ rule.is_key_of asked.now key.now }
{
    key.module.as_str() == asked.module.as_str() && key.version.as_str() == asked.version.as_str()
}

// Refused where the conf is of another package than the one asked for.
fn require_match(conf: Conf, asked: Option<&Key>) -> Result<Conf, Stop>
    ensures { IsRead result (rule.matched (option_copied asked.entry) (Ok conf)) }
{
    match asked {
        Some(asked) => {
            if is_key_of(asked, &conf.key) {
                Ok(conf)
            } else {
                Err(Stop::Refused(Refusal::ConfMismatch {
                    key: conf.key.clone()?,
                }))
            }
        }
        None => Ok(conf),
    }
}

// The conf that the bytes are, where it is of the package asked for.
fn read_for(alloc: Global, bytes: &[u8], asked: Option<&Key>, given: &Given) -> Result<Conf, Stop>
    requires { length bytes.now ≤ 65_536 }
    ensures { IsRead result (rule.matched (option_copied asked.entry) (conf_of bytes.now given.now)) }
{
    require_match(read_conf(alloc, bytes, given)?, asked)
}

/// The conf of the source directory. Refused where the directory or its regular `dkms.conf` isn't there, where that
/// is longer than a conf may be, as `read_conf` refuses its text, and then where a key is asked for and the conf is of
/// another. It changes nothing. The names of the package that the conf says it is of keep their rules.
pub fn load_conf<W: World>(
    alloc: Global,
    world: &mut W,
    dir: &Path,
    key: Option<&Key>,
    given: &Given,
) -> Result<Conf, Stop>
    ensures given { Gives (rule.loaded_conf dir.now (option_copied key.entry) given.now) (W.state world.old)
        (W.state world.new) result }
    ensures named { IfOk result (λ conf. IsTrue (is_key conf.key)) }
{
    let path = dir.child(alloc, "dkms.conf")?;
    require_source(alloc, world, dir, &path)?;
    let bytes = read_file(alloc, world, &path)?;
    // A world that doesn't tell its tree may hold another file by now.
    if bytes.as_slice().len() > LONGEST_CONF {
        return Err(Stop::Refused(Refusal::TooLarge { path }));
    }
    read_for(alloc, bytes.as_slice(), key, given)
}
