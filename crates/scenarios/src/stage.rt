// A scene is played: its world is made, and its lines are done one by one.
ghost use Rattle.std.specs.Prelude.{◌≡◌, IfOk};
ghost use Rattle.kb_world.specs.Roots.{AreApart};
ghost use Rattle.kb_world.specs.declared.job.Host.{Host as AHost};
ghost use Rattle.kb_top.specs.Setting.{IsHostOf};

use crate::ask::{given_for, print_answer};
use crate::conf::print_conf;
use crate::edit::{fill, place, place_zeros, remove};
use crate::error::{BadLine, LineError};
use crate::facts::print_facts;
use crate::journal::{print_journal, print_journal_bytes};
use crate::line::{Action, Show};
use crate::run::{copy_directory, halt, run, wipe_path};
use crate::scene::{Scene, Step, usual_setting};
use crate::show::{print_index, print_requests, print_tree};
use crate::store::{print_claimant, print_store};
use crate::text::Page;
use crate::world_calls::{Failures, SceneWorld};
use kb_top::{Setting, SettingError, host_of};
use kb_world::{EffectRow, Host};
use std::alloc::{AllocError, Global};
use std::mem;

// What changes from line to line, besides the world.
#[derive(Drop)]
struct Progress {
    failures: Failures,
    // how many requests were printed
    told: usize,
}

fn usual_machine(alloc: Global) -> Result<Host, AllocError>
    ensures { IfOk result (λ host. AreApart host.roots) }
{
    let setting = usual_setting(alloc)?;
    match host_of(alloc, &setting) {
        Ok(host) => Ok(host),
        Err(_) => Err(AllocError),
    }
}

// The machine that the setting tells of; the usual one where it tells of none.
fn machine(alloc: Global, setting: &Setting) -> Result<Host, AllocError>
    ensures apart { IfOk result (λ host. AreApart host.roots) }
    ensures told { IfOk result (λ host. (other : AHost) → IsHostOf setting.now other
        → host.roots ≡ other.roots) }
{
    match host_of(alloc, setting) {
        Ok(host) => Ok(host),
        Err(SettingError::NoMemory) => Err(AllocError),
        Err(SettingError::BadRoot | SettingError::BadBoot) => usual_machine(alloc),
    }
}

// Prints what the world has.
fn print(
    alloc: Global,
    world: &mut SceneWorld,
    host: &Host,
    progress: &mut Progress,
    show: Show,
    page: &mut Page,
) -> Result<(), LineError>
    requires { AreApart host.now.roots }
{
    match show {
        Show::Tree(path) => print_tree(alloc, world, path, page),
        Show::Requests => {
            progress.told = print_requests(alloc, world, progress.told, page)?;
            Ok(())
        }
        Show::Store => print_store(alloc, world, &host.roots, page),
        Show::Claimant(claimed) => print_claimant(alloc, world, &host.roots, &claimed, page),
        Show::Index(path) => Ok(print_index(page, &host.roots, &path)?),
        Show::Journal(bytes) => print_journal(alloc, page, &host.roots, bytes.as_slice()),
        Show::JournalBytes(bytes) => {
            print_journal_bytes(alloc, page, &host.roots, bytes.as_slice())
        }
        Show::Facts(choice) => print_facts(alloc, world, &host.roots, &choice, page),
        Show::Conf(path) => {
            let given = given_for(alloc, host)?;
            print_conf(alloc, world, &path, &given, page)
        }
    }
}

// Does what a line says.
fn act(
    alloc: Global,
    world: &mut SceneWorld,
    host: &Host,
    progress: &mut Progress,
    action: Action,
    page: &mut Page,
) -> Result<(), LineError>
    requires { AreApart host.now.roots }
{
    match action {
        Action::Place { path, node } => place(alloc, world, &path, node),
        Action::Zeros { path, count } => place_zeros(alloc, world, &path, count),
        Action::Fill { path, count } => fill(alloc, world, &path, count),
        Action::Remove(path) => remove(alloc, world, &path),
        Action::Fail { target, calls } => Ok(progress.failures.add(target, &calls)?),
        Action::Run(words) => {
            let failures = mem::replace(&mut progress.failures, Failures::none(alloc));
            Ok(run(alloc, world, &words, failures, page)?)
        }
        Action::Wipe(path) => {
            let failures = mem::replace(&mut progress.failures, Failures::none(alloc));
            wipe_path(alloc, world, &path, failures, page)
        }
        Action::Copy { from, to } => {
            let failures = mem::replace(&mut progress.failures, Failures::none(alloc));
            copy_directory(alloc, world, &from, &to, failures, page)
        }
        Action::Halt(halted) => {
            progress.failures = Failures::none(alloc);
            Ok(halt(alloc, world, &halted, page)?)
        }
        Action::Show(show) => print(alloc, world, host, progress, show, page),
        Action::Ask(ask) => print_answer(alloc, page, &ask, &given_for(alloc, host)?),
    }
}

fn act_all(
    alloc: Global,
    world: &mut SceneWorld,
    host: &Host,
    steps: Vec<Step>,
    page: &mut Page,
) -> Result<(), BadLine>
    requires { AreApart host.now.roots }
{
    let mut progress = Progress {
        failures: Failures::none(alloc),
        told: 0,
    };
    for Step { line, action } in steps {
        match act(alloc, world, host, &mut progress, action, page) {
            Ok(()) => {}
            Err(cause) => return Err(BadLine { line, cause }),
        }
    }
    Ok(())
}

// The world and the machine of a scene.
fn set_stage(
    alloc: Global,
    setting: Setting,
    rows: Vec<EffectRow>,
) -> Result<(SceneWorld, Host), AllocError>
    ensures { IfOk result (λ made. AreApart made.1.roots) }
{
    let host = machine(alloc, &setting)?;
    Ok((SceneWorld::new(alloc, setting, &host.roots, rows)?, host))
}

/// Plays a scene, and prints on the page what its lines print.
pub fn play_scene(alloc: Global, scene: Scene, page: &mut Page) -> Result<(), BadLine> {
    let Scene {
        setting,
        rows,
        steps,
        ..
    } = scene;
    match set_stage(alloc, setting, rows) {
        Ok((mut world, host)) => act_all(alloc, &mut world, &host, steps, page),
        Err(error) => Err(BadLine {
            line: 0,
            cause: LineError::Memory(error),
        }),
    }
}
