// Child programs.
ghost use Rattle.std.specs.Prelude.{◌≡◌, ◌++◌, [], ◌∷◌, List, ℕ, true, None, Some, IfOk, OnOk};
ghost use Rattle.std.specs.Process.{status_bits, command_program, command_args, command_var, command_dir, clears_env, SameEnv, SameOtherVars, SameProgramAndArgs};
ghost use Rattle.kb_real.specs.Children.{IsCommand, var_after, reply_code};

use crate::outputs::read_both;
use kb_world::{Reply, Request, Text};
use std::alloc::{AllocError, Global};
use std::io;
use std::io::ErrorKind;
use std::os::unix::process::ExitStatusExt;
use std::process::{
    Child, ChildStderr, ChildStdout, Command, ExitStatus, Processes, Stdio, SystemProcess,
};

// Where a child's program is looked for, and what the child finds as its `PATH`.
const SEARCH_PATH: &str = "/usr/sbin:/usr/bin:/sbin:/bin";

fn add_arg(command: &mut Command, arg: &str) -> Result<(), AllocError>
    ensures args { OnOk result (command_args command.new ≡ command_args command.old ++ arg.now ∷ []) }
    ensures program { OnOk result (command_program command.new ≡ command_program command.old) }
    ensures env { OnOk result (SameEnv command.old command.new) }
{
    command.arg(arg)?;
    Ok(())
}

fn add_args(command: &mut Command, args: &[Text]) -> Result<(), AllocError>
    ensures args { OnOk result (command_args command.new ≡ command_args command.old ++ args.now) }
    ensures program { OnOk result (command_program command.new ≡ command_program command.old) }
    ensures env { OnOk result (SameEnv command.old command.new) }
{
    for arg in args {
        add_arg(command, arg.as_str())?;
    }
    Ok(())
}

fn set_var(command: &mut Command, name: &str, value: &str) -> Result<(), AllocError>
    ensures set { OnOk result (command_var command.new name.now ≡ Some (Some value.now)) }
    ensures others { OnOk result (SameOtherVars command.old command.new name.now) }
    ensures call { OnOk result (SameProgramAndArgs command.old command.new) }
    ensures clears { OnOk result (clears_env command.new ≡ clears_env command.old) }
{
    command.env(name, value)?;
    Ok(())
}

fn set_vars(command: &mut Command, vars: &[(Text, Text)]) -> Result<(), AllocError>
    ensures vars { OnOk result ((name : List ℕ) → command_var command.new name ≡ var_after name (command_var command.old name) vars.now) }
    ensures call { OnOk result (SameProgramAndArgs command.old command.new) }
    ensures clears { OnOk result (clears_env command.new ≡ clears_env command.old) }
{
    for (name, value) in vars {
        set_var(command, name.as_str(), value.as_str())?;
    }
    Ok(())
}

fn set_dir(command: &mut Command, dir: &str) -> Result<(), AllocError>
    ensures dir { OnOk result (command_dir command.new ≡ Some dir.now) }
    ensures call { OnOk result (SameProgramAndArgs command.old command.new) }
    ensures env { OnOk result (SameEnv command.old command.new) }
{
    command.current_dir(dir)?;
    Ok(())
}

// A command that passes nothing of this program's environment on.
fn bare_command(alloc: Global, program: &str) -> Result<Command, AllocError>
    ensures program { IfOk result (λ command. command_program command ≡ program.now) }
    ensures args { IfOk result (λ command. command_args command ≡ []) }
    ensures clears { IfOk result (λ command. clears_env command ≡ true) }
    ensures vars { IfOk result (λ command. (name : List ℕ) → command_var command name ≡ None) }
{
    let mut command = Command::new(alloc, program)?;
    command.env_clear();
    Ok(command)
}

// The request as a command: its environment is the request's and `PATH`, and nothing else.
fn command_of(alloc: Global, request: &Request) -> Result<Command, AllocError>
    ensures { IfOk result (λ command. IsCommand request.now command) }
{
    let mut command = bare_command(alloc, request.program.as_str())?;
    add_args(&mut command, request.args.as_slice())?;
    set_vars(&mut command, request.env.as_slice())?;
    set_var(&mut command, "PATH", SEARCH_PATH)?;
    set_dir(&mut command, request.dir.text(alloc)?.as_str())?;
    Ok(command)
}

// How a child ended, as a reply tells it: its code, or 128 and the number of the signal that ended it.
fn code_of(status: ExitStatus) -> u8
    ensures { result ≡ reply_code (status_bits status) }
{
    match (status.code(), status.signal()) {
        (Some(code), _) => code as u8,
        (None, Some(signal)) => 128 + signal as u8,
        (None, None) => 255,
    }
}

// Ends a child that is given up, so that none is left behind.
fn cut_off(child: &mut Child<SystemProcess>) {
    if child.kill().is_ok() {
        let _ = child.wait();
    }
}

// What the child wrote, as its two outputs give it, and how it ended.
fn await_reply(
    alloc: Global,
    child: &mut Child<SystemProcess>,
    stdout: ChildStdout,
    stderr: ChildStderr,
) -> io::Result<Reply> {
    let (out, err) = read_both(alloc, stdout, stderr)?;
    Ok(Reply {
        code: code_of(child.wait()?),
        out,
        err,
    })
}

/// Runs a child program to its end. Its standard input is empty. One that can't be started is an error, and one whose
/// outputs can't be read is ended.
pub fn run_child<R: Processes<Started = SystemProcess>>(
    rt: &R,
    alloc: Global,
    request: &Request,
) -> io::Result<Reply> {
    let mut command = command_of(alloc, request)?;
    command
        .stdin(Stdio::null())
        .stdout(Stdio::piped())
        .stderr(Stdio::piped());
    let mut child = command.spawn(rt)?;
    let reply = match (child.stdout.take(), child.stderr.take()) {
        (Some(stdout), Some(stderr)) => await_reply(alloc, &mut child, stdout, stderr),
        _ => Err(io::Error::from(ErrorKind::BrokenPipe)),
    };
    if reply.is_err() {
        cut_off(&mut child);
    }
    reply
}
