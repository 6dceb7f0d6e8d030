// What a command has to say goes to the two sinks, each once, after all its work is done.
ghost use Rattle.std.specs.Prelude.{◌≡◌, OnOk};
ghost use Rattle.kb_world.specs.SinkState.{Writes};
ghost use Rattle.kb_top.specs.Tell.{Sinks, Delivers, SaysFront, Finishes, Tells, IsCommandAnswer, with_message};

use crate::end::End;
use kb_world::{Refusal, Report, Sink, SinkError, Stop, fault_line, message, no_memory_line};
use std::alloc::{AllocError, Global};

// Writes the text, if there is any.
fn write_some<S: Sink>(sink: &mut S, text: &[u8]) -> Result<(), SinkError>
    ensures { Writes text.now (S.state sink.old) (S.state sink.new) result }
{
    if text.is_empty() {
        Ok(())
    } else {
        sink.write(text)
    }
}

// Writes a fixed line, and doesn't mind whether the sink takes it: the command's end is known already.
pub fn write_last<S: Sink>(sink: &mut S, line: &str)
    ensures { SaysFront line.now (S.state sink.old) (S.state sink.new) }
{
    let _ = sink.write(line.as_bytes());
}

// Writes both texts, standard output first.
fn deliver<O: Sink, E: Sink>(report: &Report, out: &mut O, err: &mut E) -> Result<(), SinkError>
    ensures { Delivers report.now (record { out = O.state out.old; err = E.state err.old })
        (record { out = O.state out.new; err = E.state err.new }) result }
{
    write_some(out, report.out.as_slice())?;
    write_some(err, report.err.as_slice())
}

// The end of a command that has its answer.
fn finish<O: Sink, E: Sink>(due: End, report: &Report, out: &mut O, err: &mut E) -> End
    requires { IsCommandAnswer due }
    ensures { Finishes due report.now (record { out = O.state out.old; err = E.state err.old })
        (record { out = O.state out.new; err = E.state err.new }) result }
{
    match deliver(report, out, err) {
        Ok(()) => due,
        Err(SinkError::Failed) => End::SinkFault,
        Err(SinkError::NoMemory) => {
            write_last(err, no_memory_line());
            End::NoMemory
        }
    }
}

/// Writes what an answer of a command has to say, and gives its end.
pub fn tell<O: Sink, E: Sink>(
    alloc: Global,
    answer: Result<(), Stop>,
    mut report: Report,
    out: &mut O,
    err: &mut E,
) -> End
    ensures { Tells answer report (record { out = O.state out.old; err = E.state err.old })
        (record { out = O.state out.new; err = E.state err.new }) result }
{
    match answer {
        Ok(()) => finish(End::Done, &report, out, err),
        Err(Stop::Refused(refusal)) => match push_message(alloc, &mut report, &refusal) {
            Ok(()) => finish(End::Refused(refusal), &report, out, err),
            Err(_) => {
                write_last(err, no_memory_line());
                End::NoMemory
            }
        },
        Err(Stop::Fault) => {
            write_last(err, fault_line());
            End::Fault
        }
        Err(Stop::NoMemory) => {
            write_last(err, no_memory_line());
            End::NoMemory
        }
    }
}

fn push_message(alloc: Global, report: &mut Report, refusal: &Refusal) -> Result<(), AllocError>
    ensures { OnOk result (report.new ≡ with_message report.old refusal.now) }
{
    let line = message(alloc, refusal)?;
    report.err.push(line.as_str().as_bytes())
}
