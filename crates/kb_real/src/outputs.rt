// What a child writes to its two outputs.
ghost use Rattle.std.specs.Prelude.{◌≡◌, ◌++◌, ◌-◌, ℕ, List, Option, true, length, take, IfOk, OnOk};
ghost use Rattle.kb_real.specs.Outputs.{most_kept, IsReadTo, KeepsFront};

use crate::pieces::{MOST_CALLS, READ_SIZE, given_up, read_once};
use kb_world::Bytes;
use libc::net::{POLLIN, poll};
use libc::types::pollfd;
use std::alloc::{AllocError, Global};
use std::io;
use std::io::Read;
use std::os::fd::{AsRawFd, RawFd};

// How much of an output is kept: the first 4 MiB.
const MOST_KEPT: usize = 0x40_0000;

// Keeps what there is room for of a piece.
fn keep(kept: &mut Bytes, piece: &[u8]) -> Result<(), AllocError>
    ensures { OnOk result (kept.new ≡ kept.old ++ take (most_kept - length kept.old) piece.now) }
{
    let room = MOST_KEPT.saturating_sub(kept.as_slice().len());
    kept.push(&piece[..piece.len().min(room)])
}

// One output of a child, as far as it was read.
#[derive(Drop)]
struct Output<R> {
    reader: R,
    kept: Bytes,
    is_at_end: bool,
}

impl<R: Read + AsRawFd + Drop> Output<R> {
    fn new(alloc: Global, reader: R) -> Output<R>
        ensures { IsReadTo (R.remaining reader) (R.remaining result.reader) result.kept result.is_at_end }
    {
        Output {
            reader,
            kept: Bytes::new(alloc),
            is_at_end: false,
        }
    }

    // What to wait for; the system passes over a descriptor below 0.
    fn descriptor(&self) -> RawFd {
        if self.is_at_end {
            -1
        } else {
            self.reader.as_raw_fd()
        }
    }

    // Reads once, where a read doesn't wait and there may be more, and keeps what there is room for.
    fn read_if(&mut self, is_ready: bool) -> io::Result<()>
        ensures { OnOk result ((first : Option (List ℕ)) → IsReadTo first (R.remaining self.old.reader) self.old.kept self.old.is_at_end
            → IsReadTo first (R.remaining self.new.reader) self.new.kept self.new.is_at_end) }
    {
        if self.is_at_end || !is_ready {
            return Ok(());
        }
        let mut buffer = [0u8; READ_SIZE];
        match read_once(&mut self.reader, &mut buffer)? {
            Some(0) => self.is_at_end = true,
            Some(count) => keep(&mut self.kept, &buffer[..count])?,
            None => {}
        }
        Ok(())
    }
}

// Waits until a read of one of the two won't wait, or until a signal comes.
fn wait_for_either(first: RawFd, second: RawFd) -> io::Result<(bool, bool)> {
    let asked = |fd| pollfd {
        fd,
        events: POLLIN,
        revents: 0,
    };
    let mut both = [asked(first), asked(second)];
    if poll(&mut both, -1) >= 0 {
        Ok((both[0].revents != 0, both[1].revents != 0))
    } else if os::errno() == libc::EINTR {
        Ok((false, false))
    } else {
        Err(io::Error::from_raw_os_error(os::errno()))
    }
}

// Reads both to their ends.
fn read_to_ends<O, E>(out: &mut Output<O>, err: &mut Output<E>) -> io::Result<()>
where
    O: Read + AsRawFd + Drop,
    E: Read + AsRawFd + Drop,
    ensures out { OnOk result ((first : Option (List ℕ)) → IsReadTo first (O.remaining out.old.reader) out.old.kept out.old.is_at_end
        → IsReadTo first (O.remaining out.new.reader) out.new.kept true) }
    ensures err { OnOk result ((first : Option (List ℕ)) → IsReadTo first (E.remaining err.old.reader) err.old.kept err.old.is_at_end
        → IsReadTo first (E.remaining err.new.reader) err.new.kept true) }
{
    for _ in 0..MOST_CALLS {
        if out.is_at_end && err.is_at_end {
            return Ok(());
        }
        let (out_is_ready, err_is_ready) = wait_for_either(out.descriptor(), err.descriptor())?;
        out.read_if(out_is_ready)?;
        err.read_if(err_is_ready)?;
    }
    Err(given_up())
}

/// The first 4 MiB of what each of two outputs gives to its end; the rest is read and dropped. Each is read as it
/// comes, so that a child which waits until one of them is read is never left waiting. Outputs that haven't ended after
/// 2^32 turns are an error.
pub fn read_both<O, E>(alloc: Global, out: O, err: E) -> io::Result<(Bytes, Bytes)>
where
    O: Read + AsRawFd + Drop,
    E: Read + AsRawFd + Drop,
    ensures out { IfOk result (λ kept. KeepsFront (O.remaining out) kept.0) }
    ensures err { IfOk result (λ kept. KeepsFront (E.remaining err) kept.1) }
{
    let mut out = Output::new(alloc, out);
    let mut err = Output::new(alloc, err);
    read_to_ends(&mut out, &mut err)?;
    Ok((out.kept, err.kept))
}
