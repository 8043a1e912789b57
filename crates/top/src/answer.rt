// How a call ends.
ghost use Rattle.std.specs.Prelude.{◌≡◌, ◌≢◌, []};
ghost use Rattle.std.specs.IoError.{error_kind};
ghost use Rattle.top.specs.Lines.{line_of};
ghost use Rattle.top.specs.Status.{status_of};

use c_whole::JoinErr;
use num_le::Name;
use std::alloc::AllocFailed;
use std::io;
use std::io::ErrorKind;

/// Why a program is refused. Files are counted from 0.
#[derive(Debug, Drop)]
pub enum Refusal {
    /// This file isn't a text of C; the line is near the fault.
    Syntax { file: u32, line: u32 },
    /// In this file this typing rule fails, near this line.
    Rule { file: u32, line: u32, rule: u8 },
    /// The files don't join. The reason is never want of memory.
    Join(JoinErr),
    /// The program isn't of the form that is built so far.
    Unbuilt,
}

/// How a call ends.
#[derive(Debug, Drop)]
pub enum End {
    /// The program ended with this status.
    Ran(u8),
    /// The program was ended by this signal.
    Signalled(u8),
    /// The session was answered to its end.
    Session,
    /// The file that was asked for is written.
    Built,
    /// The words are those of no command.
    Usage,
    /// There is no file of this name.
    Absent(Name),
    /// This file is larger than its limit; with an empty name, the commands are.
    TooLarge(Name),
    /// The program is refused.
    Refused(Refusal),
    /// A read failed.
    ReadFault,
    /// A write failed.
    WriteFault,
    /// The given number of instructions was executed.
    Budget,
    /// Memory was wanting.
    Memory,
}

impl<T: Drop> From<AllocFailed<T>> for End {
    ghost use Rattle.std.specs.Prelude.{◌≡◌};
    ghost use Rattle.top.specs.declared.answer.End.{End};

    ghost from_gives = { λ _ e. e ≡ End.Memory };

    fn from(_: AllocFailed<T>) -> End {
        End::Memory
    }
}

/// The exit status that tells of this end.
pub fn status(end: &End) -> u8
    ensures status { result ≡ status_of end.now }
{
    match end {
        End::Ran(status) => *status,
        End::Signalled(signal) => signal.wrapping_add(128),
        End::Session | End::Built => 0,
        End::Usage => 2,
        End::Absent(_) | End::TooLarge(_) => 3,
        End::Refused(_) => 4,
        End::ReadFault | End::WriteFault => 6,
        End::Budget => 7,
        End::Memory => 8,
    }
}

/// The end where the words can't be read, and its line: want of memory, or words that aren't text.
pub fn unread(error: &io::Error) -> (End, &'static [u8])
    ensures memory { error_kind error.now ≡ ErrorKind.OutOfMemory → result.0 ≡ End.Memory }
    ensures usage { error_kind error.now ≢ ErrorKind.OutOfMemory → result.0 ≡ End.Usage }
    ensures line { result.1.now ≡ line_of [] result.0 }
{
    if error.kind() == ErrorKind::OutOfMemory {
        (End::Memory, b"svr3: memory\n")
    } else {
        (End::Usage, b"svr3: usage\n")
    }
}
