//! The lines of refused events.
ghost use Rattle.std.specs.Prelude.{◌≡◌, ◌++◌, OnOk};
ghost use Rattle.mr_play.specs.Played.{refused_line, task_fault_word, why_words};

use itoa::Buffer;
use mr_task::TaskFault;
use mr_world_events::Why;
use std::alloc::AllocError;

/// The variant of a task's fault.
fn print_task_fault(out: &mut Vec<u8>, fault: TaskFault) -> Result<(), AllocError>
    ensures { OnOk result (out.new.items ≡ out.old.items ++ task_fault_word fault) }
{
    match fault {
        TaskFault::AlreadyWon => out.extend_from_slice(b"AlreadyWon"),
        TaskFault::TooManyLive => out.extend_from_slice(b"TooManyLive"),
        TaskFault::TooManyAttempts => out.extend_from_slice(b"TooManyAttempts"),
        TaskFault::Unknown => out.extend_from_slice(b"Unknown"),
        TaskFault::NoMemory => out.extend_from_slice(b"NoMemory"),
    }
}

/// The words of a reason.
fn print_why(out: &mut Vec<u8>, why: Why) -> Result<(), AllocError>
    ensures { OnOk result (out.new.items ≡ out.old.items ++ why_words why) }
{
    match why {
        Why::WrongGeneration => out.extend_from_slice(b"WrongGeneration"),
        Why::NoMaster => out.extend_from_slice(b"NoMaster"),
        Why::NoDuty => out.extend_from_slice(b"NoDuty"),
        Why::NotRunning => out.extend_from_slice(b"NotRunning"),
        Why::NoTask => out.extend_from_slice(b"NoTask"),
        Why::NoNode => out.extend_from_slice(b"NoNode"),
        Why::NoPacket => out.extend_from_slice(b"NoPacket"),
        Why::NoAddressee => out.extend_from_slice(b"NoAddressee"),
        Why::NoContainer => out.extend_from_slice(b"NoContainer"),
        Why::WrongWish => out.extend_from_slice(b"WrongWish"),
        Why::NoStoreCall => out.extend_from_slice(b"NoStoreCall"),
        Why::NotBlocks => out.extend_from_slice(b"NotBlocks"),
        Why::Task(fault) => {
            out.extend_from_slice(b"Task ")?;
            print_task_fault(out, fault)
        }
    }
}

/// The line of an event that was refused, with the number of its line in the input.
pub fn print_refused(out: &mut Vec<u8>, line: usize, why: Why) -> Result<(), AllocError>
    ensures { OnOk result (out.new.items ≡ out.old.items ++ refused_line line why) }
{
    let mut buffer = Buffer::new();
    out.extend_from_slice(buffer.format(line).as_bytes())?;
    out.extend_from_slice(b": NotNow ")?;
    print_why(out, why)?;
    out.extend_from_slice(b"\n")
}
