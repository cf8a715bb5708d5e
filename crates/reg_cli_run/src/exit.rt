//! How the runs of a registry end.

ghost use Rattle.reg_cli_run.specs.Exits.{EndsMessage, EndsRefused, EndsSetup, EndsStream};

use crate::ordering::OrderFault;
use reg_cli_line::Exit;
use reg_http::StreamFault;
use reg_model::AdminRefusal;
use reg_policy::admin_text;

/// The end of a run in which a command was refused.
pub fn exit_of_refusal(refusal: AdminRefusal) -> Exit
    ensures { EndsRefused refusal result }
{
    let status = match refusal {
        AdminRefusal::G10 => 3,
        _ => 1,
    };
    Exit {
        status,
        message: admin_text(refusal),
    }
}

/// The end of a run whose setup was not completed.
pub(crate) fn exit_of_setup(fault: OrderFault) -> Exit
    ensures { EndsSetup fault result }
{
    match fault {
        OrderFault::Refused(refusal) => exit_of_refusal(refusal),
        OrderFault::Unreadable => Exit {
            status: 2,
            message: "bad setup line",
        },
        OrderFault::Memory => Exit::MEMORY,
    }
}

/// The end of a command that a message asked for, and that was not done.
pub(crate) fn exit_of_message(fault: OrderFault) -> Exit
    ensures { EndsMessage fault result }
{
    match fault {
        OrderFault::Refused(refusal) => exit_of_refusal(refusal),
        OrderFault::Unreadable => Exit::BAD_WORDS,
        OrderFault::Memory => Exit::MEMORY,
    }
}

/// The end of a run whose stream ended or broke off; its number of replies is not shown.
pub(crate) fn exit_of_stream(served: Result<u64, StreamFault>) -> Exit
    ensures { EndsStream served result }
{
    let words = match served {
        Ok(_) => return Exit::DONE,
        Err(StreamFault::ReadFault) => "read fault",
        Err(StreamFault::WriteFault) => "write fault",
        Err(StreamFault::TooManyTurns) => "too many turns",
        Err(StreamFault::StoreFault) => "store fault",
        Err(StreamFault::Memory) => "memory",
    };
    Exit {
        status: 3,
        message: words,
    }
}
