// The texts of what a hub told.
use fed_hub::{CloseFault, Collected, EduFault, FinishFault, Ran, SendFault, Served};
use std::alloc::{AllocError, Global};

pub(crate) fn send_fault_text(alloc: Global, fault: SendFault) -> Result<String, AllocError> {
    format!(in alloc; "refused {fault}")
}

pub(crate) fn edu_fault_text(alloc: Global, fault: EduFault) -> Result<String, AllocError> {
    format!(in alloc; "refused {fault}")
}

pub(crate) fn close_fault_text(alloc: Global, fault: CloseFault) -> Result<String, AllocError> {
    format!(in alloc; "refused {fault}")
}

pub(crate) fn finish_fault_text(alloc: Global, fault: FinishFault) -> Result<String, AllocError> {
    format!(in alloc; "not finished: {fault}")
}

/// How a thread ended its turns.
pub(crate) fn ran_word(ran: Ran) -> &'static str {
    match ran {
        Ran::Drained => "drained",
        Ran::TurnsSpent => "turns spent",
        Ran::Memory => "no memory",
    }
}

/// What was told of a collect.
pub(crate) fn collected_word(told: Collected) -> &'static str {
    match told {
        Collected::Moved => "moved",
        Collected::Nothing => "nothing",
        Collected::Closed => "closed",
        Collected::Memory => "no memory",
    }
}

/// How many parcels were moved, and what was told behind them, where that was another thing.
pub(crate) fn collected_text(
    alloc: Global,
    moved: u64,
    told: Collected,
) -> Result<String, AllocError> {
    if told == Collected::Moved {
        return format!(in alloc; "moved {moved}");
    }
    let word = collected_word(told);
    format!(in alloc; "moved {moved}, then {word}")
}

/// What became of a request, or of so many in a row that all came to this.
pub(crate) fn served_text(alloc: Global, served: Served, count: u64) -> Result<String, AllocError> {
    let times = if count == 1 {
        String::new(alloc)
    } else {
        format!(in alloc; ", {count} times")?
    };
    match served {
        Served::Answered(status) => format!(in alloc; "answered {status}{times}"),
        Served::ReadFault => format!(in alloc; "read fault{times}"),
        Served::EndedEarly => format!(in alloc; "ended early{times}"),
        Served::WriteFault => format!(in alloc; "write fault{times}"),
    }
}
