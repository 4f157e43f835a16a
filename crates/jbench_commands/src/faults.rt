//! Translates the fault of a script's run into a command's.
ghost use Rattle.jbench_words.specs.Images.{IsUnmade};

use jbench_words::fault::Fault;

/// A run's fault as its command reports it; it is never one of an image's files.
pub(crate) fn of_run(fault: script_client::Fault) -> Fault
    ensures { ¬ IsUnmade result }
{
    match fault {
        script_client::Fault::Refused(e) => Fault::Refused(e),
        script_client::Fault::Output(e) => Fault::from(e),
    }
}
