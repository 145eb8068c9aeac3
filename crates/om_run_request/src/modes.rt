//! What the words of the command line ask for, as the commands have it.

ghost use Rattle.std.specs.Prelude.{◌≡◌};
ghost use Rattle.om_run_request.specs.Asked.{form_of, mode_of};

use om_arguments::{Checking, OutputForm};
use om_commands::BytesForm;
use om_run_commands::RunMode;

/// Returns how a run is carried out that is to be checked so.
pub fn mode_of<'a>(checking: Checking<'a>) -> RunMode<'a>
    ensures { result ≡ mode_of checking.entry }
{
    match checking {
        Checking::Off => RunMode::Plain,
        Checking::Check => RunMode::Check,
        Checking::Witness(_) => RunMode::Witness,
        Checking::Record(_) => RunMode::Record,
        Checking::Follow => RunMode::Follow,
        Checking::Raw(name) => RunMode::Raw(name),
        Checking::FollowRaw(name) => RunMode::FollowRaw(name),
    }
}

/// Returns the asked form in which bytes are written.
pub fn form_of(form: OutputForm) -> BytesForm
    ensures { result ≡ form_of form }
{
    match form {
        OutputForm::Hex => BytesForm::Hex,
        OutputForm::Text => BytesForm::Text,
    }
}
