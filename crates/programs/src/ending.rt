// How a program ends.
ghost use Rattle.std.specs.Prelude.{◌≡◌, if◌then◌else◌, is_ok};
ghost use Rattle.std.specs.Process.{exit_status};

use std::process::ExitCode;

// The exit status of a program with this outcome. Why it failed goes to standard error, behind the program's name.
pub fn exit_code(rt: &impl Eprint, name: &str, outcome: anyhow::Result<()>) -> ExitCode
    ensures { exit_status result ≡ (if is_ok outcome then 0 else 1) }
{
    match outcome {
        Ok(()) => ExitCode::SUCCESS,
        Err(error) => {
            let _ = eprintln!(rt; "{name}: {error}");
            ExitCode::FAILURE
        }
    }
}
